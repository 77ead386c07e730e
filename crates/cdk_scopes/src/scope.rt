use crate::{Exports, Truths};
use cdk_base::Value;
use cdk_eval::Values;

/// Where in a template a value stands.
#[derive(Clone, Copy)]
pub enum Place<'a, 'e> {
    /// In an operand of a condition.
    Operand,
    /// In a property or an output, under the truths of the stack's conditions and the exports before the stack.
    Body {
        truths: &'a Truths<'e>,
        exports: &'a Exports<'e>,
    },
}

/// What the names in a value of a stack's template stand for.
#[derive(Clone, Copy)]
pub struct Scope<'a, 'e> {
    pub values: &'a Values,
    pub stack: &'a str,
    pub template: &'a Value,
    pub place: Place<'a, 'e>,
}
