// The variables of a text, found by their names.
ghost use Rattle.std.specs.Prelude.{◌≡◌, IfOk};
ghost use Rattle.std.specs.Ordering.{nat_cmp};
ghost use Rattle.std.specs.Cmp.Lexicographic.{slice_cmp};
ghost use Rattle.std.specs.BTreeMap.{get_by};
ghost use Rattle.cdk_language.specs.Expression.{fields_view};
ghost use Rattle.cdk_substitution.specs.Steps.{Have};

use cdk_language::{Expr, Field};
use std::alloc::{AllocError, Global};
use std::collections::BTreeMap;

/// The expressions of a text's variables by their names.
#[derive(Drop)]
pub struct Variables<'a> {
    expressions: BTreeMap<&'a str, &'a Expr>,
}

impl<'a> Variables<'a> {
    /// The fields by their keys. Of two of one key the first counts.
    pub fn of_fields(alloc: Global, fields: &'a [Field]) -> Result<Variables<'a>, AllocError>
        ensures { IfOk result (λ variables. Have variables (fields_view fields.now)) }
    {
        let mut expressions = BTreeMap::new(alloc);
        for number in (0..fields.len()).rev() {
            let field = &fields[number];
            expressions.insert(field.key.as_str(), &field.value)?;
        }
        Ok(Variables { expressions })
    }

    /// The expression of the variable.
    pub fn get(&self, name: &str) -> Option<&'a Expr>
        ensures { result ≡ get_by (λ k. slice_cmp nat_cmp name.now k.now) self.now.expressions }
    {
        self.expressions.get(name).copied()
    }
}
