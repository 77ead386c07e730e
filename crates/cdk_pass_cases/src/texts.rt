// Texts that are told.
use cdk_base::Value;
use cdk_tally::{Tally, push_between};
use std::alloc::{AllocError, Global};

/// Adds two texts with a blank between them, in round brackets.
pub fn push_pair(told: &mut String, first: &str, second: &str) -> Result<(), AllocError> {
    push_between(told, '(', first, ' ')?;
    told.push_str(second)?;
    told.push(')')
}

/// Adds the JSON of a value.
pub fn push_value(alloc: Global, told: &mut String, value: &Value) -> Result<(), AllocError> {
    let text = value.to_string(alloc)?;
    let pushed = told.push_str(text.as_str());
    drop(text);
    pushed
}

/// One case more: what is wanted of it, and what is told, of which it lets go.
pub fn compare(tally: &mut Tally, case: &str, want: &str, told: String) -> Result<(), AllocError> {
    let compared = tally.compare(case, want, told.as_str());
    drop(told);
    compared
}
