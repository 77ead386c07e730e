// What is found at a value's own place.
ghost use Rattle.std.specs.Prelude.{◌≡◌, IfOk};
ghost use Rattle.serde_json.specs.View.{view};
ghost use Rattle.cdk_language.specs.Findings.{is_fraction as spec_is_fraction, is_marked_text as spec_is_marked_text, is_joined_marked as spec_is_joined_marked, own, first};

use crate::shapes::is_wrong;
use cdk_base::{Code, Value, has_marker};
use cdk_language::Role;
use cdk_runs::is_marked_form;
use std::alloc::AllocError;

fn is_fraction(value: &Value) -> bool
    ensures { result ≡ spec_is_fraction (view value.now) }
{
    match value {
        Value::Number(n) => n.is_f64(),
        _ => false,
    }
}

fn is_marked_text(value: &Value) -> bool
    ensures { result ≡ spec_is_marked_text (view value.now) }
{
    match value {
        Value::String(text) => has_marker(text.as_str()),
        _ => false,
    }
}

/// Whether the value's place is one of expressions, and a run of adjacent literals of it holds the beginning of a marker.
fn is_joined_marked(left: &mut u64, role: Role, value: &Value) -> Result<bool, AllocError>
    ensures { IfOk result (λ b. b ≡ spec_is_joined_marked role (view value.now)) }
{
    match role {
        Role::Expression(_) | Role::TextPlace(_) | Role::ListPlace(_) => {
            is_marked_form(left, value)
        }
        _ => Ok(false),
    }
}

/// The lowest code that is found at the value's own place. What is walked in search of runs is taken from `left`; the
/// error tells that too little of it is left.
pub fn first_own(
    left: &mut u64,
    marked: bool,
    role: Role,
    value: &Value,
) -> Result<Option<Code>, AllocError>
    ensures { IfOk result (λ code. code ≡ first (own marked role (view value.now))) }
{
    if is_wrong(role, value) {
        return Ok(Some(Code::Shape));
    }
    if is_fraction(value) {
        return Ok(Some(Code::Number));
    }
    if marked || is_marked_text(value) {
        return Ok(Some(Code::LiteralMarker));
    }
    if is_joined_marked(left, role, value)? {
        return Ok(Some(Code::LiteralMarker));
    }
    Ok(None)
}
