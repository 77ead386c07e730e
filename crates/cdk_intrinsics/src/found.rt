// What an outcome adds to the members of an object that are found so far.
ghost use Rattle.std.specs.Prelude.{◌≡◌, IfOk, string_bytes};
ghost use Rattle.serde_json.specs.View.{members_view};
ghost use Rattle.cdk_eval.specs.Views.{outcome_view};
ghost use Rattle.cdk_intrinsics.specs.Found.{fault_in, put_outcome as spec_put_outcome};

use cdk_base::Map;
use cdk_eval::{EvalFault, Outcome};
use std::alloc::AllocError;

/// Puts a member's value to those that are found. One that is gone is left out, and a fault is handed back.
pub fn put_outcome(
    found: &mut Map,
    key: &String,
    outcome: Outcome,
) -> Result<Option<EvalFault>, AllocError>
    ensures { IfOk result (λ fault. (fault ≡ fault_in (outcome_view outcome)) × (members_view found.new.entries ≡ spec_put_outcome (string_bytes key.now) (outcome_view outcome) (members_view found.old.entries))) }
{
    let value = match outcome {
        Outcome::Value(value) => value,
        Outcome::Gone => return Ok(None),
        Outcome::Fault(fault) => return Ok(Some(fault)),
    };
    let key = key.clone()?;
    drop(found.insert(key, value)?);
    Ok(None)
}
