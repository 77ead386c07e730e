// The priority of an aspect entry.
ghost use Rattle.cdk_language.specs.Application.{priority_of as priority_in};
ghost use Rattle.cdk_members.specs.Gives.{Gives};
ghost use Rattle.cdk_members.specs.Views.{data_view};

use crate::error::ReadError;
use cdk_base::Value;

/// The priority of an aspect entry that gives none.
const USUAL_PRIORITY: u32 = 500;

/// The greatest priority of an aspect entry.
const GREATEST_PRIORITY: u64 = 1_000_000;

/// The priority of an aspect entry, from the value that it gives for it, if any.
pub fn priority_of(value: Option<&Value>) -> Result<u32, ReadError>
    ensures { Gives (λ n. n) result (priority_in (data_view value.entry)) }
{
    let Some(value) = value else {
        return Ok(USUAL_PRIORITY);
    };
    let Some(n) = value.as_u64() else {
        return Err(ReadError::Shape);
    };
    if n > GREATEST_PRIORITY {
        return Err(ReadError::Shape);
    }
    Ok(n as u32)
}
