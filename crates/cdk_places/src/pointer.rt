// JSON Pointers (RFC 6901), built from the finding up to the root.
ghost use Rattle.std.specs.Prelude.{◌≡◌, IfOk, decimal};
ghost use Rattle.cdk_language.specs.Findings.{under};

use cdk_base::step_to;
use cdk_language::Finding;
use std::alloc::{AllocError, Global};

/// The finding in a member, as the member's object tells it.
pub fn under(alloc: Global, step: &str, finding: Finding) -> Result<Finding, AllocError>
    ensures { IfOk result (λ f. f ≡ under step.now finding) }
{
    let place = step_to(alloc, step, finding.place.as_str())?;
    Ok(Finding {
        code: finding.code,
        place,
    })
}

/// The finding in an item, as the item's array tells it.
pub fn under_index(alloc: Global, index: usize, finding: Finding) -> Result<Finding, AllocError>
    ensures { IfOk result (λ f. f ≡ under (decimal index) finding) }
{
    let digits = index.to_string(alloc)?;
    under(alloc, digits.as_str(), finding)
}
