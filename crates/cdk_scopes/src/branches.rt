// The value that a condition picks (CloudFormation: Fn::If).
ghost use Rattle.std.specs.Prelude.{◌≡◌, ◌<◌, ℕ, IfOk};
ghost use Rattle.serde_json.specs.Data.{Data};
ghost use Rattle.serde_json.specs.View.{view};
ghost use Rattle.serde_json.specs.declared.value.Value.{size-Value};
ghost use Rattle.cdk_eval.specs.Outcomes.{Outcome, picked};
ghost use Rattle.cdk_eval.specs.Views.{truth_view};
ghost use Rattle.cdk_scopes.specs.Branch.{branch_outcome};

use cdk_base::Value;
use cdk_eval::{EvalFault, Truth};

/// The one of two values that a truth picks, or why there is none.
pub fn branch<'a>(truth: Truth, held: &'a Value, other: &'a Value) -> Result<&'a Value, EvalFault>
    ensures picked { (own : Data → Outcome) → branch_outcome own result ≡ picked (truth_view truth) (own (view held.now)) (own (view other.now)) }
    ensures smaller { (n : ℕ) → size-Value held.now < n → size-Value other.now < n → IfOk result (λ v. size-Value v.now < n) }
{
    match truth {
        Truth::Holds(true) => Ok(held),
        Truth::Holds(false) => Ok(other),
        Truth::Untold(fault) => Err(fault),
    }
}
