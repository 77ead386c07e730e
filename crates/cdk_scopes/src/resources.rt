// Whether resources and outputs are made.
ghost use Rattle.std.specs.Prelude.{◌≡◌, ℕ, List};
ghost use Rattle.serde_json.specs.View.{view};
ghost use Rattle.cdk_eval.specs.Sections.{made_text};
ghost use Rattle.cdk_eval.specs.Views.{truth_view};
ghost use Rattle.cdk_scopes.specs.Scopes.{presence_of, text_unless};

use crate::Truths;
use cdk_base::Value;
use cdk_eval::{EvalFault, Truth};

/// Whether a resource or an output is made, by its `Condition`.
pub fn presence(truths: &Truths<'_>, entry: &Value) -> Truth
    ensures { truth_view result ≡ presence_of truths.now (view entry.now) }
{
    match entry.get("Condition") {
        None => Truth::Holds(true),
        Some(Value::String(name)) => truths.truth(name.as_str()),
        Some(_) => Truth::Untold(EvalFault::BadIntrinsic),
    }
}

/// Why a resource with this presence has no text.
pub fn barred_by(presence: Truth) -> Option<EvalFault>
    ensures { (t : List ℕ) → made_text (truth_view presence) t ≡ text_unless result t }
{
    match presence {
        Truth::Holds(true) => None,
        Truth::Holds(false) => Some(EvalFault::NotMade),
        Truth::Untold(fault) => Some(fault),
    }
}
