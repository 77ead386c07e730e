// What becomes of a resource that goes.
ghost use Rattle.std.specs.Prelude.{◌≡◌, codes, option_map, option_and_then};
ghost use Rattle.serde_json.specs.View.{members_view};
ghost use Rattle.cdk_language.specs.Application.{text_at as text_in, policy_of as policy_named};

use crate::members::text_at;
use cdk_base::Map;
use cdk_language::Policy;

/// The policies of a resource, each where one is given.
#[derive(Clone, Copy)]
pub struct Policies {
    /// What becomes of it when it is taken out of the template.
    pub deletion: Option<Policy>,
    /// What becomes of the old one when an update replaces it.
    pub replace: Option<Policy>,
}

/// The policy of the name.
fn policy_of(name: Option<&str>) -> Option<Policy>
    ensures { result ≡ option_and_then policy_named (option_map (λ s. s.now) name.entry) }
{
    match name? {
        "Delete" => Some(Policy::Delete),
        "Retain" => Some(Policy::Retain),
        "Snapshot" => Some(Policy::Snapshot),
        _ => None,
    }
}

/// The policies among the members of a resource.
pub fn policies_of(members: &Map) -> Policies
    ensures deletion { result.deletion ≡ option_and_then policy_named (text_in (codes "deletionPolicy") (members_view members.now.entries)) }
    ensures replace { result.replace ≡ option_and_then policy_named (text_in (codes "updateReplacePolicy") (members_view members.now.entries)) }
{
    let deletion = policy_of(text_at(members, "deletionPolicy"));
    let replace = policy_of(text_at(members, "updateReplacePolicy"));
    Policies { deletion, replace }
}
