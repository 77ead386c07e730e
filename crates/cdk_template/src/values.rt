// Rendered values of constructs.
ghost use Rattle.std.specs.Prelude.{◌≡◌, ◌<◌, Some, length, option_map, is_some, true, IfOk, IsTrue};
ghost use Rattle.serde_json.specs.View.{view};
ghost use Rattle.cdk_expansion.specs.Own.{value_in};
ghost use Rattle.cdk_resolve.specs.KeptView.{kept_scope};
ghost use Rattle.cdk_tree.specs.Expected.{is_condition};
ghost use Rattle.cdk_tree.specs.Placed.{construct_at};
ghost use Rattle.cdk_template.specs.Own.{spelling_of};
ghost use Rattle.cdk_template.specs.Sources.{AreSources, RendersOwn, constructs_in};
ghost use Rattle.cdk_template.specs.Template.{entry_of};

use crate::sources::Sources;
use cdk_base::Value;
use cdk_resolve::Kept;
use cdk_tree::NodeId;
use std::alloc::AllocError;

/// The JSON of a resource's properties, or of the value of an output or a lazy, as the template of the stack of `kept` holds it
/// (CloudFormation's intrinsic functions, as AWS CDK writes them).
///
/// It answers an error only where no memory is found. The lazies that the value reaches are kept from then on.
pub fn value_of(sources: &Sources<'_>, kept: &mut Kept<'_>, at: NodeId) -> Result<Value, AllocError>
    requires sources { AreSources sources.now }
    requires kept { RendersOwn (constructs_in sources.now) kept.old }
    requires has_value { IsTrue (is_some (value_in (construct_at (constructs_in sources.now) at).body)) }
    ensures value { IfOk result (λ v. Some (view v) ≡ option_map ((spelling_of (constructs_in sources.now)).value at) (value_in (construct_at (constructs_in sources.now) at).body)) }
    ensures scope { kept_scope kept.new ≡ kept_scope kept.old }
    ensures kept { RendersOwn (constructs_in sources.now) kept.new }
{
    let Some(value) = sources.marked.value(at) else {
        unreachable!()
    };
    kept.resolve(value)
}

/// The JSON of a condition of the stack of `kept`.
pub(crate) fn condition_of(
    sources: &Sources<'_>,
    kept: &mut Kept<'_>,
    at: NodeId,
) -> Result<Value, AllocError>
    requires within { at < length (constructs_in sources.now) }
    requires is_condition { is_condition (construct_at (constructs_in sources.now) at).body ≡ true }
    requires kept { RendersOwn (constructs_in sources.now) kept.old }
    ensures value { IfOk result (λ v. view v ≡ entry_of (spelling_of (constructs_in sources.now)) at (construct_at (constructs_in sources.now) at)) }
    ensures kept { RendersOwn (constructs_in sources.now) kept.new }
{
    kept.condition(sources.tree, at)
}
