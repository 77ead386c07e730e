// What stands in a template for a construct.
ghost use Rattle.std.specs.Prelude.{◌≡◌, ◌<◌, length, IfOk};
ghost use Rattle.serde_json.specs.View.{view};
ghost use Rattle.cdk_language.specs.Construct.{kind_view};
ghost use Rattle.cdk_tree.specs.Placed.{construct_at};
ghost use Rattle.cdk_template.specs.Own.{spelling_of};
ghost use Rattle.cdk_template.specs.Sources.{AreSources, RendersOwn, constructs_in};
ghost use Rattle.cdk_template.specs.Template.{entry_in, entry_of};

use crate::outputs::output_entry;
use crate::resources::resource_entry;
use crate::sources::Sources;
use crate::values::condition_of;
use cdk_base::Value;
use cdk_entries::fixed_entry;
use cdk_language::Kind;
use cdk_resolve::Kept;
use cdk_tree::NodeId;
use std::alloc::AllocError;

fn entry_of_kind(
    sources: &Sources<'_>,
    kept: &mut Kept<'_>,
    at: NodeId,
    kind: &Kind,
) -> Result<Value, AllocError>
    requires within { at < length (constructs_in sources.now) }
    requires sources { AreSources sources.now }
    requires kept { RendersOwn (constructs_in sources.now) kept.old }
    requires body { (construct_at (constructs_in sources.now) at).body ≡ kind_view kind.now }
    ensures value { IfOk result (λ v. view v ≡ entry_in (spelling_of (constructs_in sources.now)) at (construct_at (constructs_in sources.now) at).path (kind_view kind.now)) }
    ensures kept { RendersOwn (constructs_in sources.now) kept.new }
{
    match kind {
        Kind::Resource(resource) => resource_entry(sources, kept, at, resource),
        Kind::Condition(_) => condition_of(sources, kept, at),
        Kind::Output(output) => output_entry(sources, kept, at, output),
        Kind::App
        | Kind::Stage
        | Kind::Stack { .. }
        | Kind::Group
        | Kind::Parameter(_)
        | Kind::Mapping(_)
        | Kind::Lazy(_) => fixed_entry(sources.alloc, kind),
    }
}

/// The entry of a construct in the template of the stack of `kept`.
pub(crate) fn entry(
    sources: &Sources<'_>,
    kept: &mut Kept<'_>,
    at: NodeId,
) -> Result<Value, AllocError>
    requires within { at < length (constructs_in sources.now) }
    requires sources { AreSources sources.now }
    requires kept { RendersOwn (constructs_in sources.now) kept.old }
    ensures value { IfOk result (λ v. view v ≡ entry_of (spelling_of (constructs_in sources.now)) at (construct_at (constructs_in sources.now) at)) }
    ensures kept { RendersOwn (constructs_in sources.now) kept.new }
{
    entry_of_kind(sources, kept, at, &sources.tree.node(at).kind)
}
