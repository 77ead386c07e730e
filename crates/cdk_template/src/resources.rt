// What stands in a template for a resource.
ghost use Rattle.std.specs.Prelude.{◌≡◌, ◌<◌, length, IfOk};
ghost use Rattle.serde_json.specs.View.{view};
ghost use Rattle.cdk_language.specs.Construct.{resource as resource_body, resource_view};
ghost use Rattle.cdk_tree.specs.Placed.{construct_at};
ghost use Rattle.cdk_template.specs.Own.{spelling_of};
ghost use Rattle.cdk_template.specs.Sources.{AreSources, RendersOwn, constructs_in};
ghost use Rattle.cdk_template.specs.Template.{resource_entry as spec_resource_entry};

use crate::sources::Sources;
use crate::values::value_of;
use cdk_base::{Map, Value};
use cdk_entries::put_resource;
use cdk_language::Resource;
use cdk_resolve::Kept;
use cdk_tree::NodeId;
use std::alloc::AllocError;

/// The entry of a resource.
pub(crate) fn resource_entry(
    sources: &Sources<'_>,
    kept: &mut Kept<'_>,
    at: NodeId,
    resource: &Resource,
) -> Result<Value, AllocError>
    requires within { at < length (constructs_in sources.now) }
    requires sources { AreSources sources.now }
    requires kept { RendersOwn (constructs_in sources.now) kept.old }
    requires body { (construct_at (constructs_in sources.now) at).body ≡ resource_body (resource_view resource.now) }
    ensures value { IfOk result (λ v. view v ≡ spec_resource_entry (spelling_of (constructs_in sources.now)) at (construct_at (constructs_in sources.now) at).path (resource_view resource.now)) }
    ensures kept { RendersOwn (constructs_in sources.now) kept.new }
{
    let properties = value_of(sources, kept, at)?;
    let mut entry = Map::new(sources.alloc);
    put_resource(&mut entry, &sources.named(), at, resource, properties)?;
    Ok(Value::Object(entry))
}
