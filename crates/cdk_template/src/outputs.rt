// What stands in a template for an output.
ghost use Rattle.std.specs.Prelude.{◌≡◌, ◌<◌, length, IfOk};
ghost use Rattle.serde_json.specs.View.{view};
ghost use Rattle.cdk_language.specs.Construct.{output as output_body, output_view};
ghost use Rattle.cdk_tree.specs.Placed.{construct_at};
ghost use Rattle.cdk_template.specs.Own.{spelling_of};
ghost use Rattle.cdk_template.specs.Sources.{AreSources, RendersOwn, constructs_in};
ghost use Rattle.cdk_template.specs.Template.{output_entry as spec_output_entry};

use crate::sources::Sources;
use crate::values::value_of;
use cdk_base::{Map, Text, Value};
use cdk_entries::put_output;
use cdk_language::Output;
use cdk_resolve::Kept;
use cdk_tree::NodeId;
use serde_json::put;
use std::alloc::{AllocError, Global};

/// The entry of an output.
pub(crate) fn output_entry(
    sources: &Sources<'_>,
    kept: &mut Kept<'_>,
    at: NodeId,
    output: &Output,
) -> Result<Value, AllocError>
    requires within { at < length (constructs_in sources.now) }
    requires sources { AreSources sources.now }
    requires kept { RendersOwn (constructs_in sources.now) kept.old }
    requires body { (construct_at (constructs_in sources.now) at).body ≡ output_body (output_view output.now) }
    ensures value { IfOk result (λ v. view v ≡ spec_output_entry (spelling_of (constructs_in sources.now)) at (output_view output.now)) }
    ensures kept { RendersOwn (constructs_in sources.now) kept.new }
{
    let value = value_of(sources, kept, at)?;
    let mut entry = Map::new(sources.alloc);
    put_output(&mut entry, &sources.named(), output, value)?;
    Ok(Value::Object(entry))
}
