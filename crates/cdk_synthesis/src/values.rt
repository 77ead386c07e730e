// The values of resources' properties, by the numbers of the constructs.
ghost use Rattle.std.specs.Prelude.{◌≡◌, ◌<◌, length, IfOk};
ghost use Rattle.cdk_manifest.specs.Values.{AreProperties};
ghost use Rattle.cdk_template.specs.Own.{spelling_of};
ghost use Rattle.cdk_template.specs.Sources.{AreSources, RendersOwn, SpellsOwn, constructs_in, scope_in};
ghost use Rattle.cdk_tree.specs.Placed.{construct_at};
ghost use Rattle.cdk_synthesis.specs.Values.{IsValueOf};

use cdk_base::Value;
use cdk_language::Kind;
use cdk_resolve::Kept;
use cdk_template::{Sources, kept_for, value_of};
use cdk_tree::NodeId;
use std::alloc::AllocError;

fn shown_value(sources: &Sources<'_>, kept: &mut Kept<'_>, at: NodeId) -> Result<Value, AllocError>
    requires within { at < length (constructs_in sources.now) }
    requires sources { AreSources sources.now }
    requires kept { RendersOwn (constructs_in sources.now) kept.old }
    ensures value { IfOk result (λ v. IsValueOf v (constructs_in sources.now) at (construct_at (constructs_in sources.now) at).body) }
    ensures kept { RendersOwn (constructs_in sources.now) kept.new }
{
    match &sources.tree.node(at).kind {
        Kind::Resource(_) => value_of(sources, kept, at),
        _ => Ok(Value::Null),
    }
}

/// The values of resources' properties as the stack's template has them, each at its resource's number; at other constructs null.
pub(crate) fn values_of(sources: &Sources<'_>, stack: NodeId) -> Result<Vec<Value>, AllocError>
    requires sources { AreSources sources.now }
    requires own { SpellsOwn (constructs_in sources.now) (scope_in sources.now stack) }
    ensures count { IfOk result (λ values. length values.items ≡ length (constructs_in sources.now)) }
    ensures values { IfOk result (λ values. AreProperties values.items (spelling_of (constructs_in sources.now)).value (constructs_in sources.now)) }
{
    let mut kept = kept_for(sources, stack);
    let mut values = Vec::new(sources.alloc);
    for number in 0..sources.tree.len() {
        let Some(at) = sources.tree.id(number) else {
            unreachable!()
        };
        let value = shown_value(sources, &mut kept, at)?;
        values.push(value)?;
    }
    Ok(values)
}
