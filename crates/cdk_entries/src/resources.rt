// What stands in a template for a resource.
ghost use Rattle.std.specs.Prelude.{◌≡◌, ◌<◌, length, OnOk};
ghost use Rattle.serde_json.specs.Data.{no_members};
ghost use Rattle.serde_json.specs.View.{members_view, view};
ghost use Rattle.cdk_language.specs.Construct.{resource_view};
ghost use Rattle.cdk_tree.specs.Placed.{construct_at};
ghost use Rattle.cdk_entries.specs.Entries.{resource_with};
ghost use Rattle.cdk_entries.specs.Naming.{IsNamed, constructs_in, named_at};

use crate::members::{put_members_of, put_object_of_text, put_policy, put_text};
use crate::naming::{Named, put_condition};
use cdk_base::{Map, Value};
use cdk_language::Resource;
use cdk_tree::NodeId;
use std::alloc::AllocError;

/// Puts the members of a resource's entry in, with its properties as they are rendered.
pub fn put_resource(
    entry: &mut Map,
    named: &Named<'_>,
    at: NodeId,
    resource: &Resource,
    properties: Value,
) -> Result<(), AllocError>
    requires within { at < length (constructs_in named.now) }
    requires named { IsNamed named.now }
    requires empty { members_view entry.old.entries ≡ no_members }
    ensures { OnOk result (members_view entry.new.entries ≡ resource_with (named_at (constructs_in named.now)) (construct_at (constructs_in named.now) at).path (resource_view resource.now) (view properties)) }
{
    let alloc = named.alloc;
    let path = named.tree.path_of(at);
    put_members_of(entry, alloc, "Properties", properties)?;
    put_policy(entry, alloc, "UpdateReplacePolicy", resource.replace)?;
    put_text(entry, alloc, "Type", resource.resource_type.as_str())?;
    put_object_of_text(entry, alloc, "Metadata", "aws:cdk:path", path)?;
    put_policy(entry, alloc, "DeletionPolicy", resource.deletion)?;
    put_condition(entry, named, &resource.condition)
}
