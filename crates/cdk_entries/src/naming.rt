// Logical names of constructs, by number and by path.
ghost use Rattle.std.specs.Prelude.{◌≡◌, ◌<◌, OnOk, codes, length, option_map};
ghost use Rattle.serde_json.specs.Data.{put as spec_put, string};
ghost use Rattle.serde_json.specs.View.{members_view, view};
ghost use Rattle.cdk_elements.specs.Elements.{logical_of};
ghost use Rattle.cdk_tokens.specs.Marking.{target as spec_target};
ghost use Rattle.cdk_tree.specs.TreeView.{constructs};
ghost use Rattle.cdk_entries.specs.Members.{put_given};
ghost use Rattle.cdk_entries.specs.Naming.{IsNamed, constructs_in, named_at};

use crate::members::put_text;
use cdk_base::{Map, Text, Value};
use cdk_stacks::Names;
use cdk_tree::{NodeId, Tree};
use serde_json::put;
use std::alloc::{AllocError, Global};

/// A tree whose constructs have names.
#[derive(Clone, Copy)]
pub struct Named<'a> {
    /// Where memory is taken from.
    pub alloc: Global,
    pub tree: &'a Tree,
    /// The names of the tree's constructs.
    pub names: &'a Names,
}

/// The logical name of a construct, or the empty text where it has none.
fn logical_name<'a>(named: &Named<'a>, at: NodeId) -> &'a str
    requires { IsNamed named.now }
    ensures { result.now ≡ logical_of (constructs_in named.now) at }
{
    match named.names.logical(at) {
        Some(name) => name,
        None => "",
    }
}

// The construct at a path; one that no construct has is refused before, and stands for the root here.
fn target(tree: &Tree, path: &str) -> NodeId
    ensures { result ≡ spec_target (constructs tree.now) path.now }
{
    match tree.find(path) {
        Some(at) => at,
        None => NodeId::ROOT,
    }
}

/// Puts the logical name of a condition in, where its path is given.
pub(crate) fn put_condition(
    members: &mut Map,
    named: &Named<'_>,
    path: &Option<Text>,
) -> Result<(), AllocError>
    requires { IsNamed named.now }
    ensures { OnOk result (members_view members.new.entries ≡ put_given (codes "Condition") (option_map (λ t. string (named_at (constructs_in named.now) t)) path.now) (members_view members.old.entries)) }
{
    let Some(path) = path else {
        return Ok(());
    };
    let condition = target(named.tree, path.as_str());
    let name = logical_name(named, condition);
    put_text(members, named.alloc, "Condition", name)
}

/// Puts the entry of a construct in, by its logical name.
pub fn put_named(
    entries: &mut Map,
    named: &Named<'_>,
    at: NodeId,
    entry: Value,
) -> Result<(), AllocError>
    requires within { at < length (constructs_in named.now) }
    requires named { IsNamed named.now }
    ensures { OnOk result (members_view entries.new.entries ≡ spec_put (logical_of (constructs_in named.now) at) (view entry) (members_view entries.old.entries)) }
{
    let name = logical_name(named, at);
    put(entries, named.alloc, name, entry)
}
