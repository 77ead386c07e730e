// The construct that a JSON value is, with all constructs below it.
ghost use Rattle.std.specs.Prelude.{◌≡◌};
ghost use Rattle.serde_json.specs.View.{view as json_view, items_view, members_view};
ghost use Rattle.cdk_language.specs.Application.{construct_in as construct_in_members, construct_of as construct_in, children_in, constructs_of as constructs_in, constructs_from as constructs_from_items, root_in as root_in_members, application_of as application_in};
ghost use Rattle.cdk_language.specs.Construct.{construct, kind_view, node_view, nodes_view, app_view};
ghost use Rattle.cdk_members.specs.Gives.{Gives};
ghost use Rattle.cdk_heads.specs.Views.{head_view};

use crate::bodies::kind_of;
use cdk_base::{List, Map, Value};
use cdk_heads::{Head, head_of};
use cdk_language::{App, Kind, Node};
use cdk_members::{ReadError, text_at};
use cdk_substitution::Copies;
use std::alloc::Global;

fn node_of(head: Head, kind: Kind, children: List<Node>) -> Node
    ensures { node_view result ≡ construct (head_view head) (kind_view kind) (nodes_view children) }
{
    let Head {
        id,
        context,
        aspects,
        depends,
        logical,
    } = head;
    Node {
        id,
        kind,
        context,
        aspects,
        depends,
        logical,
        children,
    }
}

/// The construct of the members, its children being read.
fn construct_with(
    alloc: Global,
    copies: &mut Copies,
    members: &Map,
    children: List<Node>,
) -> Result<Node, ReadError>
    ensures { Gives node_view result (construct_in_members (members_view members.now.entries) (nodes_view children)) }
{
    let Some(id) = text_at(members, "id") else {
        return Err(ReadError::Shape);
    };
    let Some(kind) = text_at(members, "kind") else {
        return Err(ReadError::Shape);
    };
    let head = head_of(alloc, members, id)?;
    let kind = kind_of(alloc, copies, members, kind)?;
    Ok(node_of(head, kind, children))
}

#[cycle(constructs)]
fn construct_of(alloc: Global, copies: &mut Copies, value: &Value) -> Result<Node, ReadError>
    ensures { Gives node_view result (construct_in (json_view value.now)) }
{
    let Value::Object(members) = value else {
        return Err(ReadError::Shape);
    };
    let children = children_of(alloc, copies, members)?;
    construct_with(alloc, copies, members, children)
}

/// The children among the members; none where none are given.
#[cycle(constructs)]
fn children_of(alloc: Global, copies: &mut Copies, members: &Map) -> Result<List<Node>, ReadError>
    ensures { Gives nodes_view result (children_in (members_view members.now.entries)) }
{
    for (key, member) in members.iter() {
        if key.as_str() == "children" {
            return constructs_of(alloc, copies, member);
        }
    }
    Ok(List::new(alloc))
}

#[cycle(constructs)]
fn constructs_of(alloc: Global, copies: &mut Copies, value: &Value) -> Result<List<Node>, ReadError>
    ensures { Gives nodes_view result (constructs_in (json_view value.now)) }
{
    match value {
        Value::Array(items) => constructs_from(alloc, copies, items),
        _ => Err(ReadError::Shape),
    }
}

#[cycle(constructs)]
fn constructs_from(
    alloc: Global,
    copies: &mut Copies,
    items: &Vec<Value>,
) -> Result<List<Node>, ReadError>
    ensures { Gives nodes_view result (constructs_from_items (items_view items.now.items)) }
{
    let mut found = List::new(alloc);
    for item in items {
        found.push(construct_of(alloc, copies, item)?)?;
    }
    Ok(found)
}

fn root_of(alloc: Global, copies: &mut Copies, members: &Map) -> Result<Node, ReadError>
    ensures { Gives node_view result (root_in_members (members_view members.now.entries)) }
{
    let head = head_of(alloc, members, "")?;
    let children = children_of(alloc, copies, members)?;
    Ok(node_of(head, Kind::App, children))
}

/// The application of a document. It answers `Shape` exactly where the document has none, and `Memory` where memory
/// ran out or the texts with variables would put in more than 16,000,000 expressions.
pub fn application_of(alloc: Global, value: &Value) -> Result<App, ReadError>
    ensures { Gives app_view result (application_in (json_view value.now)) }
{
    let Some(members) = value.as_object() else {
        return Err(ReadError::Shape);
    };
    let mut copies = Copies::new();
    let root = root_of(alloc, &mut copies, members)?;
    Ok(App { root })
}
