// The nodes of the tree file.
ghost use Rattle.std.specs.Prelude.{◌≡◌, ℕ, ◌<◌, length, option_map, Some, IfOk};
ghost use Rattle.serde_json.specs.Data.{Data};
ghost use Rattle.serde_json.specs.View.{members_view, view};
ghost use Rattle.cdk_language.specs.Expression.{Expression};
ghost use Rattle.cdk_tree.specs.Placed.{construct_at};
ghost use Rattle.cdk_tree.specs.TreeView.{constructs};
ghost use Rattle.cdk_manifest.specs.Objects.{unless_empty};
ghost use Rattle.cdk_manifest.specs.TreeFile.{attributes_of, node_of, node_with, resource_attributes as spec_resource_attributes, shown_id as spec_shown_id};
ghost use Rattle.cdk_manifest.specs.Values.{value_at, AreProperties};

use cdk_base::{Map, Value};
use cdk_language::Kind;
use cdk_tree::{NodeId, Tree};
use serde_json::json;
use std::alloc::{AllocError, Global};

#[tactic(auto, using(crate::proofs::FillLemmas::not_empty))]
/// The object of these members, where there are any.
fn object_unless_empty(members: Map) -> Option<Value>
    ensures { option_map view result ≡ unless_empty (members_view members.entries) }
{
    if members.is_empty() {
        None
    } else {
        Some(Value::Object(members))
    }
}

/// What a construct's node is called: the root `App`, each other by its id.
fn shown_id(tree: &Tree, at: NodeId) -> &str
    requires { at < length (constructs tree.now) }
    ensures { result.now ≡ spec_shown_id (construct_at (constructs tree.now) at).parent (construct_at (constructs tree.now) at).head.id }
{
    match tree.parent(at) {
        Some(_) => tree.node(at).id.as_str(),
        None => "App",
    }
}

/// The value of a construct.
fn value_of(values: &[Value], at: NodeId) -> &Value
    requires { at < length values.now }
    ensures { view result.now ≡ value_at values.now at }
{
    &values[at.number()]
}

fn resource_attributes(
    alloc: Global,
    properties: &Value,
    resource_type: &str,
) -> Result<Value, AllocError>
    ensures { IfOk result (λ v. view v ≡ spec_resource_attributes (view properties.now) resource_type.now) }
{
    json!(in alloc; {
        "aws:cdk:cloudformation:props": properties,
        "aws:cdk:cloudformation:type": resource_type
    })
}

/// The CloudFormation type and the properties of a resource. None exactly where the construct is none.
fn attributes(
    alloc: Global,
    tree: &Tree,
    values: &[Value],
    at: NodeId,
) -> Result<Option<Value>, AllocError>
    requires within { at < length (constructs tree.now) }
    requires values { length values.now ≡ length (constructs tree.now) }
    ensures { IfOk result (λ attributes. (value : ℕ → Expression → Data) → AreProperties values.now value (constructs tree.now) → option_map view attributes ≡ attributes_of value at (construct_at (constructs tree.now) at).body) }
{
    let Kind::Resource(resource) = &tree.node(at).kind else {
        return Ok(None);
    };
    let resource_type = resource.resource_type.as_str();
    let attributes = resource_attributes(alloc, value_of(values, at), resource_type)?;
    Ok(Some(attributes))
}

/// A node with children.
fn branch(
    alloc: Global,
    attributes: Option<Value>,
    children: Value,
    id: &str,
    path: &str,
) -> Result<Value, AllocError>
    ensures { IfOk result (λ v. view v ≡ node_with (option_map view attributes) (Some (view children)) id.now path.now) }
{
    match attributes {
        Some(attributes) => json!(in alloc; {
            "attributes": attributes,
            "children": children,
            "id": id,
            "path": path
        }),
        None => json!(in alloc; {"children": children, "id": id, "path": path}),
    }
}

/// A node without children.
fn leaf(alloc: Global, attributes: Option<Value>, id: &str, path: &str) -> Result<Value, AllocError>
    ensures { IfOk result (λ v. view v ≡ node_with (option_map view attributes) None id.now path.now) }
{
    match attributes {
        Some(attributes) => json!(in alloc; {"attributes": attributes, "id": id, "path": path}),
        None => json!(in alloc; {"id": id, "path": path}),
    }
}

/// The node of a construct that has these children.
pub fn node(
    alloc: Global,
    tree: &Tree,
    values: &[Value],
    at: NodeId,
    children: Map,
) -> Result<Value, AllocError>
    requires within { at < length (constructs tree.now) }
    requires values { length values.now ≡ length (constructs tree.now) }
    ensures { IfOk result (λ v. (value : ℕ → Expression → Data) → AreProperties values.now value (constructs tree.now) → view v ≡ node_of value at (construct_at (constructs tree.now) at) (members_view children.entries)) }
{
    let attributes = attributes(alloc, tree, values, at)?;
    let id = shown_id(tree, at);
    let path = tree.path_of(at);
    match object_unless_empty(children) {
        Some(children) => branch(alloc, attributes, children, id, path),
        None => leaf(alloc, attributes, id, path),
    }
}
