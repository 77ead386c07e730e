// The constructs of an application, placed one by one.
ghost use Rattle.std.specs.Prelude.{◌≡◌, ◌<◌, ◌+◌, [], ◌∷◌, ◌++◌, length, OnOk, None, string_bytes, true};
ghost use Rattle.cdk_language.specs.Construct.{construct, kind_view, node_view, nodes_view};
ghost use Rattle.cdk_tree.specs.NodesView.{placed_nodes};
ghost use Rattle.cdk_scoping.specs.Ids.{path_in as spec_path_in};
ghost use Rattle.cdk_tree.specs.Placed.{construct_at, constructs_of, find_path};
ghost use Rattle.cdk_tree.specs.Slots.{fits_parent, head_of, is_scoped, placed_of, root_slot as spec_root_slot, slot_in as spec_slot_in};
ghost use Rattle.cdk_tree.specs.Walking.{all_placed, children_of, pending_view, waiting, wrong_code, AreBelow, ChecksPath, Completes, Enters, EntersRoot, IsSound, Places};

use crate::node_id::NodeId;
use crate::nodes::Nodes;
use crate::part::Part;
use crate::pending::Pending;
use crate::slot::Slot;
use cdk_base::{Code, Fault, List, Text};
use cdk_language::Node;
use cdk_scoping::{is_id, is_misplaced, is_stack, is_stage, path_in};
use std::alloc::{AllocError, Global};

/// The first thing that is wrong with a construct.
fn first_wrong(nodes: &Nodes, parent: NodeId, path: &str, part: &Part) -> Option<Code>
    requires inside { parent < length (placed_nodes nodes.now) }
    requires path { path.now ≡ spec_path_in (construct_at (placed_nodes nodes.now) parent).path part.now.id }
    ensures { result ≡ wrong_code (placed_nodes nodes.now) parent part.now.id (kind_view part.now.kind) }
{
    if !is_id(part.id.as_str()) {
        return Some(Code::BadId);
    }
    if nodes.find(path).is_some() {
        return Some(Code::SameId);
    }
    let scope = nodes.slot(parent);
    if is_misplaced(scope.stack.is_some(), scope.level, &part.kind) {
        return Some(Code::BadPlace);
    }
    None
}

/// Puts children before all that waits, the first child first.
fn push_children(
    pending: &mut List<Pending>,
    mut children: List<Node>,
    parent: NodeId,
) -> Result<(), AllocError>
    ensures { OnOk result (waiting pending.new ≡ children_of parent (nodes_view children) ++ waiting pending.old) }
{
    while let Some(node) = children.pop() {
        pending.push(Pending { node, parent })?;
    }
    Ok(())
}

/// A construct without its children, and these.
fn take_apart(node: Node) -> (Part, List<Node>)
    ensures { node_view node ≡ construct (head_of result.0) (kind_view result.0.kind) (nodes_view result.1) }
{
    let Node {
        id,
        kind,
        context,
        aspects,
        depends,
        logical,
        children,
    } = node;
    let part = Part {
        id,
        kind,
        context,
        aspects,
        depends,
        logical,
    };
    (part, children)
}

/// The place of a construct in a scope.
fn slot_in(part: Part, at: NodeId, parent: NodeId, scope: &Slot) -> Slot
    requires { scope.now.level < 255 }
    ensures { result ≡ spec_slot_in at parent scope.now part }
{
    let stack = if is_stack(&part.kind) {
        Some(at)
    } else {
        scope.stack
    };
    let stage = if is_stage(&part.kind) {
        at
    } else {
        scope.stage
    };
    Slot {
        part,
        parent: Some(parent),
        level: scope.level + 1,
        stack,
        stage,
    }
}

fn root_slot(part: Part) -> Slot
    ensures { result ≡ spec_root_slot part }
{
    let stack = if is_stack(&part.kind) {
        Some(NodeId::ROOT)
    } else {
        None
    };
    Slot {
        part,
        parent: None,
        level: 0,
        stack,
        stage: NodeId::ROOT,
    }
}

/// The path of a construct with which nothing is wrong.
fn checked_path(alloc: Global, nodes: &Nodes, parent: NodeId, part: &Part) -> Result<String, Fault>
    requires { parent < length (placed_nodes nodes.now) }
    ensures { ChecksPath result (placed_nodes nodes.now) parent part.now.id (kind_view part.now.kind) }
{
    let Ok(path) = path_in(alloc, nodes.path_of(parent), part.id.as_str()) else {
        return Err(Fault::Memory);
    };
    match first_wrong(nodes, parent, path.as_str(), part) {
        Some(code) => Err(Fault::App {
            code,
            place: Text::from_string(path),
        }),
        None => Ok(path),
    }
}

/// Places a construct, and lets its children wait.
fn place(
    nodes: Nodes,
    pending: &mut List<Pending>,
    path: String,
    slot: Slot,
    children: List<Node>,
) -> Result<Nodes, Fault>
    requires new { find_path (placed_nodes nodes) (string_bytes path) ≡ None }
    requires path { string_bytes path ≡ (placed_of (placed_nodes nodes) slot).path }
    requires parent { fits_parent (length (placed_nodes nodes)) slot.parent ≡ true }
    requires scopes { is_scoped (placed_nodes nodes ++ placed_of (placed_nodes nodes) slot ∷ []) (length (placed_nodes nodes)) (placed_of (placed_nodes nodes) slot) ≡ true }
    ensures { Places result (placed_nodes nodes) (placed_of (placed_nodes nodes) slot) (nodes_view children) (waiting pending.old) (waiting pending.new) }
{
    let at = NodeId::new(nodes.len());
    let Ok(nodes) = nodes.push(path, slot) else {
        return Err(Fault::Memory);
    };
    match push_children(pending, children, at) {
        Ok(()) => Ok(nodes),
        Err(_) => {
            drop(nodes);
            Err(Fault::Memory)
        }
    }
}

/// Places the next construct, unless something is wrong with it.
fn enter(
    alloc: Global,
    nodes: Nodes,
    pending: &mut List<Pending>,
    next: Pending,
) -> Result<Nodes, Fault>
    requires { next.parent < length (placed_nodes nodes) }
    ensures { Enters result (placed_nodes nodes) next.parent (node_view next.node) (waiting pending.old) (waiting pending.new) }
{
    let Pending { node, parent } = next;
    let (part, children) = take_apart(node);
    let path = match checked_path(alloc, &nodes, parent, &part) {
        Ok(path) => path,
        Err(fault) => {
            drop(part);
            drop(children);
            drop(nodes);
            return Err(fault);
        }
    };
    let slot = slot_in(part, NodeId::new(nodes.len()), parent, nodes.slot(parent));
    place(nodes, pending, path, slot, children)
}

/// Places all constructs that wait.
fn enter_all(alloc: Global, mut nodes: Nodes, mut pending: List<Pending>) -> Result<Nodes, Fault>
    requires sound { IsSound (placed_nodes nodes) }
    requires below { AreBelow (length (placed_nodes nodes)) (waiting pending) }
    ensures { Completes result (all_placed (placed_nodes nodes) (waiting pending)) }
{
    while let Some(next) = pending.pop() {
        match enter(alloc, nodes, &mut pending, next) {
            Ok(more) => nodes = more,
            Err(fault) => return Err(fault),
        }
    }
    Ok(nodes)
}

fn enter_root(alloc: Global, pending: &mut List<Pending>, root: Node) -> Result<Nodes, Fault>
    ensures { EntersRoot result (node_view root) (waiting pending.old) (waiting pending.new) }
{
    let (part, children) = take_apart(root);
    place(
        Nodes::new(alloc),
        pending,
        String::new(alloc),
        root_slot(part),
        children,
    )
}

/// All constructs of an application, or the first thing that is wrong with their ids and places.
pub fn walk(alloc: Global, root: Node) -> Result<Nodes, Fault>
    ensures { Completes result (constructs_of (node_view root)) }
{
    let mut pending = List::new(alloc);
    match enter_root(alloc, &mut pending, root) {
        Ok(nodes) => enter_all(alloc, nodes, pending),
        Err(fault) => Err(fault),
    }
}
