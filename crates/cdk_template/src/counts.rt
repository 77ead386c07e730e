// How much the template of each stack holds.
ghost use Rattle.std.specs.Prelude.{◌≡◌, ◌&&◌, ◌<◌, length};
ghost use Rattle.cdk_tree.specs.Placed.{construct_at, is_stack as spec_is_stack};
ghost use Rattle.cdk_tree.specs.TreeView.{constructs, FindsFirst};
ghost use Rattle.cdk_template.specs.Counts.{count_findings, is_too_large as spec_is_too_large};
ghost use Rattle.cdk_template.specs.Room.{room_in};
ghost use Rattle.cdk_elements.specs.Kinds.{is_in as spec_is_in};

use crate::room::Room;
use cdk_base::Code;
use cdk_scoping::is_stack;
use cdk_tree::{Found, NodeId, Tree};

/// Whether a construct stands in the stack.
pub(crate) fn is_in(tree: &Tree, at: NodeId, stack: NodeId) -> bool
    requires { at < length (constructs tree.now) }
    ensures { result ≡ spec_is_in stack (construct_at (constructs tree.now) at).stack }
{
    match tree.stack_of(at) {
        Some(other) => other.number() == stack.number(),
        None => false,
    }
}

fn room_beside(tree: &Tree, at: NodeId, stack: NodeId, room: Room) -> Option<Room>
    requires { at < length (constructs tree.now) }
    ensures { result ≡ room_in (constructs tree.now) stack room at }
{
    if !is_in(tree, at, stack) {
        return Some(room);
    }
    room.beside(&tree.node(at).kind)
}

fn is_too_large(tree: &Tree, stack: NodeId) -> bool
    ensures { result ≡ spec_is_too_large (constructs tree.now) stack }
{
    let mut room = Room::of_template();
    for number in 0..tree.len() {
        let Some(at) = tree.id(number) else {
            unreachable!()
        };
        match room_beside(tree, at, stack, room) {
            Some(left) => room = left,
            None => return true,
        }
    }
    false
}

fn is_wrong(tree: &Tree, at: NodeId) -> bool
    requires { at < length (constructs tree.now) }
    ensures { result ≡ (spec_is_stack (construct_at (constructs tree.now) at).body && spec_is_too_large (constructs tree.now) at) }
{
    is_stack(&tree.node(at).kind) && is_too_large(tree, at)
}

/// The first stack in walk order whose template would hold too much: `TooMany` where it has over 500 resources, or over
/// 200 parameters, mappings or outputs (CloudFormation's quotas). Each stack takes one pass over the tree.
pub fn check_counts(tree: &Tree) -> Result<(), Found>
    ensures { FindsFirst result (count_findings (constructs tree.now)) }
{
    for number in 0..tree.len() {
        let Some(at) = tree.id(number) else {
            unreachable!()
        };
        if is_wrong(tree, at) {
            return Err(Found {
                code: Code::TooMany,
                at,
            });
        }
    }
    Ok(())
}
