// Faults of passes, at the paths of their constructs.
ghost use Rattle.std.specs.Prelude.{◌≡◌, Some};
ghost use Rattle.cdk_tree.specs.Placed.{construct_at};
ghost use Rattle.cdk_tree.specs.TreeView.{constructs};
ghost use Rattle.cdk_passes.specs.Faults.{IsFaultOf, IsPassFault, at_path, here};

use cdk_base::{Code, Fault, Text};
use cdk_tree::{Found, NodeId, PassError, Tree};
use std::alloc::Global;

fn fault(alloc: Global, code: Code, place: &str) -> Fault
    ensures { IsFaultOf (Some (record { code = code; place = place.now })) result }
{
    match Text::new(alloc, place) {
        Ok(place) => Fault::App { code, place },
        Err(_) => Fault::Memory,
    }
}

/// The fault at the place `""`, or want of memory.
pub fn fault_at_root(alloc: Global, code: Code) -> Fault
    ensures { IsFaultOf (Some (here code)) result }
{
    fault(alloc, code, "")
}

// The path of a construct; where there is none, it is empty.
fn path_of(tree: &Tree, at: NodeId) -> &str
    ensures { result.now ≡ (construct_at (constructs tree.now) at).path }
{
    match tree.id(at.number()) {
        Some(at) => tree.path_of(at),
        None => "",
    }
}

/// The fault that is found at a construct, or want of memory.
pub fn fault_at(alloc: Global, tree: &Tree, found: Found) -> Fault
    ensures { IsFaultOf (Some (at_path (constructs tree.now) found)) result }
{
    fault(alloc, found.code, path_of(tree, found.at))
}

/// The fault of a pass that ended so.
pub fn pass_fault(alloc: Global, tree: &Tree, error: PassError) -> Fault
    ensures { IsPassFault (constructs tree.now) error result }
{
    match error {
        PassError::Memory => Fault::Memory,
        PassError::Fault(found) => fault_at(alloc, tree, found),
    }
}
