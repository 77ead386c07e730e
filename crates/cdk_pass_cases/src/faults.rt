// Faults as the rows write them: the number, ` =` and the place. `0 =` stands for none.
use cdk_base::Fault;
use cdk_tree::{Found, NodeId, PassError, Tree};
use std::alloc::{AllocError, Global};

/// What the rows want where nothing is wrong.
pub const NO_FAULT: &str = "0 =";

fn numbered_place(alloc: Global, number: u8, place: &str) -> Result<String, AllocError> {
    format!(in alloc; "{number} ={place}")
}

/// A fault of an application, of which it lets go.
pub fn fault_text(alloc: Global, fault: Fault) -> Result<String, AllocError> {
    let told = match &fault {
        Fault::App { code, place } => numbered_place(alloc, code.number(), place.as_str()),
        Fault::Memory | Fault::Refused { .. } => Err(AllocError),
    };
    drop(fault);
    told
}

/// A construct's path.
pub fn path_text(tree: &Tree, construct: NodeId) -> &str {
    match tree.id(construct.number()) {
        Some(at) => tree.path_of(at),
        None => "no construct",
    }
}

/// What is found at a construct; its place is the construct's path.
pub fn found_text(alloc: Global, tree: &Tree, found: Found) -> Result<String, AllocError> {
    numbered_place(alloc, found.code.number(), path_text(tree, found.at))
}

/// Why a pass over a tree stopped.
pub fn error_text(alloc: Global, tree: &Tree, error: PassError) -> Result<String, AllocError> {
    match error {
        PassError::Fault(found) => found_text(alloc, tree, found),
        PassError::Memory => Err(AllocError),
    }
}
