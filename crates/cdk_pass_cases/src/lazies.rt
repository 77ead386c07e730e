// The order of lazies, and lazies and conditions that reach themselves.
use crate::faults::{error_text, path_text};
use cdk_base::List;
use cdk_lazies::lazy_order;
use cdk_tally::push_between;
use cdk_tokens::{Marked, Table};
use cdk_tree::{NodeId, Tree};
use std::alloc::{AllocError, Global};

// The lazies' paths, each in round brackets.
fn order_text(alloc: Global, tree: &Tree, order: &List<NodeId>) -> Result<String, AllocError> {
    let mut told = String::new(alloc);
    for lazy in order.as_slice() {
        push_between(&mut told, '(', path_text(tree, *lazy), ')')?;
    }
    Ok(told)
}

/// The paths of the lazies in their order, or the first lazy or condition that reaches itself.
pub fn told(
    alloc: Global,
    tree: &Tree,
    marked: &Marked,
    table: &Table,
) -> Result<String, AllocError> {
    match lazy_order(alloc, tree, table, marked) {
        Ok(order) => order_text(alloc, tree, &order),
        Err(error) => error_text(alloc, tree, error),
    }
}
