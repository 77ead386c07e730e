// Marked applications: the key and owner of each token, and the marked value of each construct.
use crate::faults::path_text;
use crate::texts::{push_pair, push_value};
use cdk_tokens::{Marked, Table};
use cdk_tree::{NodeId, Tree};
use std::alloc::{AllocError, Global};

// Each token's key and its owner's path, in round brackets.
fn push_tokens(told: &mut String, tree: &Tree, table: &Table) -> Result<(), AllocError> {
    for n in 0..table.len() {
        if let Some(token) = table.token(n) {
            push_pair(told, token.key.as_str(), path_text(tree, token.owner))?;
        }
    }
    Ok(())
}

// The operands of a condition, each in round brackets.
fn push_operands(
    alloc: Global,
    told: &mut String,
    marked: &Marked,
    at: NodeId,
) -> Result<(), AllocError> {
    // No condition of the cases has more.
    for n in 0..10 {
        if let Some(value) = marked.operand(at, n) {
            told.push('(')?;
            push_value(alloc, told, value)?;
            told.push(')')?;
        }
    }
    Ok(())
}

// The marked value of each construct, or its operands.
fn push_constructs(
    alloc: Global,
    told: &mut String,
    tree: &Tree,
    marked: &Marked,
) -> Result<(), AllocError> {
    for n in 0..tree.len() {
        if let Some(at) = tree.id(n) {
            match marked.value(at) {
                Some(value) => push_value(alloc, told, value)?,
                None => push_operands(alloc, told, marked, at)?,
            }
        }
    }
    Ok(())
}

/// The tokens, then the marked values of constructs in walk order.
pub fn told(
    alloc: Global,
    tree: &Tree,
    marked: &Marked,
    table: &Table,
) -> Result<String, AllocError> {
    let mut told = String::new(alloc);
    push_tokens(&mut told, tree, table)?;
    push_constructs(alloc, &mut told, tree, marked)?;
    Ok(told)
}
