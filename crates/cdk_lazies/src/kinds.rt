// The numbers of lazies and conditions in the graph.
ghost use Rattle.std.specs.Prelude.{◌≡◌, ◌++◌, [], ◌∷◌, OnOk, Some};
ghost use Rattle.cdk_language.specs.Construct.{kind_view};
ghost use Rattle.cdk_tokens.specs.TableView.{tokens_in};
ghost use Rattle.cdk_tree.specs.Expected.{is_condition as spec_is_condition, is_lazy as spec_is_lazy};
ghost use Rattle.cdk_tree.specs.Placed.{construct_at};
ghost use Rattle.cdk_tree.specs.TreeView.{constructs};
ghost use Rattle.cdk_lazies.specs.MentionGraph.{condition_node, construct_node, lazy_node};

use cdk_language::Kind;
use cdk_tokens::Table;
use cdk_tree::{NodeId, Tree};
use std::alloc::AllocError;

/// Whether a construct of the kind is a lazy.
pub fn is_lazy(kind: &Kind) -> bool
    ensures { result ≡ spec_is_lazy (kind_view kind.now) }
{
    matches!(kind, Kind::Lazy(_))
}

/// Whether a construct of the kind is a condition.
pub fn is_condition(kind: &Kind) -> bool
    ensures { result ≡ spec_is_condition (kind_view kind.now) }
{
    matches!(kind, Kind::Condition(_))
}

/// Whether the construct is a lazy. One that the tree doesn't have is none.
pub fn is_lazy_at(tree: &Tree, at: NodeId) -> bool
    ensures { result ≡ spec_is_lazy (construct_at (constructs tree.now) at).body }
{
    at.number() < tree.len() && is_lazy(&tree.node(at).kind)
}

fn is_condition_at(tree: &Tree, at: NodeId) -> bool
    ensures { result ≡ spec_is_condition (construct_at (constructs tree.now) at).body }
{
    at.number() < tree.len() && is_condition(&tree.node(at).kind)
}

/// Puts the number of the construct in the graph, which comes behind those of the tokens, at the end.
fn push_construct(table: &Table, at: NodeId, numbers: &mut Vec<usize>) -> Result<(), AllocError>
    ensures { OnOk result (numbers.new.items ≡ numbers.old.items ++ construct_node (tokens_in table.now) at ∷ []) }
{
    // As many tokens and constructs as don't add up don't fit into memory.
    let Some(number) = table.len().checked_add(at.number()) else {
        return Err(AllocError);
    };
    numbers.push(number)?;
    Ok(())
}

/// Puts the number of the construct in the graph at the end, where it is a lazy.
pub fn push_lazy(
    tree: &Tree,
    table: &Table,
    at: NodeId,
    numbers: &mut Vec<usize>,
) -> Result<(), AllocError>
    ensures { OnOk result (numbers.new.items ≡ numbers.old.items ++ lazy_node (constructs tree.now) (tokens_in table.now) at) }
{
    if is_lazy_at(tree, at) {
        return push_construct(table, at, numbers);
    }
    Ok(())
}

/// Puts the number of the construct in the graph at the end, where it is a condition.
pub fn push_condition(
    tree: &Tree,
    table: &Table,
    at: NodeId,
    numbers: &mut Vec<usize>,
) -> Result<(), AllocError>
    ensures { OnOk result (numbers.new.items ≡ numbers.old.items ++ condition_node (constructs tree.now) (tokens_in table.now) (Some at)) }
{
    if is_condition_at(tree, at) {
        return push_construct(table, at, numbers);
    }
    Ok(())
}
