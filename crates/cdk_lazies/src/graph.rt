// What lazies and conditions mention, as a graph of tokens and constructs.
ghost use Rattle.std.specs.Prelude.{◌≡◌, ◌<◌, ◌++◌, length, IfOk, OnOk};
ghost use Rattle.cdk_expansion.specs.Mentions.{keys_in, lazy_value};
ghost use Rattle.cdk_graphs.specs.Graph.{graph_view};
ghost use Rattle.cdk_tokens.specs.TableView.{marked_in, tokens_in};
ghost use Rattle.cdk_tokens.specs.Views.{form_view};
ghost use Rattle.cdk_tree.specs.Placed.{construct_at};
ghost use Rattle.cdk_tree.specs.TreeView.{constructs};
ghost use Rattle.cdk_lazies.specs.MentionGraph.{body_mentions, construct_rows as spec_construct_rows, form_mentions, mention_graph as spec_mention_graph, token_rows as spec_token_rows, tokens_by};

use crate::kinds::push_lazy;
use crate::markers::push_tokens;
use crate::named::push_names;
use cdk_language::Kind;
use cdk_tokens::{Form, Marked, Table};
use cdk_tree::{NodeId, Tree};
use std::alloc::{AllocError, Global};

/// Puts the numbers of what a token mentions at the end: of the tokens in its arguments, or of its lazy.
fn push_form(
    tree: &Tree,
    table: &Table,
    form: &Form,
    numbers: &mut Vec<usize>,
) -> Result<(), AllocError>
    ensures { OnOk result (numbers.new.items ≡ numbers.old.items ++ form_mentions (constructs tree.now) (tokens_in table.now) (form_view form.now)) }
{
    match form {
        Form::Join(_, x) | Form::Select(_, x) | Form::Split(_, x) => {
            push_tokens(table, x, numbers)
        }
        Form::If(_, x, y) | Form::FindInMap(_, x, y) => {
            push_tokens(table, x, numbers)?;
            push_tokens(table, y, numbers)
        }
        Form::Lazy(at) => push_lazy(tree, table, *at, numbers),
        Form::Pseudo(_) | Form::Ref(_) | Form::GetAtt(_, _) | Form::ImportValue(_) => Ok(()),
    }
}

/// Puts the numbers of the tokens in the marked value of a construct at the end.
fn push_value(
    table: &Table,
    marked: &Marked,
    at: NodeId,
    numbers: &mut Vec<usize>,
) -> Result<(), AllocError>
    ensures { OnOk result (numbers.new.items ≡ numbers.old.items ++ tokens_by (tokens_in table.now) (keys_in (lazy_value (marked_in marked.now) at))) }
{
    match marked.value(at) {
        Some(value) => push_tokens(table, value, numbers),
        None => Ok(()),
    }
}

/// Puts the numbers of what a construct mentions at the end.
fn push_mentions(
    tree: &Tree,
    table: &Table,
    marked: &Marked,
    at: NodeId,
    numbers: &mut Vec<usize>,
) -> Result<(), AllocError>
    requires { at < length (constructs tree.now) }
    ensures { OnOk result (numbers.new.items ≡ numbers.old.items ++ body_mentions (constructs tree.now) (tokens_in table.now) (marked_in marked.now) at (construct_at (constructs tree.now) at).body) }
{
    match &tree.node(at).kind {
        Kind::Lazy(_) => push_value(table, marked, at, numbers),
        Kind::Condition(c) => push_names(tree, table, c, numbers),
        Kind::App
        | Kind::Stage
        | Kind::Stack { .. }
        | Kind::Group
        | Kind::Resource(_)
        | Kind::Parameter(_)
        | Kind::Mapping(_)
        | Kind::Output(_) => Ok(()),
    }
}

fn token_row(
    alloc: Global,
    tree: &Tree,
    table: &Table,
    form: &Form,
) -> Result<Vec<usize>, AllocError>
    ensures { IfOk result (λ row. row.items ≡ form_mentions (constructs tree.now) (tokens_in table.now) (form_view form.now)) }
{
    let mut row = Vec::new(alloc);
    push_form(tree, table, form, &mut row)?;
    Ok(row)
}

fn construct_row(
    alloc: Global,
    tree: &Tree,
    table: &Table,
    marked: &Marked,
    at: NodeId,
) -> Result<Vec<usize>, AllocError>
    requires { at < length (constructs tree.now) }
    ensures { IfOk result (λ row. row.items ≡ body_mentions (constructs tree.now) (tokens_in table.now) (marked_in marked.now) at (construct_at (constructs tree.now) at).body) }
{
    let mut row = Vec::new(alloc);
    push_mentions(tree, table, marked, at, &mut row)?;
    Ok(row)
}

fn push_token_rows(
    alloc: Global,
    tree: &Tree,
    table: &Table,
    rows: &mut Vec<Vec<usize>>,
) -> Result<(), AllocError>
    ensures { OnOk result (graph_view rows.new.items ≡ graph_view rows.old.items ++ spec_token_rows (constructs tree.now) (tokens_in table.now) (tokens_in table.now)) }
{
    for number in 0..table.len() {
        let Some(token) = table.token(number) else {
            unreachable!()
        };
        let row = token_row(alloc, tree, table, &token.form)?;
        rows.push(row)?;
    }
    Ok(())
}

fn push_construct_rows(
    alloc: Global,
    tree: &Tree,
    table: &Table,
    marked: &Marked,
    rows: &mut Vec<Vec<usize>>,
) -> Result<(), AllocError>
    ensures { OnOk result (graph_view rows.new.items ≡ graph_view rows.old.items ++ spec_construct_rows (constructs tree.now) (tokens_in table.now) (marked_in marked.now) 0 (constructs tree.now)) }
{
    for number in 0..tree.len() {
        let Some(at) = tree.id(number) else {
            unreachable!()
        };
        let row = construct_row(alloc, tree, table, marked, at)?;
        rows.push(row)?;
    }
    Ok(())
}

/// What lazies and conditions mention: a row for each token, and then one for each construct, with the numbers of the rows
/// that it mentions. The error is want of memory.
pub fn mention_graph(
    alloc: Global,
    tree: &Tree,
    table: &Table,
    marked: &Marked,
) -> Result<Vec<Vec<usize>>, AllocError>
    ensures { IfOk result (λ rows. graph_view rows.items ≡ spec_mention_graph (constructs tree.now) (tokens_in table.now) (marked_in marked.now)) }
{
    let mut rows = Vec::new(alloc);
    push_token_rows(alloc, tree, table, &mut rows)?;
    push_construct_rows(alloc, tree, table, marked, &mut rows)?;
    Ok(rows)
}
