// Values and conditions as the template of their stack holds them.
ghost use Rattle.std.specs.Prelude.{◌<◌, length};
ghost use Rattle.cdk_expansion.specs.Clean.{TreeIsClean};
ghost use Rattle.cdk_leaves.specs.Ready.{IsReady};
ghost use Rattle.cdk_pass_cases.specs.Marked.{AreMarked};
ghost use Rattle.cdk_tokens.specs.TableView.{marked_in, tokens_in};
ghost use Rattle.cdk_tree.specs.TreeView.{constructs};

use crate::checking::{marks_of, order_of};
use crate::faults::{NO_FAULT, error_text, path_text};
use crate::spellings::Consumer;
use crate::texts::push_pair;
use cdk_base::{List, Value};
use cdk_homes::Homes;
use cdk_language::Kind;
use cdk_resolve::{Kept, resolve, resolve_condition};
use cdk_stacks::{Names, names};
use cdk_tokens::{Marked, Table};
use cdk_tree::{NodeId, Tree};
use std::alloc::{AllocError, Global};

/// What is told of an application in which the checks up to that of sizes find nothing. What they find is told in its place.
#[derive(Clone, Copy)]
pub enum Rendering {
    /// Only that they find nothing.
    Check,
    /// The template JSON of the value, or of the condition, at a path.
    Json,
    /// Once the value at a path is rendered, the path of each lazy of which a result is kept, and the result, in the order
    /// of lazies.
    Results,
}

/// An application in which no check found a fault.
#[derive(Clone, Copy)]
struct Checked<'a> {
    tree: &'a Tree,
    table: &'a Table,
    marked: &'a Marked,
    order: &'a List<NodeId>,
}

// What is told of a construct that has no value.
fn nothing(alloc: Global) -> Result<String, AllocError> {
    String::from_str(alloc, "no value")
}

// The text of a rendered value, of which it lets go.
fn json_text(alloc: Global, rendered: Result<Value, AllocError>) -> Result<String, AllocError> {
    match rendered {
        Ok(json) => {
            let text = json.to_string(alloc);
            drop(json);
            text
        }
        Err(error) => Err(error),
    }
}

fn rendered_text(
    alloc: Global,
    checked: &Checked<'_>,
    homes: &Homes,
    stack: NodeId,
    at: NodeId,
) -> Result<String, AllocError>
    requires ready { IsReady (tokens_in checked.now.table.now) (marked_in checked.now.marked.now) checked.now.order.now }
    requires within { at < length (constructs checked.now.tree.now) }
{
    let Checked {
        tree,
        table,
        marked,
        order,
    } = *checked;
    if let Kind::Condition(_) = &tree.node(at).kind {
        let json = resolve_condition(alloc, tree, table, marked, homes, order, at);
        return json_text(alloc, json);
    }
    let Some(value) = marked.value(at) else {
        return nothing(alloc);
    };
    let json = resolve(alloc, table, marked, homes, stack, order, value);
    json_text(alloc, json)
}

// The path of a lazy and what is kept of it, in round brackets, where anything is.
fn push_result(
    alloc: Global,
    told: &mut String,
    tree: &Tree,
    kept: &Kept<'_>,
    lazy: NodeId,
) -> Result<(), AllocError> {
    let Some(result) = kept.result(lazy) else {
        return Ok(());
    };
    let text = result.to_string(alloc)?;
    let pushed = push_pair(told, path_text(tree, lazy), text.as_str());
    drop(text);
    pushed
}

fn results_text(
    alloc: Global,
    checked: &Checked<'_>,
    kept: &Kept<'_>,
) -> Result<String, AllocError> {
    let mut told = String::new(alloc);
    for lazy in checked.order.as_slice() {
        push_result(alloc, &mut told, checked.tree, kept, *lazy)?;
    }
    Ok(told)
}

fn kept_text(
    alloc: Global,
    checked: &Checked<'_>,
    homes: &Homes,
    stack: NodeId,
    value: &Value,
) -> Result<String, AllocError>
    requires { IsReady (tokens_in checked.now.table.now) (marked_in checked.now.marked.now) checked.now.order.now }
{
    let Checked {
        table,
        marked,
        order,
        ..
    } = *checked;
    let mut kept = Kept::new(alloc, table, marked, homes, stack, order);
    match kept.resolve(value) {
        Ok(json) => {
            drop(json);
            results_text(alloc, checked, &kept)
        }
        Err(error) => Err(error),
    }
}

impl Rendering {
    fn told_with(
        self,
        alloc: Global,
        checked: &Checked<'_>,
        homes: &Homes,
        stack: NodeId,
        at: NodeId,
    ) -> Result<String, AllocError>
        requires ready { IsReady (tokens_in checked.now.table.now) (marked_in checked.now.marked.now) checked.now.order.now }
        requires within { at < length (constructs checked.now.tree.now) }
    {
        let Rendering::Results = self else {
            return rendered_text(alloc, checked, homes, stack, at);
        };
        match checked.marked.value(at) {
            Some(value) => kept_text(alloc, checked, homes, stack, value),
            None => nothing(alloc),
        }
    }

    fn told_by_names(
        self,
        alloc: Global,
        checked: &Checked<'_>,
        names: &Names,
        at: NodeId,
    ) -> Result<String, AllocError>
        requires ready { IsReady (tokens_in checked.now.table.now) (marked_in checked.now.marked.now) checked.now.order.now }
        requires within { at < length (constructs checked.now.tree.now) }
    {
        let tree = checked.tree;
        // The root stands in no stack.
        let stack = tree.stack_of(at).unwrap_or(NodeId::ROOT);
        let consumer = Consumer { tree, names, stack };
        let mut homes = Homes::new(alloc);
        let told = match consumer.put_all(alloc, &mut homes, checked.table) {
            Ok(()) => self.told_with(alloc, checked, &homes, stack, at),
            Err(error) => Err(error),
        };
        drop(homes);
        told
    }

    fn told_of_path(
        self,
        alloc: Global,
        checked: &Checked<'_>,
        path: &str,
    ) -> Result<String, AllocError>
        requires { IsReady (tokens_in checked.now.table.now) (marked_in checked.now.marked.now) checked.now.order.now }
    {
        if let Rendering::Check = self {
            return String::from_str(alloc, NO_FAULT);
        }
        let Some(at) = checked.tree.find(path) else {
            return nothing(alloc);
        };
        match names(alloc, checked.tree) {
            Ok(names) => self.told_by_names(alloc, checked, &names, at),
            Err(error) => error_text(alloc, checked.tree, error),
        }
    }

    fn told_of_marks(
        self,
        alloc: Global,
        tree: &Tree,
        table: &Table,
        marked: &Marked,
        path: &str,
    ) -> Result<String, AllocError>
        requires { AreMarked (constructs tree.now) (tokens_in table.now) (marked_in marked.now) }
    {
        let order = match order_of(alloc, tree, table, marked) {
            Ok(order) => order,
            Err(error) => return error_text(alloc, tree, error),
        };
        let checked = Checked {
            tree,
            table,
            marked,
            order: &order,
        };
        self.told_of_path(alloc, &checked, path)
    }

    /// What is told of an application, and of the construct at the path, or the first fault that a check finds.
    pub fn told(self, alloc: Global, tree: &Tree, path: &str) -> Result<String, AllocError>
        requires { TreeIsClean (constructs tree.now) }
    {
        match marks_of(alloc, tree) {
            Ok((marked, table)) => self.told_of_marks(alloc, tree, &table, &marked, path),
            Err(error) => error_text(alloc, tree, error),
        }
    }
}
