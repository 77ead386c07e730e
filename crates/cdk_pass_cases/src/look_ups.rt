// Look-ups of a tree.
ghost use Rattle.std.specs.Prelude.{◌<◌, length};
ghost use Rattle.cdk_tree.specs.TreeView.{constructs};

use crate::faults::{NO_FAULT, fault_text, path_text};
use crate::passes::tree_of;
use crate::texts::compare;
use cdk_base::{Text, Value};
use cdk_language::Expr;
use cdk_tally::Tally;
use cdk_tree::{NodeId, Tree};
use std::alloc::{AllocError, Global};

// Two stages of a stack each, with contexts, a list parameter, and a lazy that is a list.
const STAGES: &[u8] =
    b"{\"app\":\"1\",\"context\":{\"k\":\"root\",\"only\":1},\"children\":[{\"kind\":\"stage\",\"id\":\"Dev\",\"context\":{\"k\":\"dev\"},\"children\":[{\"kind\":\"stack\",\"id\":\"S\",\"children\":[{\"kind\":\"parameter\",\"id\":\"Ps\",\"type\":\"CommaDelimitedList\"},{\"kind\":\"lazy\",\"id\":\"L\",\"value\":{\"Ref\":\"Dev/S/Ps\"}},{\"kind\":\"group\",\"id\":\"G\",\"children\":[{\"kind\":\"resource\",\"id\":\"R\",\"type\":\"T\"}]}]}]},{\"kind\":\"stage\",\"id\":\"Prod\",\"children\":[{\"kind\":\"stack\",\"id\":\"S\",\"children\":[{\"kind\":\"resource\",\"id\":\"R\",\"type\":\"T\"}]}]}]}";

// The path of a construct that a look-up finds.
fn path_found(tree: &Tree, construct: Option<NodeId>) -> &str {
    match construct {
        Some(construct) => path_text(tree, construct),
        None => "nothing",
    }
}

fn try_texts(tree: &Tree, at: NodeId, tally: &mut Tally) -> Result<(), AllocError>
    requires { at < length (constructs tree.now) }
{
    tally.compare("the id of a construct", "R", tree.node(at).id.as_str())?;
    let scope = path_found(tree, tree.parent(at));
    tally.compare("the path of its scope", "Dev/S/G", scope)?;
    let stack = path_found(tree, tree.stack_of(at));
    tally.compare("the path of its stack", "Dev/S", stack)?;
    let stage = path_text(tree, tree.stage_of(at));
    tally.compare("the path of its stage", "Dev", stage)?;
    let context = tree.context(at, "k").and_then(Value::as_str);
    tally.compare("the nearest context", "dev", context.unwrap_or("nothing"))
}

fn try_tests(tree: &Tree, at: NodeId, lazy: &Expr, tally: &mut Tally) -> Result<(), AllocError>
    requires { at < length (constructs tree.now) }
{
    let of_root = tree.context(at, "only").is_some() && tree.context(at, "none").is_none();
    let is_list = tree.is_list(at, lazy);
    let absent = tree.find("Dev/S/R").is_none() && tree.id(10).is_none() && tree.len() == 10;
    tally.note_each(&[
        ("contexts of the root", of_root),
        ("a lazy of a list", is_list),
        ("what isn't there", absent),
    ])
}

// Tries the look-ups of the resource, and whether the lazy that stands in it is a list.
fn try_tree(alloc: Global, tree: &Tree, tally: &mut Tally) -> Result<(), AllocError> {
    let Some(at) = tree.find("Dev/S/G/R") else {
        return tally.note(false, "a resource by its path", "nothing");
    };
    try_texts(tree, at, tally)?;
    let lazy = Expr::Lazy(Text::new(alloc, "Dev/S/L")?);
    let tried = try_tests(tree, at, &lazy, tally);
    drop(lazy);
    tried
}

/// Tries the look-ups of a resource.
pub fn try_look_ups(alloc: Global, tally: &mut Tally) -> Result<(), AllocError> {
    match tree_of(alloc, STAGES) {
        Ok(tree) => {
            let tried = try_tree(alloc, &tree, tally);
            drop(tree);
            tried
        }
        Err(fault) => compare(
            tally,
            "a tree of stages",
            NO_FAULT,
            fault_text(alloc, fault)?,
        ),
    }
}
