// The passes over a tree, each up to its first fault, and then its files.
ghost use Rattle.std.specs.Prelude.{IfOk};
ghost use Rattle.cdk_language.specs.Construct.{app_view};
ghost use Rattle.cdk_lazies.specs.LazyOrder.{IsLazyOrder};
ghost use Rattle.cdk_stacks.specs.Made.{AreNamesOf};
ghost use Rattle.cdk_tokens.specs.TableView.{marked_in, tokens_in};
ghost use Rattle.cdk_tree.specs.TreeView.{constructs};
ghost use Rattle.cdk_tree_meaning.specs.Checked.{AreChecked};
ghost use Rattle.cdk_synthesis.specs.Assembly.{AllUtf8};
ghost use Rattle.cdk_synthesis.specs.Checks.{AreMarksOf, Answers, Builds, IsBuilt, IsMarked, IsOrdered};
ghost use Rattle.cdk_synthesis.specs.Passes.{marked_passes, template_passes, tree_passes, value_passes};

use crate::files::{File, files_of};
use crate::stacks::first_stack;
use cdk_base::{Code, Fault, List};
use cdk_carried::is_carried;
use cdk_language::App;
use cdk_lazies::lazy_order;
use cdk_local_homes::local_homes;
use cdk_passes::{check_values_and_sizes, fault_at, fault_at_root, pass_fault};
use cdk_premises::{condition_renderings_are_own, renderings_are_own, values_fit};
use cdk_stacks::{Names, names};
use cdk_targets::check_targets;
use cdk_template::{Sources, check_counts};
use cdk_tokens::{Marked, Table, mark};
use cdk_tree::{NodeId, Tree, build};
use std::alloc::Global;

/// The tree of an application, or the first fault of what isn't carried yet and of ids and places.
pub(crate) fn tree_of(alloc: Global, app: App) -> Result<Tree, Fault>
    ensures { Builds (app_view app) result }
{
    if !is_carried(&app) {
        return Err(fault_at_root(alloc, Code::Shape));
    }
    build(alloc, app)
}

// The files of a tree with names, or the first fault of how much its templates hold and of markers in them.
fn files_of_named(
    alloc: Global,
    tree: &Tree,
    marks: (&Marked, &Table),
    order: &List<NodeId>,
    names: &Names,
) -> Result<List<File>, Fault>
    requires checked { AreChecked (constructs tree.now) }
    requires marks { AreMarksOf (constructs tree.now) (marked_in marks.0.now) (tokens_in marks.1.now) }
    requires order { IsLazyOrder (constructs tree.now) (tokens_in marks.1.now) (marked_in marks.0.now) order.now }
    requires names { AreNamesOf names.now (constructs tree.now) }
    ensures answer { Answers (constructs tree.now) (template_passes (constructs tree.now)) result }
    ensures utf8 { IfOk result AllUtf8 }
{
    if let Err(found) = check_counts(tree) {
        return Err(fault_at(alloc, tree, found));
    }
    let (marked, table) = marks;
    let stack = first_stack(tree);
    let Ok(homes) = local_homes(alloc, tree, names, table, stack) else {
        return Err(Fault::Memory);
    };
    let sources = Sources {
        alloc,
        tree,
        names,
        table,
        marked,
        homes: &homes,
        order,
    };
    values_fit();
    renderings_are_own();
    condition_renderings_are_own();
    match files_of(&sources, stack) {
        Ok(files) => Ok(files),
        Err(error) => Err(pass_fault(alloc, tree, error)),
    }
}

// The files of a tree whose lazies are in order, or the first fault of values, sizes, names and templates.
fn files_in_order(
    alloc: Global,
    tree: &Tree,
    marked: &Marked,
    table: &Table,
    order: &List<NodeId>,
) -> Result<List<File>, Fault>
    requires ordered { IsOrdered (constructs tree.now) }
    requires marks { AreMarksOf (constructs tree.now) (marked_in marked.now) (tokens_in table.now) }
    requires order { IsLazyOrder (constructs tree.now) (tokens_in table.now) (marked_in marked.now) order.now }
    ensures answer { Answers (constructs tree.now) (value_passes (constructs tree.now)) result }
    ensures utf8 { IfOk result AllUtf8 }
{
    if let Err(fault) = check_values_and_sizes(alloc, tree, table, marked, order) {
        return Err(fault);
    }
    match names(alloc, tree) {
        Ok(names) => files_of_named(alloc, tree, (marked, table), order, &names),
        Err(error) => Err(pass_fault(alloc, tree, error)),
    }
}

// The files of a marked tree, or the first fault from its lazies on.
fn files_of_marked(
    alloc: Global,
    tree: &Tree,
    marked: &Marked,
    table: &Table,
) -> Result<List<File>, Fault>
    requires marked { IsMarked (constructs tree.now) }
    requires marks { AreMarksOf (constructs tree.now) (marked_in marked.now) (tokens_in table.now) }
    ensures answer { Answers (constructs tree.now) (marked_passes (constructs tree.now)) result }
    ensures utf8 { IfOk result AllUtf8 }
{
    match lazy_order(alloc, tree, table, marked) {
        Ok(order) => files_in_order(alloc, tree, marked, table, &order),
        Err(error) => Err(pass_fault(alloc, tree, error)),
    }
}

/// The files of the assembly of a tree, or the first fault of all passes over it.
pub(crate) fn files_of_tree(alloc: Global, tree: &Tree) -> Result<List<File>, Fault>
    requires built { IsBuilt (constructs tree.now) }
    ensures answer { Answers (constructs tree.now) (tree_passes (constructs tree.now)) result }
    ensures utf8 { IfOk result AllUtf8 }
{
    if let Err(found) = check_targets(tree) {
        return Err(fault_at(alloc, tree, found));
    }
    let (marked, table) = match mark(alloc, tree) {
        Ok(all) => all,
        Err(error) => return Err(pass_fault(alloc, tree, error)),
    };
    // A table has fewer tokens than 64 bits count.
    let _count = table.len();
    files_of_marked(alloc, tree, &marked, &table)
}
