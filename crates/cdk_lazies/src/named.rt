// The conditions that a condition names.
ghost use Rattle.std.specs.Prelude.{◌≡◌, ◌++◌, [], ◌∷◌, OnOk};
ghost use Rattle.cdk_language.specs.Condition.{view as condition_view, conditions_view};
ghost use Rattle.cdk_tokens.specs.TableView.{tokens_in};
ghost use Rattle.cdk_tree.specs.TreeView.{constructs};
ghost use Rattle.cdk_lazies.specs.MentionGraph.{conditions_by, names_in, names_in_all};

use crate::kinds::push_condition;
use cdk_base::List;
use cdk_language::Cond;
use cdk_tokens::Table;
use cdk_tree::Tree;
use std::alloc::AllocError;

fn push_name(
    tree: &Tree,
    table: &Table,
    path: &str,
    numbers: &mut Vec<usize>,
) -> Result<(), AllocError>
    ensures { OnOk result (numbers.new.items ≡ numbers.old.items ++ conditions_by (constructs tree.now) (tokens_in table.now) (path.now ∷ [])) }
{
    match tree.find(path) {
        Some(at) => push_condition(tree, table, at, numbers),
        None => Ok(()),
    }
}

/// Puts the numbers of the conditions that the condition names at the end, in written order. A path that no condition has
/// adds nothing.
#[cycle(names)]
pub fn push_names(
    tree: &Tree,
    table: &Table,
    c: &Cond,
    numbers: &mut Vec<usize>,
) -> Result<(), AllocError>
    ensures { OnOk result (numbers.new.items ≡ numbers.old.items ++ conditions_by (constructs tree.now) (tokens_in table.now) (names_in (condition_view c.now))) }
{
    match c {
        Cond::Equals(_, _) => Ok(()),
        Cond::And(parts) | Cond::Or(parts) => push_part_names(tree, table, parts, numbers),
        Cond::Not(part) => push_names(tree, table, part, numbers),
        Cond::Named(path) => push_name(tree, table, path.as_str(), numbers),
    }
}

#[cycle(names)]
fn push_part_names(
    tree: &Tree,
    table: &Table,
    parts: &List<Cond>,
    numbers: &mut Vec<usize>,
) -> Result<(), AllocError>
    ensures { OnOk result (numbers.new.items ≡ numbers.old.items ++ conditions_by (constructs tree.now) (tokens_in table.now) (names_in_all (conditions_view parts.now))) }
{
    for part in parts.as_slice() {
        push_names(tree, table, part, numbers)?;
    }
    Ok(())
}
