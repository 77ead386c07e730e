// The open conditions of a walk from conditions to those that they name, in groups that lead to one another.
ghost use Rattle.std.specs.Prelude.{◌≡◌, ℕ, List, [], Some, None, OnOk, IfOk, if◌then◌else◌, bytes_eq};
ghost use Rattle.serde_json.specs.Data.{Data, Members};
ghost use Rattle.serde_json.specs.View.{view};
ghost use Rattle.cdk_scopes.specs.declared.truths.Truths.{Truths};
ghost use Rattle.cdk_conditions.specs.Kept.{texts_of};
ghost use Rattle.cdk_conditions.specs.Walks.{position_at, positions_of, groups_of, Joins, AreJoined, IsNew, IsEntered, IsJoining, AreGrouped};

use crate::names::names_in;
use cdk_base::{List, Value};
use std::alloc::{AllocError, Global};
use std::collections::BTreeMap;

/// How many conditions were entered before each.
#[derive(Drop)]
pub struct Positions<'a> {
    at: BTreeMap<&'a str, usize>,
}

/// Open conditions that lead to one another, or one that isn't known to lead to itself.
#[derive(Drop)]
pub struct Group<'a> {
    /// Where the first of them was entered.
    pub first: usize,
    pub members: List<&'a str>,
    /// The names in them at which the walk hasn't looked yet.
    pub waiting: List<&'a str>,
    pub is_loop: bool,
}

/// The groups that are open, each leading to the next, and where each condition was entered.
#[derive(Drop)]
pub struct Walk<'a> {
    pub groups: List<Group<'a>>,
    pub positions: Positions<'a>,
    pub entered: usize,
}

impl<'a> Positions<'a> {
    /// None is entered.
    pub fn new(alloc: Global) -> Positions<'a>
        ensures { (n : List ℕ) → position_at result.at n ≡ None }
    {
        Positions {
            at: BTreeMap::new(alloc),
        }
    }

    /// Where the condition was entered.
    pub fn get(&self, name: &str) -> Option<usize>
        ensures { result ≡ position_at self.now.at name.now }
    {
        self.at.get(name).copied()
    }

    fn put(&mut self, name: &'a str, position: usize) -> Result<(), AllocError>
        ensures { OnOk result ((n : List ℕ) → position_at self.new.at n ≡ (if bytes_eq name.now n then Some position else position_at self.old.at n)) }
    {
        self.at.insert(name, position)?;
        Ok(())
    }
}

/// All names of two lists. The shorter one is moved, so that each name moves only as often as its list doubles.
fn all_of<'a>(
    mut first: List<&'a str>,
    mut second: List<&'a str>,
) -> Result<List<&'a str>, AllocError>
    ensures { IfOk result (λ all. Joins (texts_of first.entry) (texts_of second.entry) (texts_of all)) }
{
    if first.len() < second.len() {
        second.append(first)?;
        return Ok(second);
    }
    first.append(second)?;
    Ok(first)
}

fn joined<'a>(below: Group<'a>, above: Group<'a>) -> Result<Group<'a>, AllocError>
    ensures { IfOk result (AreJoined below.entry above.entry) }
{
    let Group {
        first,
        members,
        waiting,
        is_loop,
    } = below;
    let members = all_of(members, above.members)?;
    let waiting = all_of(waiting, above.waiting)?;
    Ok(Group {
        first,
        members,
        waiting,
        is_loop,
    })
}

fn new_group<'a>(
    alloc: Global,
    first: usize,
    name: &'a str,
    condition: &'a Value,
) -> Result<Group<'a>, AllocError>
    ensures { IfOk result (IsNew first name.now (view condition.now)) }
{
    let mut members = List::new(alloc);
    members.push(name)?;
    let waiting = List::from_vec(names_in(alloc, condition)?);
    Ok(Group {
        first,
        members,
        waiting,
        is_loop: false,
    })
}

impl<'a> Walk<'a> {
    /// No condition is entered.
    pub fn new(alloc: Global) -> Walk<'a>
        ensures groups { result.groups ≡ [] }
        ensures positions { (n : List ℕ) → positions_of result n ≡ None }
        ensures entered { result.entered ≡ 0 }
    {
        Walk {
            groups: List::new(alloc),
            positions: Positions::new(alloc),
            entered: 0,
        }
    }

    /// Enters a condition, as a group behind the others.
    pub fn enter(
        &mut self,
        alloc: Global,
        name: &'a str,
        condition: &'a Value,
    ) -> Result<(), AllocError>
        ensures { OnOk result (IsEntered name.now (view condition.now) self.old self.new) }
    {
        let first = self.entered;
        // More than fit into memory.
        let Some(entered) = first.checked_add(1) else {
            return Err(AllocError);
        };
        let group = new_group(alloc, first, name, condition)?;
        self.positions.put(name, first)?;
        self.groups.push(group)?;
        self.entered = entered;
        Ok(())
    }

    /// Joins the last group to those before it, down to the one of the condition that was entered at the position. It
    /// names that condition, so all of them reach themselves.
    pub fn join(&mut self, last: Group<'a>, position: usize) -> Result<(), AllocError>
        ensures { OnOk result ((cs : Members) (ts : Truths) (y : List ℕ) → IsJoining cs ts (positions_of self.old) y position last.entry (groups_of self.old) → AreGrouped cs ts last.entry self.old self.new) }
    {
        let mut group = last;
        'groups: while position < group.first {
            let Some(below) = self.groups.pop() else {
                return Ok(());
            };
            group = joined(below, group)?;
        }
        group.is_loop = true;
        self.groups.push(group)?;
        Ok(())
    }
}
