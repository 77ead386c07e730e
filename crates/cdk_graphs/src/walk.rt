// The open numbers of a search, in groups that lead to one another.
ghost use Rattle.std.specs.Prelude.{◌≡◌, ◌<◌, ◌≤◌, ◌++◌, ◌∷◌, [], length, drop, reverse, MatchOption, OnOk, IfOk};
ghost use Rattle.cdk_graphs.specs.Marks.{AreNew, AreWithin};
ghost use Rattle.cdk_graphs.specs.Walks.{joined_at, IsEntered, IsLeft, IsTaken, NoneWaits};

use crate::marks::{Mark, mark_each, new_marks};
use cdk_base::List;
use std::alloc::{AllocError, Global};

/// Open numbers that lead to one another, or one that isn't known to lead to itself.
#[derive(Clone, Copy)]
pub struct Group {
    /// Where its members begin among the open numbers. They go on to where those of the next group begin.
    pub first: usize,
    /// Where the numbers begin that wait in it.
    pub waiting: usize,
    pub is_loop: bool,
}

/// The groups that are open, each leading to the next, and how far the search has come with each number.
#[derive(Drop)]
pub struct Walk {
    pub groups: List<Group>,
    /// The open numbers, in the order in which they were entered.
    pub members: Vec<usize>,
    /// The numbers to which they lead, and at which the search hasn't looked yet.
    pub waiting: Vec<usize>,
    pub marks: List<Mark>,
}

/// Takes a number that waits in the last group, if one does.
pub fn next_waiting(waiting: &mut Vec<usize>, last: Group) -> Option<usize>
    ensures { MatchOption result (NoneWaits last.waiting waiting.old.items waiting.new.items) (λ number. IsTaken last.waiting waiting.old.items waiting.new.items number) }
{
    if waiting.len() <= last.waiting {
        return None;
    }
    waiting.pop()
}

/// Joins the last group to those before it, down to the one of the number that stands at the position among the open
/// ones. The last group leads to that number, so all of them reach themselves.
pub fn join(groups: &mut List<Group>, last: Group, position: usize) -> Result<(), AllocError>
    ensures { OnOk result (reverse groups.new ≡ joined_at position (last ∷ reverse groups.old)) }
{
    let mut group = last;
    'groups: while position < group.first {
        // The group of the number is among them, so this doesn't come.
        let Some(below) = groups.pop() else {
            return Ok(());
        };
        group = below;
    }
    group.is_loop = true;
    groups.push(group)?;
    Ok(())
}

impl Walk {
    /// No number is entered.
    pub fn new(alloc: Global, count: usize) -> Result<Walk, AllocError>
        ensures groups { IfOk result (λ walk. walk.groups ≡ []) }
        ensures members { IfOk result (λ walk. walk.members.items ≡ []) }
        ensures marks { IfOk result (λ walk. AreNew count walk.marks) }
    {
        Ok(Walk {
            groups: List::new(alloc),
            members: Vec::new(alloc),
            waiting: Vec::new(alloc),
            marks: new_marks(alloc, count)?,
        })
    }

    /// Enters a number that leads to those of a row, as a group behind the others.
    pub fn enter(&mut self, number: usize, row: &[usize]) -> Result<(), AllocError>
        requires { number < length self.old.marks }
        ensures { OnOk result (IsEntered number row.now self.old self.new) }
    {
        let first = self.members.len();
        let group = Group {
            first,
            waiting: self.waiting.len(),
            is_loop: false,
        };
        self.marks.set(number, Mark::Open(first));
        self.groups.push(group)?;
        self.members.push(number)?;
        self.waiting.extend_from_slice(row)?;
        Ok(())
    }

    /// Tells of the members of the last group whether they reach themselves.
    pub fn leave(&mut self, last: Group)
        requires first { last.first ≤ length self.old.members.items }
        requires within { AreWithin (drop last.first self.old.members.items) self.old.marks }
        ensures { IsLeft last self.old self.new }
    {
        let members = &self.members[last.first..];
        mark_each(&mut self.marks, members, Mark::Told(last.is_loop));
        self.members.truncate(last.first);
    }
}
