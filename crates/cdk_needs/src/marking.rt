// Which needs are met, found in time that is linear in the needs.
ghost use Rattle.std.specs.Prelude.{◌≡◌, ◌<◌, ◌≤◌, ℕ, [], length, slice_index_or, OnOk, IfOk, None};

use cdk_base::List;
use std::alloc::{AllocError, Global};
use std::mem;

/// What is known while needs are looked at.
#[derive(Drop)]
pub struct Marking {
    /// How many of each one's needs are known to be met, from the front.
    passed: Vec<usize>,
    /// Which are known to be met.
    met: Vec<bool>,
    /// Those that wait for each one.
    waiting: Vec<List<usize>>,
    /// Those that are met, but whose waiting ones aren't looked at again yet.
    ready: Vec<usize>,
}

ghost use Rattle.cdk_needs.specs.Needs.{met_after, AreWithin, IsFirstUnmet};

/// The first place from `from` on whose number isn't met, or the length.
fn first_unmet(numbers: &[usize], met: &[bool], from: usize) -> usize
    requires { (k : ℕ) → k < length numbers.now → slice_index_or numbers.now k 0 < length met.now }
    ensures { IsFirstUnmet numbers.now met.now from result }
{
    for at in from..numbers.len() {
        if !met[numbers[at]] {
            return at;
        }
    }
    numbers.len()
}

/// So many empty lists.
fn empty_lists(alloc: Global, count: usize) -> Result<Vec<List<usize>>, AllocError>
    ensures { IfOk result (λ ls. length ls.items ≡ count) }
{
    let mut lists = Vec::new(alloc);
    for _at in 0..count {
        lists.push(List::new(alloc))?;
    }
    Ok(lists)
}

impl Marking {
    ghost use Rattle.cdk_needs.specs.Needs.{steps_left, AreWithin, IsCounted, IsMarking, IsNew, Settles};

    /// Looks at one's needs again: it is met, or waits for the first of them that isn't.
    fn settle(&mut self, needs: &[Option<List<usize>>], user: usize) -> Result<(), AllocError>
        requires within { AreWithin needs.now }
        requires counted { IsCounted needs.now self.old }
        ensures { OnOk result (Settles (slice_index_or needs.now user None) self.old self.new user) }
    {
        let Some(Some(numbers)) = needs.get(user) else {
            return Ok(());
        };
        if self.met[user] {
            return Ok(());
        }
        let at = first_unmet(numbers.as_slice(), self.met.as_slice(), self.passed[user]);
        self.passed[user] = at;
        let Some(number) = numbers.get(at) else {
            self.met[user] = true;
            self.ready.push(user)?;
            return Ok(());
        };
        self.waiting[*number].push(user)
    }

    fn new(alloc: Global, count: usize) -> Result<Marking, AllocError>
        ensures { IfOk result (λ m. IsNew count m) }
    {
        Ok(Marking {
            passed: vec![in alloc; 0; count]?,
            met: vec![in alloc; false; count]?,
            waiting: empty_lists(alloc, count)?,
            ready: Vec::new(alloc),
        })
    }

    /// Looks again at those that waited.
    fn settle_all(
        &mut self,
        needs: &[Option<List<usize>>],
        users: &[usize],
    ) -> Result<(), AllocError>
        requires within { AreWithin needs.now }
        requires marking { IsMarking needs.now (length needs.now) users.now self.old }
        ensures marking { OnOk result (IsMarking needs.now (length needs.now) [] self.new) }
        ensures steps { OnOk result (steps_left needs.now self.new ≤ steps_left needs.now self.old) }
    {
        for user in users {
            self.settle(needs, *user)?;
        }
        Ok(())
    }

    /// Looks again at those that waited for one that is met, until none is left.
    fn spread(&mut self, alloc: Global, needs: &[Option<List<usize>>]) -> Result<(), AllocError>
        requires within { AreWithin needs.now }
        requires marking { IsMarking needs.now (length needs.now) [] self.old }
        ensures marking { OnOk result (IsMarking needs.now (length needs.now) [] self.new) }
        ensures done { OnOk result (self.new.ready.items ≡ []) }
    {
        while let Some(found) = self.ready.pop() {
            let users = mem::replace(&mut self.waiting[found], List::new(alloc));
            self.settle_all(needs, users.as_slice())?;
        }
        Ok(())
    }

    /// Looks at all needs once, and then again at those that waited for one that is met.
    fn settle_needs(
        &mut self,
        alloc: Global,
        needs: &[Option<List<usize>>],
    ) -> Result<(), AllocError>
        requires within { AreWithin needs.now }
        requires marking { IsMarking needs.now 0 [] self.old }
        ensures marking { OnOk result (IsMarking needs.now (length needs.now) [] self.new) }
        ensures done { OnOk result (self.new.ready.items ≡ []) }
    {
        for user in 0..needs.len() {
            self.settle(needs, user)?;
        }
        self.spread(alloc, needs)
    }
}

/// Which needs are met.
pub fn met_needs(alloc: Global, needs: &[Option<List<usize>>]) -> Result<Vec<bool>, AllocError>
    requires { AreWithin needs.now }
    ensures { IfOk result (λ ms. ms.items ≡ met_after (length needs.now) needs.now) }
{
    let mut marking = Marking::new(alloc, needs.len())?;
    marking.settle_needs(alloc, needs)?;
    Ok(marking.met)
}
