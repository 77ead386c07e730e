// The stacks that are not placed yet.
ghost use Rattle.std.specs.Prelude.{◌≡◌, ◌-◌, ◌≤◌, ◌<◌, ◌&&◌, ◌||◌, ℕ, [], false, length, map, IfOk, OnOk, nat_eq, if◌then◌else◌};
ghost use Rattle.std.specs.BTreeSet.{contains_by};
ghost use Rattle.std.specs.Ordering.{nat_cmp};
ghost use Rattle.cdk_artifacts.specs.Found.{stack_view};
ghost use Rattle.cdk_artifacts.specs.Queued.{occurrences, value_at, waits, is_queued, Pops, Releases, IsQueued};

use crate::stacks::Stack;
use std::alloc::{AllocError, Global};
use std::collections::BTreeSet;

/// How many dependencies each stack waits for, and the numbers of those that wait for none.
#[derive(Drop)]
pub struct Queue {
    counts: Vec<usize>,
    ready: BTreeSet<usize>,
}

fn counts_of(alloc: Global, stacks: &[Stack<'_>]) -> Result<Vec<usize>, AllocError>
    ensures { IfOk result (λ counts. counts.items ≡ map (λ s. length s.dependencies.items) stacks.now) }
{
    stacks.iter().map(|s| s.dependencies.len()).collect(alloc)
}

fn ready_of(alloc: Global, stacks: &[Stack<'_>]) -> Result<BTreeSet<usize>, AllocError>
    ensures { IfOk result (λ ready. (k : ℕ) → contains_by (nat_cmp k) ready ≡ value_at false (λ s. nat_eq (length s.dependencies) 0) (map stack_view stacks.now) k) }
{
    let mut ready = BTreeSet::new(alloc);
    for (number, stack) in stacks.iter().enumerate() {
        put_if(&mut ready, number, stack.dependencies.len() == 0)?;
    }
    Ok(ready)
}

fn put_if(ready: &mut BTreeSet<usize>, number: usize, is_ready: bool) -> Result<(), AllocError>
    ensures { OnOk result ((k : ℕ) → contains_by (nat_cmp k) ready.new ≡ contains_by (nat_cmp k) ready.old || (is_ready && nat_eq number k)) }
{
    if is_ready {
        ready.insert(number)?;
    }
    Ok(())
}

impl Queue {
    /// No stack is placed yet.
    pub fn of_stacks(alloc: Global, stacks: &[Stack<'_>]) -> Result<Queue, AllocError>
        ensures { IfOk result (λ q. IsQueued [] (map stack_view stacks.now) q) }
    {
        let counts = counts_of(alloc, stacks)?;
        let ready = ready_of(alloc, stacks)?;
        Ok(Queue { counts, ready })
    }

    /// The least number of a stack that waits for no dependency.
    pub fn next(&mut self) -> Option<usize>
        ensures { Pops result self.old self.new }
    {
        self.ready.pop_first()
    }

    fn release_one(&mut self, number: usize) -> Result<(), AllocError>
        requires { 0 < waits self.old number }
        ensures counted { OnOk result ((k : ℕ) → waits self.new k ≡ (if nat_eq number k then waits self.old k - 1 else waits self.old k)) }
        ensures queued { OnOk result ((k : ℕ) → is_queued self.new k ≡ is_queued self.old k || (nat_eq number k && nat_eq (waits self.old k) 1)) }
    {
        let count = self.counts[number] - 1;
        self.counts[number] = count;
        put_if(&mut self.ready, number, count == 0)
    }

    /// The stacks of these numbers wait for one dependency less, each time that they occur.
    pub fn release(&mut self, numbers: &[usize]) -> Result<(), AllocError>
        requires { (k : ℕ) → occurrences k numbers.now ≤ waits self.old k }
        ensures { OnOk result (Releases numbers.now self.old self.new) }
    {
        for number in numbers {
            self.release_one(*number)?;
        }
        Ok(())
    }
}
