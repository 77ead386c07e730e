// The numbers of a graph that aren't in the order yet.
ghost use Rattle.std.specs.Prelude.{◌≡◌, ◌-◌, ◌≤◌, ◌<◌, ◌&&◌, ◌||◌, ℕ, [], length, map, IfOk, OnOk, nat_eq, nat_lt, if◌then◌else◌};
ghost use Rattle.std.specs.BTreeSet.{contains_by};
ghost use Rattle.std.specs.Ordering.{nat_cmp};
ghost use Rattle.cdk_graphs.specs.Graph.{graph_view, leads};
ghost use Rattle.cdk_graphs.specs.Queued.{occurrences, waits, is_queued, Pops, Releases, IsQueued};

use std::alloc::{AllocError, Global};
use std::collections::BTreeSet;

/// How many leads each number waits for, and the numbers that wait for none.
#[derive(Drop)]
pub struct Queue {
    counts: Vec<usize>,
    ready: BTreeSet<usize>,
}

fn counts_of(alloc: Global, graph: &[Vec<usize>]) -> Result<Vec<usize>, AllocError>
    ensures { IfOk result (λ counts. counts.items ≡ map (λ row. length row.items) graph.now) }
{
    graph.iter().map(|row| row.len()).collect(alloc)
}

fn put_if(ready: &mut BTreeSet<usize>, number: usize, is_ready: bool) -> Result<(), AllocError>
    ensures { OnOk result ((k : ℕ) → contains_by (nat_cmp k) ready.new ≡ contains_by (nat_cmp k) ready.old || (is_ready && nat_eq number k)) }
{
    if is_ready {
        ready.insert(number)?;
    }
    Ok(())
}

fn ready_of(alloc: Global, graph: &[Vec<usize>]) -> Result<BTreeSet<usize>, AllocError>
    ensures { IfOk result (λ ready. (k : ℕ) → contains_by (nat_cmp k) ready ≡ nat_lt k (length graph.now) && nat_eq (length (leads (graph_view graph.now) k)) 0) }
{
    let mut ready = BTreeSet::new(alloc);
    for (number, row) in graph.iter().enumerate() {
        put_if(&mut ready, number, row.len() == 0)?;
    }
    Ok(ready)
}

impl Queue {
    /// No number is in the order yet.
    pub fn of_graph(alloc: Global, graph: &[Vec<usize>]) -> Result<Queue, AllocError>
        ensures { IfOk result (λ queue. IsQueued (graph_view graph.now) [] queue) }
    {
        let counts = counts_of(alloc, graph)?;
        let ready = ready_of(alloc, graph)?;
        Ok(Queue { counts, ready })
    }

    /// The least number that waits for no lead.
    pub fn next(&mut self) -> Option<usize>
        ensures { Pops result self.old self.new }
    {
        self.ready.pop_first()
    }

    fn release_one(&mut self, number: usize) -> Result<(), AllocError>
        requires { 0 < waits self.old number }
        ensures counted { OnOk result ((k : ℕ) → waits self.new k ≡ (if nat_eq number k then waits self.old k - 1 else waits self.old k)) }
        ensures queued { OnOk result ((k : ℕ) → is_queued self.new k ≡ is_queued self.old k || (nat_eq number k && nat_eq (waits self.old k) 1)) }
    {
        let count = self.counts[number] - 1;
        self.counts[number] = count;
        put_if(&mut self.ready, number, count == 0)
    }

    /// These numbers wait for one lead less, each time that they occur.
    pub fn release(&mut self, numbers: &[usize]) -> Result<(), AllocError>
        requires { (k : ℕ) → occurrences k numbers.now ≤ waits self.old k }
        ensures { OnOk result (Releases numbers.now self.old self.new) }
    {
        for number in numbers {
            self.release_one(*number)?;
        }
        Ok(())
    }
}
