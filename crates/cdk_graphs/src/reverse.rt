// A graph with each lead turned round.
ghost use Rattle.std.specs.Prelude.{◌≡◌, ◌+◌, ◌<◌, ◌&&◌, ℕ, [], length, IfOk, OnOk, All, nat_eq, if◌then◌else◌};
ghost use Rattle.cdk_graphs.specs.Graph.{graph_view, leads, IsClosed};
ghost use Rattle.cdk_graphs.specs.Queued.{plus_if, occurrences, IsReversed};

use std::alloc::{AllocError, Global};

fn empty_rows(alloc: Global, count: usize) -> Result<Vec<Vec<usize>>, AllocError>
    ensures size { IfOk result (λ rows. length rows.items ≡ count) }
    ensures empty { IfOk result (λ rows. (n : ℕ) → leads (graph_view rows.items) n ≡ []) }
{
    let mut rows = Vec::new(alloc);
    for _row in 0..count {
        rows.push(Vec::new(alloc))?;
    }
    Ok(rows)
}

fn put(rows: &mut [Vec<usize>], target: usize, number: usize) -> Result<(), AllocError>
    requires { target < length rows.old }
    ensures { OnOk result ((n k : ℕ) → occurrences k (leads (graph_view rows.new) n) ≡ plus_if (nat_eq target n && nat_eq number k) (occurrences k (leads (graph_view rows.old) n))) }
{
    rows[target].push(number)?;
    Ok(())
}

fn put_all(rows: &mut [Vec<usize>], targets: &[usize], number: usize) -> Result<(), AllocError>
    requires { All (λ target. target < length rows.old) targets.now }
    ensures { OnOk result ((n k : ℕ) → occurrences k (leads (graph_view rows.new) n) ≡ occurrences k (leads (graph_view rows.old) n) + (if nat_eq number k then occurrences n targets.now else 0)) }
{
    for target in targets {
        put(rows, *target, number)?;
    }
    Ok(())
}

/// For each number of a graph the numbers that lead to it, each as often as it does. It takes as many steps as the graph
/// has numbers and leads. The error is want of memory.
pub fn reversed(alloc: Global, graph: &[Vec<usize>]) -> Result<Vec<Vec<usize>>, AllocError>
    requires { IsClosed (graph_view graph.now) }
    ensures { IfOk result (λ rows. IsReversed (graph_view graph.now) (graph_view rows.items)) }
{
    let mut rows = empty_rows(alloc, graph.len())?;
    for (number, row) in graph.iter().enumerate() {
        put_all(rows.as_mut_slice(), row.as_slice(), number)?;
    }
    Ok(rows)
}
