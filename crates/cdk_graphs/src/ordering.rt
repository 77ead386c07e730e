// The order of a graph's numbers: each behind those that it leads to, and else the least first.
ghost use Rattle.std.specs.Prelude.{IfOk};
ghost use Rattle.cdk_graphs.specs.Graph.{graph_view, IsClosed, IsOrder};

use crate::queue::Queue;
use crate::reverse::reversed;
use std::alloc::{AllocError, Global};

/// The numbers of a graph in an order: each once, behind those that it leads to, and always next the least that may come
/// next. Numbers that lead to a loop are left out. The row `n` of the graph has the numbers to which `n` leads, in any
/// order, and as often as it leads there. It takes as many steps as the graph has numbers and leads, each with a look-up
/// in a set of numbers. The error is want of memory.
pub fn order(alloc: Global, graph: &[Vec<usize>]) -> Result<Vec<usize>, AllocError>
    requires { IsClosed (graph_view graph.now) }
    ensures { IfOk result (λ numbers. IsOrder (graph_view graph.now) numbers.items) }
{
    let rows = reversed(alloc, graph)?;
    let mut queue = Queue::of_graph(alloc, graph)?;
    let mut numbers = Vec::new(alloc);
    // each turn takes one number, so there are no more turns than numbers
    'placing: for _turn in 0..graph.len() {
        let Some(number) = queue.next() else {
            return Ok(numbers);
        };
        numbers.push(number)?;
        queue.release(rows[number].as_slice())?;
    }
    Ok(numbers)
}
