// The numbers of a graph that reach themselves, by a search that keeps its own path.
ghost use Rattle.std.specs.Prelude.{◌≡◌, ◌<◌, length, OnOk, IfOk};
ghost use Rattle.cdk_graphs.specs.Graph.{graph_view, leads, AreLoops, IsClosed};
ghost use Rattle.cdk_graphs.specs.Walks.{Finds, IsResting, IsStep, IsWalkWith};

use crate::marks::{Mark, mark_of, told};
use crate::walk::{Group, Walk, join, next_waiting};
use std::alloc::{AllocError, Global};

/// The numbers to which a number leads.
fn row_of(graph: &[Vec<usize>], number: usize) -> &[usize]
    ensures { result.now ≡ leads (graph_view graph.now) number }
{
    match graph.get(number) {
        Some(row) => row.as_slice(),
        None => &[],
    }
}

/// Looks at a number that waits in the last group; where none does, tells of the group's members.
fn step(graph: &[Vec<usize>], walk: &mut Walk, last: Group) -> Result<(), AllocError>
    requires closed { IsClosed (graph_view graph.now) }
    requires walk { IsWalkWith (graph_view graph.now) walk.old last }
    ensures { OnOk result (IsStep (graph_view graph.now) walk.old walk.new) }
{
    let Some(number) = next_waiting(&mut walk.waiting, last) else {
        walk.leave(last);
        return Ok(());
    };
    let mark = mark_of(&walk.marks, number);
    if let Mark::Open(position) = mark {
        join(&mut walk.groups, last, position)?;
        return Ok(());
    }
    walk.groups.push(last)?;
    if let Mark::New = mark {
        walk.enter(number, row_of(graph, number))?;
        return Ok(());
    }
    Ok(())
}

/// Tells of a number whether it reaches itself, and of all that it reaches.
fn find(graph: &[Vec<usize>], walk: &mut Walk, number: usize) -> Result<(), AllocError>
    requires closed { IsClosed (graph_view graph.now) }
    requires walk { IsResting (graph_view graph.now) walk.old }
    requires within { number < length graph.now }
    ensures { OnOk result (Finds (graph_view graph.now) number walk.old walk.new) }
{
    let Mark::New = mark_of(&walk.marks, number) else {
        return Ok(());
    };
    walk.enter(number, row_of(graph, number))?;
    'walk: while let Some(last) = walk.groups.pop() {
        step(graph, walk, last)?;
    }
    Ok(())
}

/// Of each number of a graph whether it reaches itself, by one step or more. The row `n` of the graph has the numbers to
/// which `n` leads, in any order, and as often as it leads there. It takes as many steps as the graph has numbers and
/// leads. The error is want of memory.
pub fn loops(alloc: Global, graph: &[Vec<usize>]) -> Result<Vec<bool>, AllocError>
    requires { IsClosed (graph_view graph.now) }
    ensures { IfOk result (λ told. AreLoops (graph_view graph.now) told.items) }
{
    let mut walk = Walk::new(alloc, graph.len())?;
    for number in 0..graph.len() {
        find(graph, &mut walk, number)?;
    }
    told(alloc, &walk.marks)
}
