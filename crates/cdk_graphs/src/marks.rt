// How far a search has come with each number of a graph.
ghost use Rattle.std.specs.Prelude.{◌≡◌, IfOk, map};
ghost use Rattle.cdk_graphs.specs.Marks.{mark_at, says_loop, AreNew, AreWithin, Changes};

use cdk_base::List;
use std::alloc::{AllocError, Global};

/// How far a search has come with a number.
#[derive(Clone, Copy)]
pub enum Mark {
    /// It wasn't met.
    New,
    /// What it leads to isn't all told yet. It stands at that place among the open numbers.
    Open(usize),
    /// Whether it reaches itself.
    Told(bool),
}

/// No number is met.
pub fn new_marks(alloc: Global, count: usize) -> Result<List<Mark>, AllocError>
    ensures { IfOk result (λ marks. AreNew count marks) }
{
    Ok(List::from_vec(vec![in alloc; Mark::New; count]?))
}

/// The mark of a number. One that isn't in the list is new.
pub fn mark_of(marks: &List<Mark>, number: usize) -> Mark
    ensures { result ≡ mark_at marks.now number }
{
    match marks.get(number) {
        Some(mark) => *mark,
        None => Mark::New,
    }
}

/// Gives the mark to each of the numbers.
pub fn mark_each(marks: &mut List<Mark>, numbers: &[usize], mark: Mark)
    requires { AreWithin numbers.now marks.old }
    ensures { Changes numbers.now mark marks.old marks.new }
{
    for number in numbers {
        marks.set(*number, mark);
    }
}

fn is_loop(mark: Mark) -> bool
    ensures { result ≡ says_loop mark }
{
    match mark {
        Mark::Told(is_loop) => is_loop,
        _ => false,
    }
}

/// Of each number whether it is told to reach itself.
pub fn told(alloc: Global, marks: &List<Mark>) -> Result<Vec<bool>, AllocError>
    ensures { IfOk result (λ answers. answers.items ≡ map (λ m. says_loop m) marks.now) }
{
    marks
        .as_slice()
        .iter()
        .map(|mark| is_loop(*mark))
        .collect(alloc)
}
