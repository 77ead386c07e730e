// The stacks of a manifest that can be placed: each after those that it depends on, else by artifact id.
ghost use Rattle.std.specs.Prelude.{◌≡◌, ◌++◌, ◌∷◌, [], ◌||◌, ℕ, List, false, map, length, slice_get, Some, IfOk, OnOk, bytes_eq, ◌<◌};
ghost use Rattle.cdk_eval.specs.Manifest.{AreApart, ids as ids_of, in_order};
ghost use Rattle.cdk_eval.specs.Reach.{is_among};
ghost use Rattle.cdk_artifacts.specs.Found.{stack_view, has_name};
ghost use Rattle.cdk_artifacts.specs.Queued.{IsQueued, AreDependents};
ghost use Rattle.cdk_artifacts.specs.Files.{file_view, file_of};

use crate::dependents::Dependents;
use crate::name_set::NameSet;
use crate::queue::Queue;
use crate::stacks::Stack;
use std::alloc::{AllocError, Global};

/// A stack's name and its template's file, borrowed from the manifest.
#[derive(Clone, Copy)]
pub struct StackFile<'m> {
    pub name: &'m str,
    pub file: &'m str,
}

/// The stacks that are placed.
#[derive(Drop)]
pub struct Placed<'m> {
    /// In evaluation order.
    pub files: Vec<StackFile<'m>>,
    /// Their artifact ids.
    pub ids: NameSet<'m>,
}

impl<'m> Placed<'m> {
    fn new(alloc: Global) -> Placed<'m>
        ensures files { result.files.items ≡ [] }
        ensures ids { (n : List ℕ) → has_name result.ids n ≡ false }
    {
        Placed {
            files: Vec::new(alloc),
            ids: NameSet::new(alloc),
        }
    }
}

fn place<'m>(placed: &mut Placed<'m>, stack: &Stack<'m>) -> Result<(), AllocError>
    ensures files { OnOk result (map file_view placed.new.files.items ≡ map file_view placed.old.files.items ++ file_of (stack_view stack.now) ∷ []) }
    ensures ids { OnOk result ((n : List ℕ) → has_name placed.new.ids n ≡ bytes_eq stack.now.id.now n || has_name placed.old.ids n) }
{
    placed.files.push(StackFile {
        name: stack.name,
        file: stack.file,
    })?;
    placed.ids.put(stack.id)
}

fn stack_at<'s, 'm>(stacks: &'s [Stack<'m>], number: usize) -> &'s Stack<'m>
    requires { number < length stacks.now }
    ensures { slice_get stacks.now number ≡ Some result.now }
{
    &stacks[number]
}

/// Places always next the stack of the least id whose dependencies are placed. It takes as many steps as the stacks have
/// dependencies, and for each a look-up.
fn place_all<'m>(
    stacks: &[Stack<'m>],
    dependents: &Dependents<'m>,
    queue: &mut Queue,
    placed: &mut Placed<'m>,
) -> Result<(), AllocError>
    requires apart { AreApart (map stack_view stacks.now) }
    requires dependents { AreDependents (map stack_view stacks.now) dependents.now }
    requires queue { IsQueued [] (map stack_view stacks.now) queue.old }
    requires no_files { placed.old.files.items ≡ [] }
    requires no_ids { (n : List ℕ) → has_name placed.old.ids n ≡ false }
    ensures files { OnOk result (map file_view placed.new.files.items ≡ map file_of (in_order (map stack_view stacks.now))) }
    ensures ids { OnOk result ((n : List ℕ) → has_name placed.new.ids n ≡ is_among n (ids_of (in_order (map stack_view stacks.now)))) }
{
    'placing: for _turn in 0..stacks.len() {
        let Some(number) = queue.next() else {
            return Ok(());
        };
        let stack = stack_at(stacks, number);
        place(placed, stack)?;
        queue.release(dependents.of(stack.id))?;
    }
    Ok(())
}

/// The stacks that can be placed, in evaluation order: always next that of the least artifact id whose dependencies stand
/// before it. The error is want of memory.
pub fn placed_of<'m>(alloc: Global, stacks: &[Stack<'m>]) -> Result<Placed<'m>, AllocError>
    requires { AreApart (map stack_view stacks.now) }
    ensures files { IfOk result (λ placed. map file_view placed.files.items ≡ map file_of (in_order (map stack_view stacks.now))) }
    ensures ids { IfOk result (λ placed. (n : List ℕ) → has_name placed.ids n ≡ is_among n (ids_of (in_order (map stack_view stacks.now)))) }
{
    let dependents = Dependents::of_stacks(alloc, stacks)?;
    let mut queue = Queue::of_stacks(alloc, stacks)?;
    let mut placed = Placed::new(alloc);
    place_all(stacks, &dependents, &mut queue, &mut placed)?;
    Ok(placed)
}
