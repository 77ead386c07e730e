// The stacks that depend on a stack.
ghost use Rattle.std.specs.Prelude.{◌≡◌, ◌+◌, ◌&&◌, ℕ, List, [], map, IfOk, OnOk, bytes_eq, nat_eq, if◌then◌else◌};
ghost use Rattle.cdk_artifacts.specs.Found.{texts_of, stack_view};
ghost use Rattle.cdk_artifacts.specs.Queued.{plus_if, times, occurrences, numbers_at, AreDependents};

use crate::stacks::Stack;
use std::alloc::{AllocError, Global};
use std::collections::BTreeMap;

/// The numbers of the stacks that depend on a stack, by its id; once for each time that they name it.
#[derive(Drop)]
pub struct Dependents<'m> {
    numbers: BTreeMap<&'m str, Vec<usize>>,
}

impl<'m> Dependents<'m> {
    fn new(alloc: Global) -> Dependents<'m>
        ensures { (n : List ℕ) → numbers_at result n ≡ [] }
    {
        Dependents {
            numbers: BTreeMap::new(alloc),
        }
    }

    fn take(&mut self, alloc: Global, name: &str) -> Vec<usize>
        ensures taken { result.items ≡ numbers_at self.old name.now }
        ensures left { (n : List ℕ) → numbers_at self.new n ≡ (if bytes_eq name.now n then [] else numbers_at self.old n) }
    {
        match self.numbers.remove(name) {
            Some(numbers) => numbers,
            None => Vec::new(alloc),
        }
    }

    fn put(&mut self, alloc: Global, name: &'m str, number: usize) -> Result<(), AllocError>
        ensures { OnOk result ((n : List ℕ) (k : ℕ) → occurrences k (numbers_at self.new n) ≡ plus_if (bytes_eq name.now n && nat_eq number k) (occurrences k (numbers_at self.old n))) }
    {
        let mut numbers = self.take(alloc, name);
        numbers.push(number)?;
        drop(self.numbers.insert(name, numbers)?);
        Ok(())
    }

    fn put_all(&mut self, alloc: Global, names: &[&'m str], number: usize) -> Result<(), AllocError>
        ensures { OnOk result ((n : List ℕ) (k : ℕ) → occurrences k (numbers_at self.new n) ≡ occurrences k (numbers_at self.old n) + (if nat_eq number k then times n (texts_of names.now) else 0)) }
    {
        for name in names {
            self.put(alloc, name, number)?;
        }
        Ok(())
    }

    /// Those of the stacks, by their numbers.
    pub fn of_stacks(alloc: Global, stacks: &[Stack<'m>]) -> Result<Dependents<'m>, AllocError>
        ensures { IfOk result (λ d. AreDependents (map stack_view stacks.now) d) }
    {
        let mut dependents = Dependents::new(alloc);
        for (number, stack) in stacks.iter().enumerate() {
            dependents.put_all(alloc, stack.dependencies.as_slice(), number)?;
        }
        Ok(dependents)
    }

    /// The numbers of the stacks that depend on the stack of the id.
    pub fn of(&self, id: &str) -> &[usize]
        ensures { result.now ≡ numbers_at self.now id.now }
    {
        match self.numbers.get(id) {
            Some(numbers) => numbers.as_slice(),
            None => &[],
        }
    }
}
