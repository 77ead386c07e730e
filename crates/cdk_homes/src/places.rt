// Places in a list, by two numbers.
ghost use Rattle.std.specs.Prelude.{◌≡◌, ◌==◌, ◌&&◌, ℕ, None, Some, OnErr, OnOk, if◌then◌else◌};
ghost use Rattle.cdk_homes.specs.Places.{place_of};

use std::alloc::{AllocError, Global};
use std::collections::BTreeMap;

/// Places by the numbers of a consuming stack and of what it refers to.
#[derive(Drop)]
pub struct Places {
    places: BTreeMap<(usize, usize), usize>,
}

impl Places {
    /// No place.
    pub fn new(alloc: Global) -> Places
        ensures { (c a : ℕ) → place_of result c a ≡ None }
    {
        Places {
            places: BTreeMap::new(alloc),
        }
    }

    /// The place of the two numbers.
    pub fn get(&self, consumer: usize, at: usize) -> Option<usize>
        ensures { result ≡ place_of self.now consumer at }
    {
        self.places.get(&(consumer, at)).copied()
    }

    /// Sets the place of the two numbers.
    pub fn put(&mut self, consumer: usize, at: usize, place: usize) -> Result<(), AllocError>
        ensures ok { OnOk result ((c a : ℕ) → place_of self.new c a ≡ (if consumer == c && at == a then Some place else place_of self.old c a)) }
        ensures err { OnErr result ((c a : ℕ) → place_of self.new c a ≡ place_of self.old c a) }
    {
        self.places.insert((consumer, at), place)?;
        Ok(())
    }
}
