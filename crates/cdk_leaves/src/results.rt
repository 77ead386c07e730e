// What is kept of lazies.
ghost use Rattle.std.specs.Prelude.{◌≡◌, ℕ, Some, None};
ghost use Rattle.cdk_leaves.specs.Slots.{IsOwn, slot_of};
ghost use Rattle.cdk_leaves.specs.declared.results.Slot.TheVariants.{Same};

use cdk_base::Value;
use cdk_tree::NodeId;
use std::alloc::{AllocError, Global};
use std::collections::BTreeMap;

/// What is kept of one lazy.
#[derive(Drop)]
pub enum Slot {
    /// Its template JSON.
    Own(Value),
    /// It has that of another lazy, which is kept as that one's own.
    Same(NodeId),
}

/// The template JSON of lazies, for one stack.
#[derive(Drop)]
pub struct Results {
    slots: BTreeMap<usize, Slot>,
    ghost settled: { (n m : ℕ) → slot_of slots n ≡ Some (Same m) → IsOwn (slot_of slots m) },
}

impl Results {
    ghost use Rattle.std.specs.Prelude.{◌==◌, option_map, if◌then◌else◌, OnErr, OnOk};
    ghost use Rattle.serde_json.specs.View.{view};
    ghost use Rattle.cdk_leaves.specs.Kept.{results_in};
    ghost use Rattle.cdk_leaves.specs.Lazies.{IsKept};
    ghost use Rattle.cdk_leaves.specs.Slots.{own_in, root_of};

    /// Nothing is kept yet. It takes no memory.
    pub fn new(alloc: Global) -> Results
        ensures { (n : ℕ) → results_in result n ≡ None }
    {
        Results {
            slots: BTreeMap::new(alloc),
        }
    }

    fn own(&self, lazy: NodeId) -> Option<&Value>
        ensures { option_map (λ v. view v.now) result ≡ own_in self.now.slots lazy }
    {
        match self.slots.get(&lazy.number())? {
            Slot::Own(json) => Some(json),
            Slot::Same(_) => None,
        }
    }

    /// What is kept of a lazy.
    pub fn get(&self, lazy: NodeId) -> Option<&Value>
        ensures { option_map (λ v. view v.now) result ≡ results_in self.now lazy }
    {
        match self.slots.get(&lazy.number())? {
            Slot::Own(value) => Some(value),
            Slot::Same(other) => self.own(*other),
        }
    }

    /// Keeps the JSON of a lazy of which nothing was kept. Where no memory is found nothing has changed.
    pub fn put(&mut self, lazy: NodeId, value: Value) -> Result<(), AllocError>
        requires { results_in self.old lazy ≡ None }
        ensures ok { OnOk result ((n : ℕ) → results_in self.new n ≡ (if n == lazy then Some (view value) else results_in self.old n)) }
        ensures err { OnErr result ((n : ℕ) → results_in self.new n ≡ results_in self.old n) }
    {
        drop(self.slots.insert(lazy.number(), Slot::Own(value))?);
        Ok(())
    }

    // The lazy whose own JSON a lazy has that is kept.
    fn root(&self, lazy: NodeId) -> NodeId
        ensures { result ≡ root_of self.now.slots lazy }
    {
        match self.slots.get(&lazy.number()) {
            Some(Slot::Same(other)) => *other,
            Some(Slot::Own(_)) | None => lazy,
        }
    }

    /// Keeps of a lazy that it has the JSON of another one, which is kept.
    pub fn put_same(&mut self, lazy: NodeId, other: NodeId) -> Result<(), AllocError>
        requires new { results_in self.old lazy ≡ None }
        requires kept { IsKept (results_in self.old) other }
        ensures ok { OnOk result ((n : ℕ) → results_in self.new n ≡ (if n == lazy then results_in self.old other else results_in self.old n)) }
        ensures err { OnErr result ((n : ℕ) → results_in self.new n ≡ results_in self.old n) }
    {
        let root = self.root(other);
        drop(self.slots.insert(lazy.number(), Slot::Same(root))?);
        Ok(())
    }
}
