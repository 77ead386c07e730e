// JSON objects that are filled beside one another.
ghost use Rattle.std.specs.Prelude.{◌≡◌, ℕ, ◌<◌, length, IfOk, OnOk};
ghost use Rattle.serde_json.specs.View.{members_view, view};
ghost use Rattle.cdk_tree.specs.Placed.{construct_at};
ghost use Rattle.cdk_tree.specs.TreeView.{constructs};
ghost use Rattle.cdk_objects.specs.Keys.{with_child};
ghost use Rattle.cdk_objects.specs.Maps.{count_of, members_at, AreEmpty, Keeps, Puts};

use cdk_base::{Map, Value};
use cdk_tree::{NodeId, Tree};
use std::alloc::{AllocError, Global};
use std::mem;

/// The members of an object for each construct, by its number.
#[derive(Drop)]
pub struct MapsByConstruct {
    each: Vec<Map>,
}

impl MapsByConstruct {
    /// Empty objects for so many constructs.
    pub fn new(alloc: Global, count: usize) -> Result<MapsByConstruct, AllocError>
        ensures { IfOk result (λ maps. AreEmpty maps count) }
    {
        let mut each = Vec::new(alloc);
        for _at in 0..count {
            each.push(Map::new(alloc))?;
        }
        Ok(MapsByConstruct { each })
    }

    /// Puts a member into the object of a construct.
    pub fn put(
        &mut self,
        alloc: Global,
        at: NodeId,
        key: &str,
        value: Value,
    ) -> Result<(), AllocError>
        requires { at < count_of self.old }
        ensures { OnOk result (Puts self.old self.new at key.now (view value)) }
    {
        serde_json::put(&mut self.each[at.number()], alloc, key, value)?;
        Ok(())
    }

    /// Puts what belongs to a construct into its scope's object, by its id. The root has no scope.
    pub fn put_child(
        &mut self,
        alloc: Global,
        tree: &Tree,
        at: NodeId,
        value: Value,
    ) -> Result<(), AllocError>
        requires within { at < length (constructs tree.now) }
        requires count { count_of self.old ≡ length (constructs tree.now) }
        ensures count { OnOk result (count_of self.new ≡ length (constructs tree.now)) }
        ensures members { OnOk result ((k : ℕ) → members_at self.new k ≡ with_child (construct_at (constructs tree.now) at) (view value) (members_at self.old) k) }
    {
        let Some(scope) = tree.parent(at) else {
            return Ok(());
        };
        self.put(alloc, scope, tree.node(at).id.as_str(), value)
    }

    /// Takes the object of a construct; it is empty from then on.
    pub fn take(&mut self, alloc: Global, at: NodeId) -> Map
        requires { at < count_of self.old }
        ensures members { members_view result.entries ≡ members_at self.old at }
        ensures rest { Keeps self.old self.new at }
    {
        mem::replace(&mut self.each[at.number()], Map::new(alloc))
    }
}
