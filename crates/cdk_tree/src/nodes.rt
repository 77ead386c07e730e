// The constructs by number and by path.
ghost use Rattle.std.specs.Prelude.{◌≡◌, ℕ, ◌<◌, List, [], ◌∷◌, ◌++◌, length, map, true, IfOk, IfSome, None, OnOk, string_bytes};
ghost use Rattle.std.specs.String.{string_eq};
ghost use Rattle.indexmap.specs.IndexMap.{insert_entry};
ghost use Rattle.cdk_tree.specs.Slots.{constructs_in, fit_parents, fits_parent, is_scoped, numbered_paths, placed_of, AreScoped};

use crate::node_id::NodeId;
use crate::slot::Slot;
use cdk_base::{List, Value};
use cdk_scoping::path_number;
use indexmap::IndexMap;
use std::alloc::{AllocError, Global};

/// The constructs in walk order, with an index of their paths.
#[derive(Drop)]
pub struct Nodes {
    slots: List<Slot>,
    paths: IndexMap<String, NodeId>,
    ghost rooted: { fit_parents 0 slots ≡ true },
    ghost scoped: { AreScoped (constructs_in slots) },
    ghost indexed: { map (λ e. (string_bytes e.0, e.1)) paths.entries ≡ numbered_paths 0 (constructs_in slots) },
}

/// Adds a construct and its path. After a failure the two may not fit.
fn add(
    slots: &mut List<Slot>,
    paths: &mut IndexMap<String, NodeId>,
    path: String,
    slot: Slot,
) -> Result<(), AllocError>
    ensures slots { OnOk result (slots.new ≡ slots.old ++ slot ∷ []) }
    ensures paths { OnOk result (paths.new.entries ≡ insert_entry string_eq paths.old.entries path (length slots.old)) }
{
    let at = NodeId::new(slots.len());
    slots.push(slot)?;
    paths.insert(path, at)?;
    Ok(())
}

impl Nodes {
    ghost use Rattle.std.specs.Prelude.{◌+◌, option_map, Some};
    ghost use Rattle.std.specs.Option.{option_copied};
    ghost use Rattle.serde_json.specs.View.{view as json_view};
    ghost use Rattle.cdk_tree.specs.Placed.{construct_at, find_path, look_up};
    ghost use Rattle.cdk_tree.specs.NodesView.{placed_nodes};

    /// No construct.
    pub fn new(alloc: Global) -> Nodes
        ensures { placed_nodes result ≡ [] }
    {
        Nodes {
            slots: List::new(alloc),
            paths: IndexMap::new(alloc),
        }
    }

    /// The constructs with one more, of a path that none of them has.
    pub fn push(self, path: String, slot: Slot) -> Result<Nodes, AllocError>
        requires new { find_path (placed_nodes self) (string_bytes path) ≡ None }
        requires path { string_bytes path ≡ (placed_of (placed_nodes self) slot).path }
        requires parent { fits_parent (length (placed_nodes self)) slot.parent ≡ true }
        requires scopes { is_scoped (placed_nodes self ++ placed_of (placed_nodes self) slot ∷ []) (length (placed_nodes self)) (placed_of (placed_nodes self) slot) ≡ true }
        ensures { IfOk result (λ t. placed_nodes t ≡ placed_nodes self ++ placed_of (placed_nodes self) slot ∷ []) }
    {
        let Nodes {
            mut slots,
            mut paths,
        } = self;
        match add(&mut slots, &mut paths, path, slot) {
            Ok(()) => Ok(Nodes { slots, paths }),
            Err(error) => {
                drop(slots);
                drop(paths);
                Err(error)
            }
        }
    }

    /// How many constructs there are.
    pub fn len(&self) -> usize
        ensures { result ≡ length (placed_nodes self.now) }
    {
        self.slots.len()
    }

    /// The construct of the path.
    pub fn find(&self, path: &str) -> Option<NodeId>
        ensures value { result ≡ find_path (placed_nodes self.now) path.now }
        ensures within { IfSome result (λ n. n < length (placed_nodes self.now)) }
    {
        match path_number(&self.paths, path) {
            Some(number) => Some(NodeId::new(number)),
            None => None,
        }
    }

    /// The paths in walk order, each with its construct.
    pub fn paths(&self) -> &IndexMap<String, NodeId>
        ensures { map (λ e. (string_bytes e.0, e.1)) result.now.entries ≡ numbered_paths 0 (placed_nodes self.now) }
    {
        &self.paths
    }

    /// A construct and where it stands.
    pub fn slot(&self, at: NodeId) -> &Slot
        requires { at < length (placed_nodes self.now) }
        ensures placed { placed_of (placed_nodes self.now) result.now ≡ construct_at (placed_nodes self.now) at }
        ensures below { fits_parent at result.now.parent ≡ true }
        ensures scopes { is_scoped (placed_nodes self.now) at (construct_at (placed_nodes self.now) at) ≡ true }
    {
        let Some(slot) = self.slots.get(at.number()) else {
            unreachable!()
        };
        slot
    }

    /// The path of a construct.
    pub fn path_of(&self, at: NodeId) -> &str
        requires { at < length (placed_nodes self.now) }
        ensures { result.now ≡ (construct_at (placed_nodes self.now) at).path }
    {
        let Some((path, _at)) = self.paths.get_index(at.number()) else {
            unreachable!()
        };
        path.as_str()
    }

    /// The value of the key in the nearest scope that has it, the construct itself being the first.
    pub fn context(&self, at: NodeId, key: &str) -> Option<&Value>
        requires { at < length (placed_nodes self.now) }
        ensures { option_map json_view (option_copied result) ≡ look_up key.now (construct_at (placed_nodes self.now) at).contexts }
    {
        let mut next = Some(at);
        while let Some(scope) = next {
            let slot = self.slot(scope);
            if let Some(value) = slot.part.context.get(key) {
                return Some(value);
            }
            next = slot.parent;
        }
        None
    }
}
