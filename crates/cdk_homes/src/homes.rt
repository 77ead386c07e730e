// How targets are spelled in the stacks that use them.
ghost use Rattle.std.specs.Prelude.{◌≡◌, ℕ, List, Option, map};
ghost use Rattle.std.specs.List.{position_from};
ghost use Rattle.cdk_homes.specs.Homes.{is_of};
ghost use Rattle.cdk_homes.specs.Places.{place_in};
ghost use Rattle.cdk_homes.specs.Views.{entry_view};

use crate::entry::Entry;
use crate::index::Index;
use crate::target::{Home, Spelling, Target};
use cdk_base::Text;
use cdk_tree::NodeId;
use std::alloc::{AllocError, Global};

/// How targets are spelled in consuming stacks: of each target and consumer that were put, a name and its home. A
/// look-up takes two or three searches of ordered maps, whose cost grows with the logarithm of what is held.
#[derive(Drop)]
pub struct Homes {
    entries: Vec<Entry>,
    index: Index,
    ghost indexed: { (c a : ℕ) (t : Option (List ℕ)) → place_in index c a t ≡ position_from (is_of c a t) 0 (map entry_view entries.items) },
}

impl Homes {
    ghost use Rattle.std.specs.Prelude.{[], ◌∷◌, ◌++◌, None, option_map, slice_get, OnErr, OnOk};
    ghost use Rattle.cdk_homes.specs.Homes.{spelled};
    ghost use Rattle.cdk_homes.specs.Kept.{entries_in};
    ghost use Rattle.cdk_homes.specs.Views.{spelling_view};

    /// Nothing is spelled yet. It takes no memory.
    pub fn new(alloc: Global) -> Homes
        ensures { entries_in result ≡ [] }
    {
        Homes {
            entries: Vec::new(alloc),
            index: Index::new(alloc),
        }
    }

    /// Keeps how a target is spelled in a consuming stack, which was not put before (own).
    ///
    /// `AllocError` where no memory is found; then nothing has changed.
    pub fn put(
        &mut self,
        target: Target,
        consumer: NodeId,
        name: Text,
        how: Home,
    ) -> Result<(), AllocError>
        requires new { spelled (entries_in self.old) consumer target.at target.attribute ≡ None }
        ensures ok { OnOk result (entries_in self.new ≡ entries_in self.old ++ record { consumer = consumer; at = target.at; attribute = target.attribute; name = name; how = how } ∷ []) }
        ensures err { OnErr result (entries_in self.new ≡ entries_in self.old) }
    {
        // Room is found first: nothing can fail once the index has the place.
        self.entries.reserve(1)?;
        self.index.put(&target, consumer, self.entries.len())?;
        let entry = Entry {
            consumer,
            target,
            name,
            how,
        };
        let Ok(()) = self.entries.push(entry) else {
            unreachable!()
        };
        Ok(())
    }

    fn entry(&self, place: usize) -> Option<&Entry>
        ensures { option_map (λ e. entry_view e.now) result ≡ slice_get (entries_in self.now) place }
    {
        self.entries.get(place)
    }

    /// How a target is spelled in a consuming stack. None exactly where this pair was never put. It takes no memory.
    pub fn spell(&self, target: &Target, consumer: NodeId) -> Option<Spelling<'_>>
        ensures { option_map spelling_view result ≡ spelled (entries_in self.now) consumer target.now.at target.now.attribute }
    {
        let place = self.index.get(target, consumer)?;
        let entry = self.entry(place)?;
        Some(entry.spelling())
    }
}
