// Places in a list, by targets and the stacks that use them.
ghost use Rattle.std.specs.Prelude.{◌≡◌, ℕ, List, Option, None, Some, OnErr, OnOk, if◌then◌else◌};
ghost use Rattle.cdk_homes.specs.Homes.{is_pair};
ghost use Rattle.cdk_homes.specs.Places.{place_in};

use crate::places::Places;
use crate::target::Target;
use cdk_base::Text;
use cdk_tree::NodeId;
use std::alloc::{AllocError, Global};
use std::collections::BTreeMap;

/// Places by a consuming stack and a target: those of references, and those of each attribute by its text.
#[derive(Drop)]
pub struct Index {
    alloc: Global,
    references: Places,
    attributes: BTreeMap<String, Places>,
}

impl Index {
    /// No place.
    pub fn new(alloc: Global) -> Index
        ensures { (c a : ℕ) (t : Option (List ℕ)) → place_in result c a t ≡ None }
    {
        Index {
            alloc,
            references: Places::new(alloc),
            attributes: BTreeMap::new(alloc),
        }
    }

    /// The place of a target in a consuming stack.
    pub fn get(&self, target: &Target, consumer: NodeId) -> Option<usize>
        ensures { result ≡ place_in self.now consumer target.now.at target.now.attribute }
    {
        let (consumer, at) = (consumer.number(), target.at.number());
        match &target.attribute {
            None => self.references.get(consumer, at),
            Some(text) => match self.attributes.get(text.as_str()) {
                Some(places) => places.get(consumer, at),
                None => None,
            },
        }
    }

    fn put_attribute(
        &mut self,
        text: &Text,
        consumer: usize,
        at: usize,
        place: usize,
    ) -> Result<(), AllocError>
        ensures ok { OnOk result ((c a : ℕ) (t : Option (List ℕ)) → place_in self.new c a t ≡ (if is_pair consumer at (Some text.now) c a t then Some place else place_in self.old c a t)) }
        ensures err { OnErr result ((c a : ℕ) (t : Option (List ℕ)) → place_in self.new c a t ≡ place_in self.old c a t) }
    {
        if let Some(places) = self.attributes.get_mut(text.as_str()) {
            return places.put(consumer, at, place);
        }
        let mut places = Places::new(self.alloc);
        places.put(consumer, at, place)?;
        let text = String::from_str(self.alloc, text.as_str())?;
        drop(self.attributes.insert(text, places)?);
        Ok(())
    }

    /// Sets the place of a target in a consuming stack.
    pub fn put(&mut self, target: &Target, consumer: NodeId, place: usize) -> Result<(), AllocError>
        ensures ok { OnOk result ((c a : ℕ) (t : Option (List ℕ)) → place_in self.new c a t ≡ (if is_pair consumer target.now.at target.now.attribute c a t then Some place else place_in self.old c a t)) }
        ensures err { OnErr result ((c a : ℕ) (t : Option (List ℕ)) → place_in self.new c a t ≡ place_in self.old c a t) }
    {
        let (consumer, at) = (consumer.number(), target.at.number());
        match &target.attribute {
            None => self.references.put(consumer, at, place),
            Some(text) => self.put_attribute(text, consumer, at, place),
        }
    }
}
