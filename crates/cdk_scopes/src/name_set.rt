ghost use Rattle.std.specs.Prelude.{◌≡◌, ◌||◌, ℕ, List, false, OnOk, bytes_eq};
ghost use Rattle.cdk_scopes.specs.Scopes.{has_name};

use std::alloc::{AllocError, Global};
use std::collections::BTreeMap;

/// Names, each once.
#[derive(Drop)]
pub struct NameSet<'a> {
    names: BTreeMap<&'a str, ()>,
}

impl<'a> NameSet<'a> {
    /// No name.
    pub fn new(alloc: Global) -> NameSet<'a>
        ensures { (n : List ℕ) → has_name result n ≡ false }
    {
        NameSet {
            names: BTreeMap::new(alloc),
        }
    }

    /// Whether the name is among them.
    pub fn has(&self, name: &str) -> bool
        ensures { result ≡ has_name self.now name.now }
    {
        self.names.contains_key(name)
    }

    /// Puts a name to them.
    pub fn put(&mut self, name: &'a str) -> Result<(), AllocError>
        ensures { OnOk result ((n : List ℕ) → has_name self.new n ≡ bytes_eq name.now n || has_name self.old n) }
    {
        self.names.insert(name, ())?;
        Ok(())
    }
}
