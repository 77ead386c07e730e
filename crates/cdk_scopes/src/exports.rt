// The exports that are there before a stack.
ghost use Rattle.std.specs.Prelude.{◌≡◌, ℕ, List, Some, OnOk, if◌then◌else◌, bytes_eq, option_map};
ghost use Rattle.std.specs.Option.{option_or};
ghost use Rattle.cdk_scopes.specs.Scopes.{exports_view, outside_of};

use crate::NameSet;
use cdk_eval::Values;
use std::alloc::{AllocError, Global};
use std::collections::BTreeMap;

/// The exports from outside, but for those whose names are literal export names of the assembly, and those that the
/// stacks so far have made.
#[derive(Drop)]
pub struct Exports<'a> {
    outside: &'a Values,
    literal: NameSet<'a>,
    made: BTreeMap<String, String>,
}

impl<'a> Exports<'a> {
    /// Those from outside, but for these literal export names.
    pub fn new(alloc: Global, outside: &'a Values, literal: NameSet<'a>) -> Exports<'a>
        ensures { (e : List ℕ) → exports_view result e ≡ outside_of outside.entry.now literal.entry e }
    {
        Exports {
            outside,
            literal,
            made: BTreeMap::new(alloc),
        }
    }

    fn outside(&self, name: &str) -> Option<&str>
        ensures { option_map (λ s. s.now) result ≡ outside_of self.now.outside.now self.now.literal name.now }
    {
        if self.literal.has(name) {
            return None;
        }
        self.outside.export(name)
    }

    /// The export of the name.
    pub fn get(&self, name: &str) -> Option<&str>
        ensures { option_map (λ s. s.now) result ≡ exports_view self.now name.now }
    {
        if let Some(text) = self.outside(name) {
            return Some(text);
        }
        match self.made.get(name) {
            Some(text) => Some(text.as_str()),
            None => None,
        }
    }

    /// Adds an export. A name that is there already keeps its value.
    pub fn add(&mut self, alloc: Global, name: &str, text: &str) -> Result<(), AllocError>
        ensures { OnOk result ((e : List ℕ) → exports_view self.new e ≡ option_or (exports_view self.old e) (if bytes_eq name.now e then Some text.now else None)) }
    {
        if self.get(name).is_some() {
            return Ok(());
        }
        let name = String::from_str(alloc, name)?;
        let text = String::from_str(alloc, text)?;
        drop(self.made.insert(name, text)?);
        Ok(())
    }
}
