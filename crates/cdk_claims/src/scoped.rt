// Names that are taken, each in a scope.
ghost use Rattle.std.specs.Prelude.{◌≡◌, ◌||◌, ℕ, List, false, OnOk, option_map};
ghost use Rattle.cdk_claims.specs.Claims.{is_claim};
ghost use Rattle.cdk_claims.specs.Taken.{claim_view, is_claim_taken, is_taken};

use std::alloc::{AllocError, Global};
use std::collections::BTreeMap;

/// A name, and the number of the scope in which it is to be one construct's alone.
#[derive(Clone, Copy)]
pub struct Claim<'a> {
    pub scope: usize,
    pub name: &'a str,
}

/// The names that are taken, by the numbers of their scopes.
#[derive(Drop)]
pub struct ScopedNames<'a> {
    names: BTreeMap<(usize, &'a str), ()>,
}

impl<'a> ScopedNames<'a> {
    /// No name is taken.
    pub fn new(alloc: Global) -> ScopedNames<'a>
        ensures { (scope : ℕ) (name : List ℕ) → is_taken result scope name ≡ false }
    {
        ScopedNames {
            names: BTreeMap::new(alloc),
        }
    }

    /// Whether the name of a claim is taken in its scope. Where nothing is claimed, it isn't.
    pub fn has(&self, claim: Option<Claim<'a>>) -> bool
        ensures { result ≡ is_claim_taken self.now (option_map claim_view claim.entry) }
    {
        match claim {
            Some(claim) => self.names.contains_key(&(claim.scope, claim.name)),
            None => false,
        }
    }

    /// Takes the name of a claim in its scope.
    pub fn put(&mut self, claim: Option<Claim<'a>>) -> Result<(), AllocError>
        ensures { OnOk result ((scope : ℕ) (name : List ℕ) → is_taken self.new scope name ≡ (is_claim (option_map claim_view claim.entry) scope name || is_taken self.old scope name)) }
    {
        let Some(claim) = claim else {
            return Ok(());
        };
        self.names.insert((claim.scope, claim.name), ())?;
        Ok(())
    }
}
