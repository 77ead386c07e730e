// The truths of a stack's conditions, each evaluated once and kept.
ghost use Rattle.std.specs.Prelude.{◌≡◌, ℕ, List, Some, OnOk, if◌then◌else◌, bytes_eq, option_copied, None, true};
ghost use Rattle.cdk_eval.specs.declared.fault.EvalFault.TheVariants.{ConditionLoop};
ghost use Rattle.cdk_eval.specs.Outcomes.{Untold};
ghost use Rattle.cdk_eval.specs.Views.{truth_view};
ghost use Rattle.cdk_scopes.specs.Scopes.{kept_at, truth_in};

use cdk_eval::{EvalFault, Truth};
use std::alloc::{AllocError, Global};
use std::collections::BTreeMap;

/// What is known of a condition: its truth, and whether it reaches itself.
#[derive(Clone, Copy)]
pub struct Kept {
    pub truth: Truth,
    pub is_loop: bool,
}

impl Kept {
    /// Of a condition that reaches itself.
    pub fn looping() -> Kept
        ensures truth { truth_view result.truth ≡ Untold ConditionLoop }
        ensures is_loop { result.is_loop ≡ true }
    {
        Kept {
            truth: Truth::Untold(EvalFault::ConditionLoop),
            is_loop: true,
        }
    }
}

/// The conditions that are evaluated, by their names.
#[derive(Drop)]
pub struct Truths<'a> {
    kept: BTreeMap<&'a str, Kept>,
}

impl<'a> Truths<'a> {
    /// No condition is evaluated yet.
    pub fn new(alloc: Global) -> Truths<'a>
        ensures { (c : List ℕ) → kept_at result.kept c ≡ None }
    {
        Truths {
            kept: BTreeMap::new(alloc),
        }
    }

    /// What is kept of the condition.
    pub fn get(&self, name: &str) -> Option<Kept>
        ensures { result ≡ kept_at self.now.kept name.now }
    {
        self.kept.get(name).copied()
    }

    /// Keeps a condition's truth.
    pub fn keep(&mut self, name: &'a str, kept: Kept) -> Result<(), AllocError>
        ensures { OnOk result ((c : List ℕ) → kept_at self.new.kept c ≡ (if bytes_eq name.now c then Some kept else kept_at self.old.kept c)) }
    {
        self.kept.insert(name, kept)?;
        Ok(())
    }

    /// The truth of the condition of the name. `UnknownName` where none is kept.
    pub fn truth(&self, name: &str) -> Truth
        ensures { truth_view result ≡ truth_in self.now name.now }
    {
        match self.get(name) {
            Some(kept) => kept.truth,
            None => Truth::Untold(EvalFault::UnknownName),
        }
    }
}
