// Values of one stack as its template holds them, with one kept result a lazy.
use crate::conditions::resolved_condition;
use cdk_base::{List, Value};
use cdk_homes::Homes;
use cdk_keeping::resolved;
use cdk_language::Kind;
use cdk_leaves::{Results, Scope};
use cdk_tokens::{Marked, Table};
use cdk_tree::{NodeId, Tree};
use std::alloc::{AllocError, Global};

/// Renders the values of one stack, and keeps the template JSON of each lazy that they reach (own). Each lazy is rendered once
/// where what it mentions is kept already, else twice; every token of it then copies what is kept.
#[derive(Drop)]
pub struct Kept<'a> {
    scope: Scope<'a>,
    results: Results,
}

impl<'a> Kept<'a> {
    ghost use Rattle.std.specs.Prelude.{◌≡◌, ◌<◌, ℕ, length, true, None, option_map, IfOk, OnOk};
    ghost use Rattle.serde_json.specs.View.{view};
    ghost use Rattle.cdk_homes.specs.Kept.{entries_in};
    ghost use Rattle.cdk_keeping.specs.Keeping.{IsRendering, KeepsReached};
    ghost use Rattle.cdk_leaves.specs.Lazies.{Stays};
    ghost use Rattle.cdk_leaves.specs.Ready.{IsReady};
    ghost use Rattle.cdk_resolve.specs.Conditions.{IsBodyRendering};
    ghost use Rattle.cdk_resolve.specs.KeptView.{IsRight, kept_results, kept_scope};
    ghost use Rattle.cdk_spelling.specs.Spelled.{homes_for};
    ghost use Rattle.cdk_tokens.specs.TableView.{marked_in, tokens_in};
    ghost use Rattle.cdk_tree.specs.Expected.{is_condition};
    ghost use Rattle.cdk_tree.specs.Placed.{construct_at};
    ghost use Rattle.cdk_tree.specs.TreeView.{constructs};

    /// For the values of the stack `consumer`, with nothing kept yet: `homes` tells how it spells what it uses, and `order` is that of
    /// `cdk_lazies::lazy_order`. It takes no memory.
    pub fn new(
        alloc: Global,
        table: &'a Table,
        marked: &'a Marked,
        homes: &'a Homes,
        consumer: NodeId,
        order: &'a List<NodeId>,
    ) -> Kept<'a>
        requires { IsReady (tokens_in table.now) (marked_in marked.now) order.now }
        ensures scope { kept_scope result ≡ record { tokens = tokens_in table.now; bodies = marked_in marked.now; homes = homes_for (entries_in homes.now) consumer; order = order.now } }
        ensures empty { (n : ℕ) → kept_results result n ≡ None }
        ensures right { IsRight result }
    {
        Kept {
            scope: Scope {
                alloc,
                table,
                marked,
                homes,
                consumer,
                order,
            },
            results: Results::new(alloc),
        }
    }

    /// What is kept of a lazy. None exactly where nothing is. It takes no memory.
    pub fn result(&self, lazy: NodeId) -> Option<&Value>
        ensures { option_map (λ v. view v.now) result ≡ kept_results self.now lazy }
    {
        self.results.get(lazy)
    }

    /// The template JSON of a marked value. The JSON of each lazy that it reaches is kept then; what was kept stays, also where no
    /// memory is found, which is the only error. What is kept of a lazy is always the JSON of its own value.
    pub fn resolve(&mut self, value: &Value) -> Result<Value, AllocError>
        requires { IsRight self.old }
        ensures value { IfOk result (λ v. IsRendering (kept_scope self.old) (view value.now) (view v)) }
        ensures reached { OnOk result (KeepsReached (kept_scope self.old) (view value.now) (kept_results self.new)) }
        ensures scope { kept_scope self.new ≡ kept_scope self.old }
        ensures stays { Stays (kept_results self.old) (kept_results self.new) }
        ensures right { IsRight self.new }
    {
        resolved(&self.scope, &mut self.results, value)
    }

    /// The template JSON of a condition, as a condition of its own stack (CloudFormation's condition functions).
    ///
    /// What is kept is as `resolve` keeps it.
    pub fn condition(&mut self, tree: &Tree, at: NodeId) -> Result<Value, AllocError>
        requires right { IsRight self.old }
        requires within { at < length (constructs tree.now) }
        requires is_condition { is_condition (construct_at (constructs tree.now) at).body ≡ true }
        ensures value { IfOk result (λ v. IsBodyRendering (kept_scope self.old) (constructs tree.now) at (construct_at (constructs tree.now) at).body (view v)) }
        ensures scope { kept_scope self.new ≡ kept_scope self.old }
        ensures stays { Stays (kept_results self.old) (kept_results self.new) }
        ensures right { IsRight self.new }
    {
        let Kind::Condition(condition) = &tree.node(at).kind else {
            unreachable!()
        };
        resolved_condition(&self.scope, &mut self.results, tree, at, condition)
    }
}
