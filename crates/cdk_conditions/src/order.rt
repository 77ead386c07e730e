// The order in which conditions are evaluated: a walk that keeps its own path, each condition after those that it names.
ghost use Rattle.std.specs.Prelude.{◌≡◌, ℕ, List, [], Some, true, false, OnOk, IfOk, MatchOption};
ghost use Rattle.serde_json.specs.Find.{get_member};
ghost use Rattle.serde_json.specs.View.{view, members_view};
ghost use Rattle.cdk_eval.specs.Template.{outcome};
ghost use Rattle.cdk_eval.specs.Views.{values_view};
ghost use Rattle.cdk_scopes.specs.Scopes.{scope_view, IsSound, AreTruths};
ghost use Rattle.cdk_conditions.specs.Kept.{is_kept, AreRight, IsSettled};
ghost use Rattle.cdk_conditions.specs.Walks.{AreClosed, IsWalk, IsWalkWith, IsStep, Found, groups_of};

use crate::closing::{keep_loops, keep_truth};
use crate::names::condition_at;
use crate::walk::{Group, Walk};
use cdk_base::{Map, Value};
use cdk_eval::Values;
use cdk_scopes::{Place, Scope, Truths, section};
use std::alloc::{AllocError, Global};

/// The condition of a name that isn't kept.
fn unsettled<'a>(conditions: &'a Map, truths: &Truths<'_>, name: &str) -> Option<&'a Value>
    ensures { MatchOption result (IsSettled (members_view conditions.now.entries) truths.now name.now) (λ d. (get_member name.now (members_view conditions.now.entries) ≡ Some (view d.now)) × (is_kept truths.now name.now ≡ false)) }
{
    if truths.get(name).is_some() {
        return None;
    }
    condition_at(conditions, name)
}

/// Keeps the conditions of the last group, at which no name waits.
fn close<'a>(
    alloc: Global,
    scope: &Scope<'_, '_>,
    conditions: &Map,
    truths: &mut Truths<'a>,
    walk: &Walk<'a>,
    group: &Group<'a>,
) -> Result<(), AllocError>
    requires sound { IsSound scope.now }
    requires walk { IsWalkWith (outcome (scope_view scope.now)) (members_view conditions.now.entries) truths.old walk.now group.now }
    requires done { group.now.waiting ≡ [] }
    ensures walk { OnOk result (IsWalk (outcome (scope_view scope.now)) (members_view conditions.now.entries) truths.new walk.now) }
    ensures kept { OnOk result ((n : List ℕ) → is_kept truths.old n ≡ true → is_kept truths.new n ≡ true) }
{
    let members = group.members.as_slice();
    if group.is_loop {
        return keep_loops(truths, members);
    }
    let Some(name) = members.first() else {
        return Ok(());
    };
    let Some(condition) = condition_at(conditions, name) else {
        return Ok(());
    };
    keep_truth(alloc, scope, truths, name, condition)
}

/// Looks at a name that waits in the last group; where none does, keeps the group's conditions.
fn step<'a>(
    alloc: Global,
    scope: &Scope<'_, '_>,
    conditions: &'a Map,
    truths: &mut Truths<'a>,
    walk: &mut Walk<'a>,
    mut group: Group<'a>,
) -> Result<(), AllocError>
    requires sound { IsSound scope.now }
    requires walk { IsWalkWith (outcome (scope_view scope.now)) (members_view conditions.now.entries) truths.old walk.old group }
    ensures walk { OnOk result (IsWalk (outcome (scope_view scope.now)) (members_view conditions.now.entries) truths.new walk.new) }
    ensures step { OnOk result (IsStep (members_view conditions.now.entries) truths.old walk.old group.entry truths.new walk.new) }
{
    let Some(name) = group.waiting.pop() else {
        return close(alloc, scope, conditions, truths, walk, &group);
    };
    let Some(condition) = unsettled(conditions, truths, name) else {
        return walk.groups.push(group);
    };
    if let Some(position) = walk.positions.get(name) {
        return walk.join(group, position);
    }
    walk.groups.push(group)?;
    walk.enter(alloc, name, condition)
}

/// Evaluates a condition, and those that it reaches before it.
fn settle<'a>(
    alloc: Global,
    scope: &Scope<'_, '_>,
    conditions: &'a Map,
    truths: &mut Truths<'a>,
    name: &'a str,
) -> Result<(), AllocError>
    requires sound { IsSound scope.now }
    requires right { AreRight (outcome (scope_view scope.now)) (members_view conditions.now.entries) truths.old }
    requires closed { AreClosed (members_view conditions.now.entries) truths.old }
    ensures { OnOk result (Found (outcome (scope_view scope.now)) (members_view conditions.now.entries) name.now truths.old truths.new) }
{
    let Some(condition) = unsettled(conditions, truths, name) else {
        return Ok(());
    };
    let mut walk = Walk::new(alloc);
    walk.enter(alloc, name, condition)?;
    'walk: while let Some(group) = walk.groups.pop() {
        step(alloc, scope, conditions, truths, &mut walk, group)?;
    }
    Ok(())
}

/// The truths of the conditions of a stack's template, each evaluated once. It takes steps in the number of the
/// conditions and of the names in them, each with a look-up among the conditions.
pub fn truths_of<'a>(
    alloc: Global,
    values: &'a Values,
    stack: &'a str,
    template: &'a Value,
) -> Result<Truths<'a>, AllocError>
    ensures { IfOk result (λ ts. AreTruths (values_view values.now) stack.now (view template.now) ts) }
{
    let mut truths = Truths::new(alloc);
    let Some(conditions) = section(template, "Conditions") else {
        return Ok(truths);
    };
    let scope = Scope {
        values,
        stack,
        template,
        place: Place::Operand,
    };
    for (name, _condition) in conditions.iter() {
        settle(alloc, &scope, conditions, &mut truths, name.as_str())?;
    }
    Ok(truths)
}
