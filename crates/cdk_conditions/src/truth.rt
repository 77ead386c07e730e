// The truth of one condition, under the truths that are kept (CloudFormation's condition functions).
ghost use Rattle.std.specs.Prelude.{◌≡◌, ◌≢◌, [], ◌∷◌, None, bytes_eq, codes, false, length, MatchOption, IfOk};
ghost use Rattle.serde_json.specs.View.{view, items_view};
ghost use Rattle.cdk_eval.specs.Conditions.{truth_of as spec_truth_of, single_truth, part_truths, item_truths, equals_form, equal_outcomes as spec_equal_outcomes, not_form, negated as spec_negated, name_form};
ghost use Rattle.cdk_eval.specs.Template.{outcome};
ghost use Rattle.cdk_eval.specs.Views.{truth_view, outcome_view};
ghost use Rattle.cdk_scopes.specs.Scopes.{scope_view, truth_in, IsSound};
ghost use Rattle.cdk_conditions.specs.Kept.{junction as spec_junction, junction_of as spec_junction_of, few_by, form_truth as spec_form_truth};

use crate::names::has_few;
use cdk_base::Value;
use cdk_eval::{EvalFault, Outcome, Truth};
use cdk_intrinsics::{outcome_of, text_in, two_of};
use cdk_scopes::{Scope, Truths};
use std::alloc::{AllocError, Global};

// ---- Fn::Equals

fn equal_outcomes(alloc: Global, first: &Outcome, second: &Outcome) -> Result<Truth, AllocError>
    ensures { IfOk result (λ t. truth_view t ≡ spec_equal_outcomes (outcome_view first.now) (outcome_view second.now)) }
{
    if let Outcome::Fault(fault) = first {
        return Ok(Truth::Untold(*fault));
    }
    if let Outcome::Fault(fault) = second {
        return Ok(Truth::Untold(*fault));
    }
    let Ok(first) = text_in(alloc, first)? else {
        return Ok(Truth::Untold(EvalFault::NotText));
    };
    let Ok(second) = text_in(alloc, second)? else {
        return Ok(Truth::Untold(EvalFault::NotText));
    };
    Ok(Truth::Holds(first.as_str() == second.as_str()))
}

fn equals_truth(alloc: Global, scope: &Scope<'_, '_>, operands: &Value) -> Result<Truth, AllocError>
    requires { IsSound scope.now }
    ensures { IfOk result (λ t. truth_view t ≡ equals_form (outcome (scope_view scope.now)) (view operands.now)) }
{
    let Value::Array(items) = operands else {
        return Ok(Truth::Untold(EvalFault::BadIntrinsic));
    };
    let Some((first, second)) = two_of(items) else {
        return Ok(Truth::Untold(EvalFault::BadIntrinsic));
    };
    let first = outcome_of(alloc, scope, first)?;
    let second = outcome_of(alloc, scope, second)?;
    equal_outcomes(alloc, &first, &second)
}

// ---- the others

/// Of `Fn::And` and `Fn::Or`, whether all parts have to hold.
fn junction_of(key: &str) -> Option<bool>
    ensures { result ≡ spec_junction_of key.now }
{
    if key == "Fn::And" {
        return Some(true);
    }
    if key == "Fn::Or" {
        return Some(false);
    }
    None
}

fn junction(is_all: bool, first: bool, second: bool) -> bool
    ensures { result ≡ spec_junction is_all first second }
{
    if is_all {
        first && second
    } else {
        first || second
    }
}

/// The one item, where there is one.
fn one_of(items: &Vec<Value>) -> Option<&Value>
    ensures { MatchOption result (length items.now.items ≢ 1) (λ p. items.now.items ≡ p.now ∷ []) }
{
    match items.as_slice() {
        [only] => Some(only),
        _ => None,
    }
}

fn negated(truth: Truth) -> Truth
    ensures { truth_view result ≡ spec_negated (truth_view truth) }
{
    match truth {
        Truth::Holds(holds) => Truth::Holds(!holds),
        Truth::Untold(fault) => Truth::Untold(fault),
    }
}

fn name_truth(truths: &Truths<'_>, name: &Value) -> Truth
    ensures { truth_view result ≡ name_form (truth_in truths.now) (view name.now) }
{
    match name {
        Value::String(name) => truths.truth(name.as_str()),
        _ => Truth::Untold(EvalFault::BadIntrinsic),
    }
}

/// The truth of a form that isn't one of conditions.
fn own_truth(
    alloc: Global,
    scope: &Scope<'_, '_>,
    truths: &Truths<'_>,
    key: &str,
    part: &Value,
) -> Result<Truth, AllocError>
    requires sound { IsSound scope.now }
    requires no_junction { spec_junction_of key.now ≡ None }
    requires not_negated { bytes_eq key.now (codes "Fn::Not") ≡ false }
    ensures { IfOk result (λ t. truth_view t ≡ spec_form_truth (outcome (scope_view scope.now)) (truth_in truths.now) key.now (view part.now)) }
{
    if key == "Fn::Equals" {
        return equals_truth(alloc, scope, part);
    }
    if key == "Condition" {
        return Ok(name_truth(truths, part));
    }
    Ok(Truth::Untold(EvalFault::BadIntrinsic))
}

/// The truth of a condition, under the truths of the names in it.
#[cycle(truth)]
pub fn truth_of(
    alloc: Global,
    scope: &Scope<'_, '_>,
    truths: &Truths<'_>,
    condition: &Value,
) -> Result<Truth, AllocError>
    requires { IsSound scope.now }
    ensures { IfOk result (λ t. truth_view t ≡ spec_truth_of (outcome (scope_view scope.now)) (truth_in truths.now) (view condition.now)) }
{
    let Value::Object(members) = condition else {
        return Ok(Truth::Untold(EvalFault::BadIntrinsic));
    };
    let mut entries = members.iter();
    let Some((key, part)) = entries.next() else {
        return Ok(Truth::Untold(EvalFault::BadIntrinsic));
    };
    if entries.next().is_some() {
        return Ok(Truth::Untold(EvalFault::BadIntrinsic));
    }
    form_truth(alloc, scope, truths, key.as_str(), part)
}

#[cycle(truth)]
fn form_truth(
    alloc: Global,
    scope: &Scope<'_, '_>,
    truths: &Truths<'_>,
    key: &str,
    part: &Value,
) -> Result<Truth, AllocError>
    requires { IsSound scope.now }
    ensures { IfOk result (λ t. truth_view t ≡ spec_form_truth (outcome (scope_view scope.now)) (truth_in truths.now) key.now (view part.now)) }
{
    if let Some(is_all) = junction_of(key) {
        return few_truth(alloc, scope, truths, is_all, part);
    }
    if key == "Fn::Not" {
        return not_truth(alloc, scope, truths, part);
    }
    own_truth(alloc, scope, truths, key, part)
}

/// `Fn::And` and `Fn::Or`: all parts are evaluated from the left.
#[cycle(truth)]
fn few_truth(
    alloc: Global,
    scope: &Scope<'_, '_>,
    truths: &Truths<'_>,
    is_all: bool,
    parts: &Value,
) -> Result<Truth, AllocError>
    requires { IsSound scope.now }
    ensures { IfOk result (λ t. truth_view t ≡ few_by is_all (part_truths (outcome (scope_view scope.now)) (truth_in truths.now) (view parts.now))) }
{
    let Value::Array(items) = parts else {
        return Ok(Truth::Untold(EvalFault::BadIntrinsic));
    };
    if !has_few(parts) {
        return Ok(Truth::Untold(EvalFault::BadIntrinsic));
    }
    let mut holds = is_all;
    for item in items {
        match truth_of(alloc, scope, truths, item)? {
            Truth::Holds(more) => holds = junction(is_all, holds, more),
            Truth::Untold(fault) => return Ok(Truth::Untold(fault)),
        }
    }
    Ok(Truth::Holds(holds))
}

#[cycle(truth)]
fn not_truth(
    alloc: Global,
    scope: &Scope<'_, '_>,
    truths: &Truths<'_>,
    parts: &Value,
) -> Result<Truth, AllocError>
    requires { IsSound scope.now }
    ensures { IfOk result (λ t. truth_view t ≡ not_form (part_truths (outcome (scope_view scope.now)) (truth_in truths.now) (view parts.now))) }
{
    let Value::Array(items) = parts else {
        return Ok(Truth::Untold(EvalFault::BadIntrinsic));
    };
    let Some(part) = one_of(items) else {
        return Ok(Truth::Untold(EvalFault::BadIntrinsic));
    };
    let truth = truth_of(alloc, scope, truths, part)?;
    Ok(negated(truth))
}
