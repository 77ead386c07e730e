// The outcome of one value of a template, by recursion on it.
ghost use Rattle.std.specs.Prelude.{◌≡◌, IfOk};
ghost use Rattle.serde_json.specs.Data.{array};
ghost use Rattle.serde_json.specs.View.{view, items_view, members_view};
ghost use Rattle.cdk_eval.specs.Outcomes.{array_outcome as spec_array_outcome, object_outcome as spec_object_outcome};
ghost use Rattle.cdk_eval.specs.Template.{outcome, item_outcomes, member_outcomes, single_form as spec_single_form, if_form as spec_if_form, map_form as spec_map_form, sub_form as spec_sub_form, parts, item_parts, each_member};
ghost use Rattle.cdk_eval.specs.Views.{outcome_view};
ghost use Rattle.cdk_intrinsics.specs.Forms.{pair_form as spec_pair_form, at_argument};
ghost use Rattle.cdk_scopes.specs.Scopes.{scope_view, IsSound};
ghost use Rattle.cdk_intrinsics.specs.Substitution.{HasUsed};

use crate::forms::{
    PairForm, att_form, has_intrinsic_key, if_branch, import_outcome, leaf_outcome, number_outcome,
    pair_outcome, ref_form, text_and_names, three_of, two_of,
};
use crate::found::put_outcome;
use crate::intrinsic::{Intrinsic, intrinsic_at};
use crate::substitution::{Named, is_wanted, plain_sub, sub_outcome, used_names};
use cdk_base::{Map, Value};
use cdk_eval::{EvalFault, Outcome};
use cdk_scopes::{NameSet, Scope};
use cdk_texts::sub_parts;
use std::alloc::{AllocError, Global};

/// What a value of a template comes to (CloudFormation's intrinsic function reference): a value, gone, or the first
/// fault from the left, keys in byte order. The recursion goes down the value alone.
#[cycle(evaluation)]
pub fn outcome_of(
    alloc: Global,
    scope: &Scope<'_, '_>,
    value: &Value,
) -> Result<Outcome, AllocError>
    requires { IsSound scope.now }
    ensures { IfOk result (λ o. outcome_view o ≡ outcome (scope_view scope.now) (view value.now)) }
{
    match value {
        Value::Null => Ok(Outcome::Fault(EvalFault::BadIntrinsic)),
        Value::Bool(truth) => Ok(Outcome::Value(Value::Bool(*truth))),
        Value::Number(number) => Ok(number_outcome(number)),
        Value::String(text) => Ok(Outcome::Value(Value::String(text.clone()?))),
        Value::Array(items) => array_outcome(alloc, scope, items),
        Value::Object(members) => {
            if has_intrinsic_key(members) {
                return single_form(alloc, scope, members);
            }
            object_outcome(alloc, scope, members)
        }
    }
}

#[cycle(evaluation)]
fn array_outcome(
    alloc: Global,
    scope: &Scope<'_, '_>,
    items: &Vec<Value>,
) -> Result<Outcome, AllocError>
    requires { IsSound scope.now }
    ensures { IfOk result (λ o. outcome_view o ≡ spec_array_outcome (item_outcomes (scope_view scope.now) (items_view items.now.items))) }
{
    let mut found = Vec::new(alloc);
    for item in items {
        match outcome_of(alloc, scope, item)? {
            Outcome::Value(value) => found.push(value)?,
            Outcome::Gone => {}
            Outcome::Fault(fault) => return Ok(Outcome::Fault(fault)),
        }
    }
    Ok(Outcome::Value(Value::Array(found)))
}

#[cycle(evaluation)]
fn object_outcome(
    alloc: Global,
    scope: &Scope<'_, '_>,
    members: &Map,
) -> Result<Outcome, AllocError>
    requires { IsSound scope.now }
    ensures { IfOk result (λ o. outcome_view o ≡ spec_object_outcome (member_outcomes (scope_view scope.now) (members_view members.now.entries))) }
{
    let mut found = Map::new(alloc);
    for (key, member) in members.iter() {
        let outcome = outcome_of(alloc, scope, member)?;
        if let Some(fault) = put_outcome(&mut found, key, outcome)? {
            return Ok(Outcome::Fault(fault));
        }
    }
    Ok(Outcome::Value(Value::Object(found)))
}

/// The outcome of an object with an intrinsic's key.
#[cycle(evaluation)]
fn single_form(alloc: Global, scope: &Scope<'_, '_>, members: &Map) -> Result<Outcome, AllocError>
    requires { IsSound scope.now }
    ensures { IfOk result (λ o. outcome_view o ≡ spec_single_form (scope_view scope.now) (members_view members.now.entries)) }
{
    let mut entries = members.iter();
    let Some((key, argument)) = entries.next() else {
        return Ok(Outcome::Fault(EvalFault::BadIntrinsic));
    };
    if entries.next().is_some() {
        return Ok(Outcome::Fault(EvalFault::BadIntrinsic));
    }
    match intrinsic_at(scope, key.as_str()) {
        Some(intrinsic) => form_outcome(alloc, scope, intrinsic, argument),
        None => Ok(Outcome::Fault(EvalFault::BadIntrinsic)),
    }
}

/// The outcome of an intrinsic at its argument.
#[cycle(evaluation)]
fn form_outcome(
    alloc: Global,
    scope: &Scope<'_, '_>,
    intrinsic: Intrinsic,
    argument: &Value,
) -> Result<Outcome, AllocError>
    requires { IsSound scope.now }
    ensures { IfOk result (λ o. outcome_view o ≡ at_argument (scope_view scope.now) intrinsic (view argument.now) (outcome (scope_view scope.now) (view argument.now)) (parts (scope_view scope.now) (view argument.now))) }
{
    match intrinsic {
        Intrinsic::Ref => ref_form(alloc, scope, argument),
        Intrinsic::GetAtt => att_form(alloc, scope, argument),
        Intrinsic::Pair(form) => pair_form(alloc, scope, form, argument),
        Intrinsic::Sub => sub_form(alloc, scope, argument),
        Intrinsic::If => if_form(alloc, scope, argument),
        Intrinsic::FindInMap => map_form(alloc, scope, argument),
        Intrinsic::ImportValue => {
            let name = outcome_of(alloc, scope, argument)?;
            import_outcome(alloc, scope, &name)
        }
    }
}

/// `Fn::Join`, `Fn::Select` and `Fn::Split`: the second of two arguments is evaluated.
#[cycle(evaluation)]
fn pair_form(
    alloc: Global,
    scope: &Scope<'_, '_>,
    form: PairForm,
    argument: &Value,
) -> Result<Outcome, AllocError>
    requires { IsSound scope.now }
    ensures { IfOk result (λ o. outcome_view o ≡ spec_pair_form form (parts (scope_view scope.now) (view argument.now))) }
{
    let Value::Array(items) = argument else {
        return Ok(Outcome::Fault(EvalFault::BadIntrinsic));
    };
    let Some((first, second)) = two_of(items) else {
        return Ok(Outcome::Fault(EvalFault::BadIntrinsic));
    };
    let second = outcome_of(alloc, scope, second)?;
    pair_outcome(alloc, form, first, &second)
}

/// `Fn::If`: the value that the condition picks is evaluated, and the other isn't.
#[cycle(evaluation)]
fn if_form(alloc: Global, scope: &Scope<'_, '_>, argument: &Value) -> Result<Outcome, AllocError>
    requires { IsSound scope.now }
    ensures { IfOk result (λ o. outcome_view o ≡ spec_if_form (scope_view scope.now) (parts (scope_view scope.now) (view argument.now))) }
{
    let value = match if_branch(scope, argument) {
        Ok(value) => value,
        Err(fault) => return Ok(Outcome::Fault(fault)),
    };
    outcome_of(alloc, scope, value)
}

/// `Fn::FindInMap`: all three arguments are evaluated before their texts are looked at.
#[cycle(evaluation)]
fn map_form(alloc: Global, scope: &Scope<'_, '_>, argument: &Value) -> Result<Outcome, AllocError>
    requires { IsSound scope.now }
    ensures { IfOk result (λ o. outcome_view o ≡ spec_map_form (scope_view scope.now) (parts (scope_view scope.now) (view argument.now))) }
{
    let Value::Array(items) = argument else {
        return Ok(Outcome::Fault(EvalFault::BadIntrinsic));
    };
    let Some((_mapping, _top, _second)) = three_of(items) else {
        return Ok(Outcome::Fault(EvalFault::BadIntrinsic));
    };
    let names = array_outcome(alloc, scope, items)?;
    leaf_outcome(alloc, scope, &names)
}

/// `Fn::Sub` of a text, or of a text and an object of names.
#[cycle(evaluation)]
fn sub_form(alloc: Global, scope: &Scope<'_, '_>, argument: &Value) -> Result<Outcome, AllocError>
    requires { IsSound scope.now }
    ensures { IfOk result (λ o. outcome_view o ≡ spec_sub_form (scope_view scope.now) (view argument.now) (parts (scope_view scope.now) (view argument.now))) }
{
    match argument {
        Value::String(text) => plain_sub(alloc, scope, text.as_str()),
        Value::Array(items) => named_sub(alloc, scope, items),
        _ => Ok(Outcome::Fault(EvalFault::BadIntrinsic)),
    }
}

#[cycle(evaluation)]
fn named_sub(
    alloc: Global,
    scope: &Scope<'_, '_>,
    items: &Vec<Value>,
) -> Result<Outcome, AllocError>
    requires { IsSound scope.now }
    ensures { IfOk result (λ o. outcome_view o ≡ spec_sub_form (scope_view scope.now) (array (items_view items.now.items)) (item_parts (scope_view scope.now) (items_view items.now.items))) }
{
    let Some((text, members)) = text_and_names(items) else {
        return Ok(Outcome::Fault(EvalFault::BadIntrinsic));
    };
    let Some(parts) = sub_parts(alloc, text.as_str())? else {
        return Ok(Outcome::Fault(EvalFault::BadIntrinsic));
    };
    let used = used_names(alloc, parts.as_slice())?;
    let named = named_outcomes(alloc, scope, &used, members)?;
    sub_outcome(alloc, scope, parts.as_slice(), &named)
}

/// The outcomes of the members that a Sub's text names, each evaluated once.
#[cycle(evaluation)]
fn named_outcomes<'a>(
    alloc: Global,
    scope: &Scope<'_, '_>,
    used: &NameSet<'_>,
    members: &'a Map,
) -> Result<Named<'a>, AllocError>
    requires { IsSound scope.now }
    ensures { IfOk result (λ m. HasUsed used.now m (each_member (scope_view scope.now) (members_view members.now.entries))) }
{
    let mut named = Named::new(alloc);
    for (key, member) in members.iter() {
        let key = key.as_str();
        if is_wanted(used, &named, key) {
            let outcome = outcome_of(alloc, scope, member)?;
            named.keep(key, outcome)?;
        }
    }
    Ok(named)
}
