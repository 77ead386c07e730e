// The intrinsics at their arguments, once these are evaluated (CloudFormation's intrinsic function reference).
ghost use Rattle.std.specs.Prelude.{◌≡◌, ◌&&◌, ◌<◌, [], ◌∷◌, IfOk, MatchOption, length, ◌≢◌, option_map};
ghost use Rattle.std.specs.Option.{IfSome};
ghost use Rattle.serde_json.specs.declared.value.Value.{size-Value};
ghost use Rattle.serde_json.specs.declared.value.Value.TheVariants as values;
ghost use Rattle.serde_json.specs.View.{view, number_view, items_view, members_view};
ghost use Rattle.cdk_base.specs.Json.{is_intrinsic_key as spec_is_intrinsic_key};
ghost use Rattle.cdk_eval.specs.Template.{outcome as spec_outcome, parts, number_outcome as spec_number_outcome, has_intrinsic_key as spec_has_intrinsic_key, is_barred_key, ref_form as spec_ref_form, att_form as spec_att_form, if_form, import_form, join_args as spec_join_args, select_args as spec_select_args, split_args as spec_split_args};
ghost use Rattle.cdk_eval.specs.Texts.{index_of as spec_index_of};
ghost use Rattle.cdk_eval.specs.Views.{outcome_view};
ghost use Rattle.cdk_eval.specs.Stack.{text_outcome as spec_text_outcome};
ghost use Rattle.cdk_intrinsics.specs.Forms.{pair_args, if_arguments as spec_if_arguments, leaf_among as spec_leaf_among, map_listed, told};
ghost use Rattle.cdk_scopes.specs.Branch.{branch_outcome};
ghost use Rattle.cdk_scopes.specs.Scopes.{scope_view, IsSound};
ghost use Rattle.cdk_intrinsics.specs.Substitution.{IsNoSub};

use crate::names::{attribute_outcome, condition, export, is_operand, leaf_of, ref_outcome};
use cdk_base::{Map, Text, Value, text_of};
use cdk_eval::{EvalFault, Outcome, is_whole};
use cdk_scopes::{Scope, branch};
use cdk_texts::{cut, index_of, joined};
use serde_json::Number;
use std::alloc::{AllocError, Global};

/// The intrinsics of two arguments of which the second is evaluated.
#[derive(Clone, Copy)]
pub enum PairForm {
    Join,
    Select,
    Split,
}

// ---- the forms of arguments

/// The two items, where there are two.
pub fn two_of(items: &Vec<Value>) -> Option<(&Value, &Value)>
    ensures { MatchOption result (length items.now.items ≢ 2) (λ p. items.now.items ≡ p.0.now ∷ p.1.now ∷ []) }
{
    match items.as_slice() {
        [first, second] => Some((first, second)),
        _ => None,
    }
}

/// The three items, where there are three.
pub fn three_of(items: &Vec<Value>) -> Option<(&Value, &Value, &Value)>
    ensures { MatchOption result (length items.now.items ≢ 3) (λ p. items.now.items ≡ p.0.now ∷ p.1.now ∷ p.2.now ∷ []) }
{
    match items.as_slice() {
        [first, second, third] => Some((first, second, third)),
        _ => None,
    }
}

/// The text and the object of names, where the items are these two.
pub fn text_and_names(items: &Vec<Value>) -> Option<(&String, &Map)>
    ensures { MatchOption result (IsNoSub items.now.items) (λ p. items.now.items ≡ values.String p.0.now ∷ values.Object p.1.now ∷ []) }
{
    let Some((text, names)) = two_of(items) else {
        return None;
    };
    let Value::String(text) = text else {
        return None;
    };
    let Value::Object(names) = names else {
        return None;
    };
    Some((text, names))
}

/// The name of the condition of a `Fn::If`, and its two values.
fn if_arguments(argument: &Value) -> Option<(&str, &Value, &Value)>
    ensures parts { option_map (λ p. (p.0.now, (view p.1.now, view p.2.now))) result ≡ spec_if_arguments (view argument.now) }
    ensures smaller { IfSome result (λ p. (size-Value p.1.now < size-Value argument.now) × (size-Value p.2.now < size-Value argument.now)) }
{
    let Value::Array(items) = argument else {
        return None;
    };
    let Some((name, held, other)) = three_of(items) else {
        return None;
    };
    let Some(name) = name.as_str() else {
        return None;
    };
    Some((name, held, other))
}

fn is_intrinsic_key(key: &str) -> bool
    ensures { result ≡ spec_is_intrinsic_key key.now }
{
    key == "Ref" || key.as_bytes().starts_with(b"Fn::")
}

/// Whether the object is an intrinsic: it has the key `Ref`, or one that begins with `Fn::`.
pub fn has_intrinsic_key(members: &Map) -> bool
    ensures { result ≡ spec_has_intrinsic_key (members_view members.now.entries) }
{
    for (key, _member) in members.iter() {
        if is_intrinsic_key(key.as_str()) {
            return true;
        }
    }
    false
}

/// Whether the intrinsic of the key may not stand here: it stands in an operand of a condition.
pub fn is_barred(scope: &Scope<'_, '_>, key: &str) -> bool
    ensures { result ≡ is_barred_key key.now && (scope_view scope.now).is_operand }
{
    (key == "Fn::If" || (key == "Fn::ImportValue" || key == "Fn::GetAtt")) && is_operand(scope)
}

// ---- the forms

/// A number, where it is whole and within 64 bits.
pub fn number_outcome(number: &Number) -> Outcome
    ensures { outcome_view result ≡ spec_number_outcome (number_view number.now) }
{
    if is_whole(number) {
        return Outcome::Value(Value::Number(*number));
    }
    Outcome::Fault(EvalFault::BadIntrinsic)
}

/// `Ref`.
pub fn ref_form(
    alloc: Global,
    scope: &Scope<'_, '_>,
    argument: &Value,
) -> Result<Outcome, AllocError>
    requires { IsSound scope.now }
    ensures { IfOk result (λ o. outcome_view o ≡ spec_ref_form (scope_view scope.now) (view argument.now)) }
{
    match argument {
        Value::String(name) => ref_outcome(alloc, scope, name.as_str()),
        _ => Ok(Outcome::Fault(EvalFault::BadIntrinsic)),
    }
}

/// `Fn::GetAtt`.
pub fn att_form(
    alloc: Global,
    scope: &Scope<'_, '_>,
    argument: &Value,
) -> Result<Outcome, AllocError>
    requires { IsSound scope.now }
    ensures { IfOk result (λ o. outcome_view o ≡ spec_att_form (scope_view scope.now) (parts (scope_view scope.now) (view argument.now))) }
{
    let Value::Array(items) = argument else {
        return Ok(Outcome::Fault(EvalFault::BadIntrinsic));
    };
    let Some((name, attribute)) = two_of(items) else {
        return Ok(Outcome::Fault(EvalFault::BadIntrinsic));
    };
    let Value::String(name) = name else {
        return Ok(Outcome::Fault(EvalFault::BadIntrinsic));
    };
    let Value::String(attribute) = attribute else {
        return Ok(Outcome::Fault(EvalFault::BadIntrinsic));
    };
    attribute_outcome(alloc, scope, name.as_str(), attribute.as_str())
}

/// The value that a `Fn::If` picks by its condition, or why there is none.
pub fn if_branch<'v>(scope: &Scope<'_, '_>, argument: &'v Value) -> Result<&'v Value, EvalFault>
    requires { IsSound scope.now }
    ensures picked { branch_outcome (spec_outcome (scope_view scope.now)) result ≡ if_form (scope_view scope.now) (parts (scope_view scope.now) (view argument.now)) }
    ensures smaller { IfOk result (λ v. size-Value v.now < size-Value argument.now) }
{
    let Some((name, held, other)) = if_arguments(argument) else {
        return Err(EvalFault::BadIntrinsic);
    };
    branch(condition(scope, name), held, other)
}

/// The text of an outcome as a literal, or why there is none: gone and values without a text are `NotText`.
pub fn text_in(alloc: Global, outcome: &Outcome) -> Result<Result<Text, EvalFault>, AllocError>
    ensures { IfOk result (λ t. told t ≡ spec_text_outcome (outcome_view outcome.now)) }
{
    match outcome {
        Outcome::Value(value) => match text_of(alloc, value)? {
            Some(text) => Ok(Ok(text)),
            None => Ok(Err(EvalFault::NotText)),
        },
        Outcome::Gone => Ok(Err(EvalFault::NotText)),
        Outcome::Fault(fault) => Ok(Err(*fault)),
    }
}

fn join_args(alloc: Global, delimiter: &Value, list: &Outcome) -> Result<Outcome, AllocError>
    ensures { IfOk result (λ o. outcome_view o ≡ spec_join_args (view delimiter.now) (outcome_view list.now)) }
{
    let Value::String(delimiter) = delimiter else {
        return Ok(Outcome::Fault(EvalFault::BadIntrinsic));
    };
    let list = match list {
        Outcome::Value(Value::Array(list)) => list,
        Outcome::Fault(fault) => return Ok(Outcome::Fault(*fault)),
        _ => return Ok(Outcome::Fault(EvalFault::NotText)),
    };
    match joined(alloc, delimiter.as_str(), list.as_slice())? {
        Some(text) => Ok(Outcome::Value(Value::String(text))),
        None => Ok(Outcome::Fault(EvalFault::NotText)),
    }
}

fn select_args(alloc: Global, index: &Value, list: &Outcome) -> Result<Outcome, AllocError>
    ensures { IfOk result (λ o. outcome_view o ≡ spec_select_args (spec_index_of (view index.now)) (outcome_view list.now)) }
{
    let Some(index) = index_of(alloc, index)? else {
        return Ok(Outcome::Fault(EvalFault::BadIntrinsic));
    };
    let list = match list {
        Outcome::Value(list) => list,
        Outcome::Gone => return Ok(Outcome::Fault(EvalFault::NotText)),
        Outcome::Fault(fault) => return Ok(Outcome::Fault(*fault)),
    };
    if !list.is_array() {
        return Ok(Outcome::Fault(EvalFault::NotText));
    }
    match list.get(index as usize) {
        Some(item) => Ok(Outcome::Value(item.clone()?)),
        None => Ok(Outcome::Fault(EvalFault::NoItem)),
    }
}

fn split_args(alloc: Global, delimiter: &Value, text: &Outcome) -> Result<Outcome, AllocError>
    ensures { IfOk result (λ o. outcome_view o ≡ spec_split_args (view delimiter.now) (outcome_view text.now)) }
{
    let Value::String(delimiter) = delimiter else {
        return Ok(Outcome::Fault(EvalFault::BadIntrinsic));
    };
    if delimiter.is_empty() {
        return Ok(Outcome::Fault(EvalFault::BadIntrinsic));
    }
    match text_in(alloc, text)? {
        Ok(text) => {
            let items = cut(alloc, delimiter.as_str(), text.as_str())?;
            Ok(Outcome::Value(Value::Array(items)))
        }
        Err(fault) => Ok(Outcome::Fault(fault)),
    }
}

/// `Fn::Join`, `Fn::Select` and `Fn::Split` at the first argument as it stands, and the second evaluated.
pub fn pair_outcome(
    alloc: Global,
    form: PairForm,
    first: &Value,
    second: &Outcome,
) -> Result<Outcome, AllocError>
    ensures { IfOk result (λ o. outcome_view o ≡ pair_args form (view first.now) (outcome_view second.now)) }
{
    match form {
        PairForm::Join => join_args(alloc, first, second),
        PairForm::Select => select_args(alloc, first, second),
        PairForm::Split => split_args(alloc, first, second),
    }
}

/// `Fn::ImportValue` at its argument, evaluated.
pub fn import_outcome(
    alloc: Global,
    scope: &Scope<'_, '_>,
    name: &Outcome,
) -> Result<Outcome, AllocError>
    ensures { IfOk result (λ o. outcome_view o ≡ import_form (scope_view scope.now) (outcome_view name.now)) }
{
    match text_in(alloc, name)? {
        Ok(name) => match export(scope, name.as_str()) {
            Some(text) => Ok(Outcome::Value(Value::String(String::from_str(alloc, text)?))),
            None => Ok(Outcome::Fault(EvalFault::NoExport)),
        },
        Err(fault) => Ok(Outcome::Fault(fault)),
    }
}

fn leaf_among(
    alloc: Global,
    scope: &Scope<'_, '_>,
    names: &Vec<Value>,
) -> Result<Outcome, AllocError>
    ensures { IfOk result (λ o. outcome_view o ≡ spec_leaf_among (scope_view scope.now) (items_view names.now.items)) }
{
    let Some((mapping, top, second)) = three_of(names) else {
        return Ok(Outcome::Fault(EvalFault::NotText));
    };
    let Some(mapping) = text_of(alloc, mapping)? else {
        return Ok(Outcome::Fault(EvalFault::NotText));
    };
    let Some(top) = text_of(alloc, top)? else {
        return Ok(Outcome::Fault(EvalFault::NotText));
    };
    let Some(second) = text_of(alloc, second)? else {
        return Ok(Outcome::Fault(EvalFault::NotText));
    };
    leaf_of(
        alloc,
        scope,
        mapping.as_str(),
        top.as_str(),
        second.as_str(),
    )
}

/// `Fn::FindInMap` at its three arguments, evaluated as an array, which leaves out those that are gone.
pub fn leaf_outcome(
    alloc: Global,
    scope: &Scope<'_, '_>,
    names: &Outcome,
) -> Result<Outcome, AllocError>
    ensures { IfOk result (λ o. outcome_view o ≡ map_listed (scope_view scope.now) (outcome_view names.now)) }
{
    match names {
        Outcome::Value(Value::Array(names)) => leaf_among(alloc, scope, names),
        Outcome::Fault(fault) => Ok(Outcome::Fault(*fault)),
        _ => Ok(Outcome::Fault(EvalFault::NotText)),
    }
}
