// What a name stands for: a pseudo parameter, a parameter, a resource or a mapping (CloudFormation: Ref, Fn::GetAtt and
// Fn::FindInMap).
ghost use Rattle.std.specs.Prelude.{◌≡◌, IfOk, option_map, option_and_then, string_bytes, codes};
ghost use Rattle.serde_json.specs.Data.{string};
ghost use Rattle.serde_json.specs.Find.{get, get_member};
ghost use Rattle.serde_json.specs.View.{view};
ghost use Rattle.cdk_eval.specs.Outcomes as outcomes;
ghost use Rattle.cdk_eval.specs.Sections.{section as spec_section};
ghost use Rattle.cdk_eval.specs.Template.{ref_outcome as spec_ref_outcome};
ghost use Rattle.cdk_eval.specs.Values.{pseudo_default as spec_pseudo_default, pseudo_text as spec_pseudo_text, physical_text as spec_physical_text, attribute_text as spec_attribute_text};
ghost use Rattle.cdk_eval.specs.Views.{values_view, outcome_view, truth_view};
ghost use Rattle.cdk_scopes.specs.Scopes.{scope_view, IsSound};
ghost use Rattle.cdk_intrinsics.specs.Names.{resource_at};

use cdk_base::Value;
use cdk_eval::{EvalFault, Outcome, Truth, Values, has_text};
use cdk_scopes::{Place, Scope, barred_by, entry, parameter_outcome, presence};
use std::alloc::{AllocError, Global};

fn text_outcome(text: String) -> Outcome
    ensures { outcome_view result ≡ outcomes.Value (string (string_bytes text)) }
{
    Outcome::Value(Value::String(text))
}

// ---- pseudo parameters

fn pseudo_default(name: &str) -> Option<&'static str>
    ensures { option_map (λ s. s.now) result ≡ spec_pseudo_default name.now }
{
    if name == "AWS::AccountId" {
        return Some("111111111111");
    }
    if name == "AWS::Partition" {
        return Some("aws");
    }
    if name == "AWS::Region" {
        return Some("us-east-1");
    }
    if name == "AWS::URLSuffix" {
        return Some("amazonaws.com");
    }
    None
}

fn pseudo_text(
    alloc: Global,
    values: &Values,
    stack: &str,
    name: &str,
) -> Result<Option<String>, AllocError>
    ensures { IfOk result (λ t. option_map string_bytes t ≡ spec_pseudo_text (values_view values.now) stack.now name.now) }
{
    if name == "AWS::StackName" {
        return Ok(Some(String::from_str(alloc, stack)?));
    }
    if name == "AWS::StackId" {
        return Ok(Some(format!(in alloc; "stack/{stack}")?));
    }
    let Some(usual) = pseudo_default(name) else {
        return Ok(None);
    };
    match values.pseudo(name) {
        Some(given) => Ok(Some(String::from_str(alloc, given)?)),
        None => Ok(Some(String::from_str(alloc, usual)?)),
    }
}

// ---- resources

fn physical_text(
    alloc: Global,
    values: &Values,
    stack: &str,
    logical: &str,
) -> Result<String, AllocError>
    ensures { IfOk result (λ t. string_bytes t ≡ spec_physical_text (values_view values.now) stack.now logical.now) }
{
    match values.physical(stack, logical) {
        Some(text) => String::from_str(alloc, text),
        None => format!(in alloc; "{stack}.{logical}"),
    }
}

fn attribute_text(
    alloc: Global,
    values: &Values,
    stack: &str,
    logical: &str,
    attribute: &str,
) -> Result<String, AllocError>
    ensures { IfOk result (λ t. string_bytes t ≡ spec_attribute_text (values_view values.now) stack.now logical.now attribute.now) }
{
    match values.attribute(stack, logical, attribute) {
        Some(text) => String::from_str(alloc, text),
        None => format!(in alloc; "{stack}.{logical}.{attribute}"),
    }
}

/// `Ref` of a name that is no pseudo parameter and no parameter.
fn resource_outcome(alloc: Global, scope: &Scope<'_, '_>, name: &str) -> Result<Outcome, AllocError>
    requires { IsSound scope.now }
    ensures { IfOk result (λ o. outcome_view o ≡ resource_at scope.now name.now) }
{
    let Some(resource) = entry(scope.template, "Resources", name) else {
        return Ok(Outcome::Fault(EvalFault::UnknownName));
    };
    let Place::Body { truths, .. } = scope.place else {
        return Ok(Outcome::Fault(EvalFault::BadIntrinsic));
    };
    if let Some(fault) = barred_by(presence(truths, resource)) {
        return Ok(Outcome::Fault(fault));
    }
    let text = physical_text(alloc, scope.values, scope.stack, name)?;
    Ok(text_outcome(text))
}

/// What `Ref` of a name gives that is no pseudo parameter.
fn target(alloc: Global, scope: &Scope<'_, '_>, name: &str) -> Result<Outcome, AllocError>
    requires { IsSound scope.now }
    ensures { IfOk result (λ o. outcome_view o ≡ (scope_view scope.now).target name.now) }
{
    match entry(scope.template, "Parameters", name) {
        Some(parameter) => {
            let given = scope.values.parameter(scope.stack, name);
            parameter_outcome(alloc, given, parameter)
        }
        None => resource_outcome(alloc, scope, name),
    }
}

/// What `Ref` of a name gives.
pub fn ref_outcome(alloc: Global, scope: &Scope<'_, '_>, name: &str) -> Result<Outcome, AllocError>
    requires { IsSound scope.now }
    ensures { IfOk result (λ o. outcome_view o ≡ spec_ref_outcome (scope_view scope.now) name.now) }
{
    if name == "AWS::NoValue" {
        return Ok(Outcome::Gone);
    }
    match pseudo_text(alloc, scope.values, scope.stack, name)? {
        Some(text) => Ok(text_outcome(text)),
        None => target(alloc, scope, name),
    }
}

/// What `Fn::GetAtt` of a name and an attribute gives.
pub fn attribute_outcome(
    alloc: Global,
    scope: &Scope<'_, '_>,
    name: &str,
    attribute: &str,
) -> Result<Outcome, AllocError>
    requires { IsSound scope.now }
    ensures { IfOk result (λ o. outcome_view o ≡ (scope_view scope.now).attribute name.now attribute.now) }
{
    let Place::Body { truths, .. } = scope.place else {
        return Ok(Outcome::Fault(EvalFault::BadIntrinsic));
    };
    let Some(resource) = entry(scope.template, "Resources", name) else {
        return Ok(Outcome::Fault(EvalFault::UnknownName));
    };
    if let Some(fault) = barred_by(presence(truths, resource)) {
        return Ok(Outcome::Fault(fault));
    }
    let text = attribute_text(alloc, scope.values, scope.stack, name, attribute)?;
    Ok(text_outcome(text))
}

/// The truth of the condition of a name, in a value.
pub fn condition(scope: &Scope<'_, '_>, name: &str) -> Truth
    requires { IsSound scope.now }
    ensures { truth_view result ≡ (scope_view scope.now).condition name.now }
{
    match scope.place {
        Place::Operand => Truth::Untold(EvalFault::BadIntrinsic),
        Place::Body { truths, .. } => truths.truth(name),
    }
}

/// The export of a name.
pub fn export<'a>(scope: &Scope<'a, '_>, name: &str) -> Option<&'a str>
    ensures { option_map (λ s. s.now) result ≡ (scope_view scope.now).export name.now }
{
    match scope.place {
        Place::Operand => None,
        Place::Body { exports, .. } => exports.get(name),
    }
}

/// Whether the value stands in an operand of a condition.
pub fn is_operand(scope: &Scope<'_, '_>) -> bool
    ensures { result ≡ (scope_view scope.now).is_operand }
{
    match scope.place {
        Place::Operand => true,
        Place::Body { .. } => false,
    }
}

fn leaf<'a>(scope: &Scope<'a, '_>, mapping: &str, top: &str, second: &str) -> Option<&'a Value>
    ensures { option_map (λ v. view v.now) result ≡ option_and_then (get second.now) (option_and_then (get top.now) (get_member mapping.now (spec_section (codes "Mappings") (view scope.now.template.now)))) }
{
    entry(scope.template, "Mappings", mapping)?
        .get(top)?
        .get(second)
}

/// The leaf of a mapping: a text, a whole number or a truth value.
pub fn leaf_of(
    alloc: Global,
    scope: &Scope<'_, '_>,
    mapping: &str,
    top: &str,
    second: &str,
) -> Result<Outcome, AllocError>
    ensures { IfOk result (λ o. outcome_view o ≡ (scope_view scope.now).leaf mapping.now top.now second.now) }
{
    let Some(value) = leaf(scope, mapping, top, second) else {
        return Ok(Outcome::Fault(EvalFault::NoMapping));
    };
    if !has_text(value) {
        return Ok(Outcome::Fault(EvalFault::BadIntrinsic));
    }
    Ok(Outcome::Value(value.clone()?))
}
