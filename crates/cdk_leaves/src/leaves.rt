// The template JSON of what holds no other value: literals, numbers, pseudo parameters, references, and lazies by what is kept.
ghost use Rattle.std.specs.Prelude.{◌≡◌, ◌++◌, codes, IfOk, OnOk};
ghost use Rattle.serde_json.specs.Data.{string};
ghost use Rattle.serde_json.specs.Find.{as_integer};
ghost use Rattle.serde_json.specs.View.{view, number_view};
ghost use Rattle.cdk_expansion.specs.Expanded.{pseudo_of};
ghost use Rattle.cdk_leaves.specs.Kept.{results_in};
ghost use Rattle.cdk_leaves.specs.Lazies.{lazy_missing, shown};
ghost use Rattle.cdk_leaves.specs.Numbers.{number_json};
ghost use Rattle.cdk_leaves.specs.Views.{scope_view};
ghost use Rattle.cdk_markers.specs.Key.{text_marker as marker_in};
ghost use Rattle.cdk_plain.specs.Plain.{pseudo_name as spec_pseudo_name};
ghost use Rattle.cdk_plain.specs.Rendered.{one, ref_json};

use crate::results::Results;
use crate::scope::Scope;
use cdk_base::Value;
use cdk_language::Pseudo;
use cdk_markers::text_marker;
use cdk_spelling::{reference, reference_to};
use cdk_tree::NodeId;
use serde_json::Number;
use std::alloc::AllocError;

/// The name that a template has for a pseudo parameter.
fn pseudo_name(pseudo: Pseudo) -> &'static str
    ensures { result.now ≡ spec_pseudo_name (pseudo_of pseudo) }
{
    match pseudo {
        Pseudo::AccountId => "AWS::AccountId",
        Pseudo::Partition => "AWS::Partition",
        Pseudo::Region => "AWS::Region",
        Pseudo::StackId => "AWS::StackId",
        Pseudo::StackName => "AWS::StackName",
        Pseudo::UrlSuffix => "AWS::URLSuffix",
        Pseudo::NoValue => "AWS::NoValue",
    }
}

/// A text as it stands.
pub fn text_value(scope: &Scope<'_>, text: &str) -> Result<Value, AllocError>
    ensures { IfOk result (λ v. view v ≡ string text.now) }
{
    Value::try_from_str(scope.alloc, text)
}

/// The marker of a key, which stands for a key that no token has.
pub fn marker_value(scope: &Scope<'_>, key: &str) -> Result<Value, AllocError>
    ensures { IfOk result (λ v. view v ≡ string (marker_in key.now)) }
{
    let marker = text_marker(scope.alloc, key)?;
    text_value(scope, marker.as_str())
}

/// `Ref` of a pseudo parameter (CloudFormation: pseudo parameters).
pub fn pseudo_value(scope: &Scope<'_>, pseudo: Pseudo) -> Result<Value, AllocError>
    ensures { IfOk result (λ v. view v ≡ one (codes "Ref") (string (spec_pseudo_name (pseudo_of pseudo)))) }
{
    reference_to(scope.alloc, pseudo_name(pseudo))
}

/// A reference to a resource or parameter, as the scope's stack spells it.
pub fn reference_value(scope: &Scope<'_>, at: NodeId) -> Result<Value, AllocError>
    ensures { IfOk result (λ v. view v ≡ ref_json ((scope_view scope.now).homes.target at)) }
{
    reference(scope.alloc, scope.homes, scope.consumer, at)
}

/// A whole number. One that isn't whole is refused before, and stands for an empty text here. One that isn't within 64 bits has
/// no place in a `Value`, and ends like want of memory: no document has one.
pub fn number_value(scope: &Scope<'_>, number: &Number) -> Result<Value, AllocError>
    ensures { IfOk result (λ v. view v ≡ number_json (as_integer (number_view number.now))) }
{
    let Some(whole) = number.as_i128() else {
        return text_value(scope, "");
    };
    match Number::from_i128(whole) {
        Some(number) => Ok(Value::Number(number)),
        None => Err(AllocError),
    }
}

/// The JSON of a lazy, of which the kept result is copied; one that isn't kept is noted, and an empty text stands for it.
pub fn lazy_json(
    scope: &Scope<'_>,
    kept: &Results,
    lazy: NodeId,
    missing: &mut Vec<NodeId>,
) -> Result<Value, AllocError>
    ensures json { IfOk result (λ v. view v ≡ shown (results_in kept.now) lazy) }
    ensures missing { OnOk result (missing.new.items ≡ missing.old.items ++ lazy_missing (results_in kept.now lazy) lazy) }
{
    match kept.get(lazy) {
        Some(value) => value.clone(),
        None => {
            missing.push(lazy)?;
            text_value(scope, "")
        }
    }
}
