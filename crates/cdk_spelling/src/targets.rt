// Targets, conditions and mappings, as a consuming stack spells them.
ghost use Rattle.std.specs.Prelude.{◌≡◌, IfOk};
ghost use Rattle.serde_json.specs.View.{view};
ghost use Rattle.cdk_homes.specs.Homes.{spelled as spec_spelled};
ghost use Rattle.cdk_homes.specs.Kept.{entries_in};
ghost use Rattle.cdk_plain.specs.Rendered.{attribute_json, ref_json};
ghost use Rattle.cdk_spelling.specs.Spelled.{home_of, home_view, homes_for};

use crate::functions::{attribute_of, import_list, import_value, reference_to};
use cdk_base::{Text, Value};
use cdk_homes::{Homes, Spelling, Target};
use cdk_tree::NodeId;
use std::alloc::{AllocError, Global};

/// How the target is spelled, or the empty name where it was never put.
fn spelled<'a>(homes: &'a Homes, consumer: NodeId, target: &Target) -> Spelling<'a>
    ensures { home_view result ≡ home_of (spec_spelled (entries_in homes.now) consumer target.now.at target.now.attribute) }
{
    match homes.spell(target, consumer) {
        Some(spelling) => spelling,
        None => Spelling::Local(""),
    }
}

fn spelled_reference(alloc: Global, spelling: Spelling<'_>) -> Result<Value, AllocError>
    ensures { IfOk result (λ v. view v ≡ ref_json (home_view spelling.entry)) }
{
    match spelling {
        Spelling::Local(name) => reference_to(alloc, name),
        Spelling::Import(export) => import_value(alloc, export),
        Spelling::ImportList(export) => import_list(alloc, export),
    }
}

fn spelled_attribute(
    alloc: Global,
    spelling: Spelling<'_>,
    attribute: &str,
) -> Result<Value, AllocError>
    ensures { IfOk result (λ v. view v ≡ attribute_json attribute.now (home_view spelling.entry)) }
{
    match spelling {
        Spelling::Local(name) => attribute_of(alloc, name, attribute),
        Spelling::Import(export) => import_value(alloc, export),
        Spelling::ImportList(export) => import_list(alloc, export),
    }
}

/// A reference to a resource or parameter, for a consuming stack: `Ref` of its logical name there, or the import of an
/// export, cut at each `||` where it holds a list (CloudFormation: Ref, Fn::ImportValue; own). What was never put for the
/// stack is `Ref` of the empty name.
///
/// It answers `AllocError` where no memory is found.
pub fn reference(
    alloc: Global,
    homes: &Homes,
    consumer: NodeId,
    at: NodeId,
) -> Result<Value, AllocError>
    ensures { IfOk result (λ v. view v ≡ ref_json ((homes_for (entries_in homes.now) consumer).target at)) }
{
    let target = Target {
        at,
        attribute: None,
    };
    let spelling = spelled(homes, consumer, &target);
    spelled_reference(alloc, spelling)
}

/// An attribute of a resource, for a consuming stack: `Fn::GetAtt` of its logical name there, or the import of an export, cut
/// at each `||` where it holds a list (CloudFormation: Fn::GetAtt, Fn::ImportValue; own). What was never put for the stack is
/// `Fn::GetAtt` of the empty name.
///
/// It answers `AllocError` where no memory is found.
pub fn attribute(
    alloc: Global,
    homes: &Homes,
    consumer: NodeId,
    at: NodeId,
    attribute: &str,
) -> Result<Value, AllocError>
    ensures { IfOk result (λ v. view v ≡ attribute_json attribute.now ((homes_for (entries_in homes.now) consumer).attribute at attribute.now)) }
{
    let text = Text::new(alloc, attribute)?;
    let target = Target {
        at,
        attribute: Some(text),
    };
    let spelling = spelled(homes, consumer, &target);
    spelled_attribute(alloc, spelling, attribute)
}

/// The logical name of a condition or mapping in a stack. Empty where none was put. It takes no memory.
pub fn name<'a>(homes: &'a Homes, consumer: NodeId, at: NodeId) -> &'a str
    ensures { result.now ≡ (homes_for (entries_in homes.now) consumer).condition at }
{
    let target = Target {
        at,
        attribute: None,
    };
    match homes.spell(&target, consumer) {
        Some(Spelling::Local(name)) => name,
        Some(Spelling::Import(name)) => name,
        Some(Spelling::ImportList(name)) => name,
        None => "",
    }
}
