// What the resources of a stack come to.
ghost use Rattle.std.specs.Prelude.{◌≡◌, IfOk, map, codes};
ghost use Rattle.serde_json.specs.View.{view, members_view};
ghost use Rattle.cdk_eval.specs.Sections.{section as spec_section};
ghost use Rattle.cdk_eval.specs.Stack.{resource_at, resource_outcomes};
ghost use Rattle.cdk_eval.specs.Template.{each_member};
ghost use Rattle.cdk_eval.specs.Views.{truth_view, made_view, property_view, resource_view};
ghost use Rattle.cdk_scopes.specs.Scopes.{scope_view, presence_of, IsSound};

use cdk_base::{List, Map, Text, Value};
use cdk_eval::{Made, PropertyOut, ResourceOut, Truth};
use cdk_intrinsics::outcome_of;
use cdk_scopes::{Scope, Truths, presence, section};
use std::alloc::{AllocError, Global};

fn made_of(presence: Truth) -> Made
    ensures { made_view result ≡ truth_view presence }
{
    match presence {
        Truth::Holds(true) => Made::Made,
        Truth::Holds(false) => Made::NotMade,
        Truth::Untold(fault) => Made::Fault(fault),
    }
}

fn properties_in(
    alloc: Global,
    scope: &Scope<'_, '_>,
    members: &Map,
) -> Result<List<PropertyOut>, AllocError>
    requires { IsSound scope.now }
    ensures { IfOk result (λ ps. map property_view ps ≡ each_member (scope_view scope.now) (members_view members.now.entries)) }
{
    let mut properties = List::new(alloc);
    for (key, member) in members.iter() {
        let key = Text::new(alloc, key.as_str())?;
        let outcome = outcome_of(alloc, scope, member)?;
        properties.push(PropertyOut { key, outcome })?;
    }
    Ok(properties)
}

fn properties_of(
    alloc: Global,
    scope: &Scope<'_, '_>,
    resource: &Value,
) -> Result<List<PropertyOut>, AllocError>
    requires { IsSound scope.now }
    ensures { IfOk result (λ ps. map property_view ps ≡ each_member (scope_view scope.now) (spec_section (codes "Properties") (view resource.now))) }
{
    match section(resource, "Properties") {
        Some(members) => properties_in(alloc, scope, members),
        None => Ok(List::new(alloc)),
    }
}

fn resource_out(
    alloc: Global,
    scope: &Scope<'_, '_>,
    truths: &Truths<'_>,
    logical: &str,
    resource: &Value,
) -> Result<ResourceOut, AllocError>
    requires { IsSound scope.now }
    ensures { IfOk result (λ r. resource_view r ≡ resource_at (presence_of truths.now (view resource.now)) (scope_view scope.now) logical.now (view resource.now)) }
{
    let logical = Text::new(alloc, logical)?;
    let there = presence(truths, resource);
    let made = made_of(there);
    if let Truth::Holds(true) = there {
        let properties = properties_of(alloc, scope, resource)?;
        return Ok(ResourceOut {
            logical,
            made,
            properties,
        });
    }
    let properties = List::new(alloc);
    Ok(ResourceOut {
        logical,
        made,
        properties,
    })
}

/// The resources of a section, by the bytes of their logical names.
pub fn resources_in(
    alloc: Global,
    scope: &Scope<'_, '_>,
    truths: &Truths<'_>,
    members: &Map,
) -> Result<List<ResourceOut>, AllocError>
    requires { IsSound scope.now }
    ensures { IfOk result (λ rs. map resource_view rs ≡ resource_outcomes (presence_of truths.now) (scope_view scope.now) (members_view members.now.entries)) }
{
    let mut resources = List::new(alloc);
    for (logical, resource) in members.iter() {
        let out = resource_out(alloc, scope, truths, logical.as_str(), resource)?;
        resources.push(out)?;
    }
    Ok(resources)
}
