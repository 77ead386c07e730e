// What only the constructs of a kind have.
ghost use Rattle.std.specs.Prelude.{◌≡◌, IfOk, option_and_then};
ghost use Rattle.serde_json.specs.Find.{as_object};
ghost use Rattle.serde_json.specs.View.{view as json_view, members_view};
ghost use Rattle.cdk_language.specs.Application.{parameter_form_of as parameter_form_named, properties_of as properties_in, resource_in as resource_in_members, parameter_in as parameter_in_members, output_in as output_in_members, body_in as body_in_members, expression_of as expression_in, condition_of as condition_in};
ghost use Rattle.cdk_language.specs.Condition as condition;
ghost use Rattle.cdk_language.specs.Construct.{kind_view};
ghost use Rattle.cdk_language.specs.Expression.{view};
ghost use Rattle.cdk_members.specs.Gives.{Gives};
ghost use Rattle.cdk_members.specs.Views.{data_view};
ghost use Rattle.cdk_constructs.specs.Bodies.{body_by};
ghost use Rattle.cdk_constructs.specs.Views.{map_view};

use cdk_base::{List, Map, Text, Value};
use cdk_expressions::{fields_of, read_condition, read_expression};
use cdk_language::{Cond, Expr, Kind, KindName, Output, Parameter, ParameterForm, Resource};
use cdk_members::{ReadError, kind_named, member, optional_text, policies_of, text_at};
use cdk_substitution::Copies;
use std::alloc::Global;

fn parameter_form_of(name: &str) -> Option<ParameterForm>
    ensures { result ≡ parameter_form_named name.now }
{
    if name == "String" {
        return Some(ParameterForm::Text);
    }
    if name == "Number" {
        return Some(ParameterForm::Number);
    }
    if name == "CommaDelimitedList" {
        return Some(ParameterForm::List);
    }
    None
}

/// The properties of a resource: none where none are given.
fn properties_of(
    alloc: Global,
    copies: &mut Copies,
    value: Option<&Value>,
) -> Result<Expr, ReadError>
    ensures { Gives view result (properties_in (data_view value.entry)) }
{
    let Some(value) = value else {
        return Ok(Expr::Object(List::new(alloc)));
    };
    match value.as_object() {
        Some(members) => Ok(Expr::Object(fields_of(alloc, copies, members)?)),
        None => Err(ReadError::Shape),
    }
}

fn expression_at(
    alloc: Global,
    copies: &mut Copies,
    value: Option<&Value>,
) -> Result<Expr, ReadError>
    ensures { Gives view result (option_and_then expression_in (data_view value.entry)) }
{
    match value {
        Some(value) => read_expression(alloc, copies, value),
        None => Err(ReadError::Shape),
    }
}

fn condition_at(
    alloc: Global,
    copies: &mut Copies,
    value: Option<&Value>,
) -> Result<Cond, ReadError>
    ensures { Gives condition.view result (option_and_then condition_in (data_view value.entry)) }
{
    match value {
        Some(value) => read_condition(alloc, copies, value),
        None => Err(ReadError::Shape),
    }
}

fn mappings_at(value: Option<&Value>) -> Result<Map, ReadError>
    ensures { Gives map_view result (option_and_then as_object (data_view value.entry)) }
{
    let Some(value) = value else {
        return Err(ReadError::Shape);
    };
    match value.clone()? {
        Value::Object(mappings) => Ok(mappings),
        _ => Err(ReadError::Shape),
    }
}

fn resource_in(alloc: Global, copies: &mut Copies, members: &Map) -> Result<Kind, ReadError>
    ensures { Gives kind_view result (resource_in_members (members_view members.now.entries)) }
{
    let Some(name) = text_at(members, "type") else {
        return Err(ReadError::Shape);
    };
    let resource_type = Text::new(alloc, name)?;
    let condition = optional_text(alloc, members, "condition")?;
    let properties = properties_of(alloc, copies, member(members, "properties"))?;
    let policies = policies_of(members);
    Ok(Kind::Resource(Resource {
        resource_type,
        properties,
        condition,
        deletion: policies.deletion,
        replace: policies.replace,
    }))
}

fn parameter_in(alloc: Global, members: &Map) -> Result<Kind, ReadError>
    ensures { Gives kind_view result (parameter_in_members (members_view members.now.entries)) }
{
    let Some(name) = text_at(members, "type") else {
        return Err(ReadError::Shape);
    };
    let Some(form) = parameter_form_of(name) else {
        return Err(ReadError::Shape);
    };
    let default = optional_text(alloc, members, "default")?;
    let description = optional_text(alloc, members, "description")?;
    Ok(Kind::Parameter(Parameter {
        form,
        default,
        description,
    }))
}

fn output_in(alloc: Global, copies: &mut Copies, members: &Map) -> Result<Kind, ReadError>
    ensures { Gives kind_view result (output_in_members (members_view members.now.entries)) }
{
    let description = optional_text(alloc, members, "description")?;
    let export = optional_text(alloc, members, "exportName")?;
    let condition = optional_text(alloc, members, "condition")?;
    let value = expression_at(alloc, copies, member(members, "value"))?;
    Ok(Kind::Output(Output {
        value,
        description,
        export,
        condition,
    }))
}

fn body_of(
    alloc: Global,
    copies: &mut Copies,
    members: &Map,
    kind: KindName,
) -> Result<Kind, ReadError>
    ensures { Gives kind_view result (body_by (members_view members.now.entries) kind) }
{
    match kind {
        KindName::Stage => Ok(Kind::Stage),
        KindName::Stack => {
            let description = optional_text(alloc, members, "description")?;
            Ok(Kind::Stack { description })
        }
        KindName::Group => Ok(Kind::Group),
        KindName::Resource => resource_in(alloc, copies, members),
        KindName::Parameter => parameter_in(alloc, members),
        KindName::Condition => {
            Ok(Kind::Condition(condition_at(alloc, copies, member(members, "expression"))?))
        }
        KindName::Mapping => Ok(Kind::Mapping(mappings_at(member(members, "mappings"))?)),
        KindName::Output => output_in(alloc, copies, members),
        KindName::Lazy => Ok(Kind::Lazy(expression_at(alloc, copies, member(members, "value"))?)),
    }
}

/// What a construct of the kind of the name is.
pub fn kind_of(
    alloc: Global,
    copies: &mut Copies,
    members: &Map,
    kind: &str,
) -> Result<Kind, ReadError>
    ensures { Gives kind_view result (body_in_members (members_view members.now.entries) kind.now) }
{
    match kind_named(kind) {
        Some(kind) => body_of(alloc, copies, members, kind),
        None => Err(ReadError::Shape),
    }
}
