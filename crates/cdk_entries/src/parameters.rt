// What stands in a template for a parameter.
ghost use Rattle.std.specs.Prelude.{◌≡◌, IfOk, OnOk};
ghost use Rattle.serde_json.specs.Data.{no_members, object};
ghost use Rattle.serde_json.specs.View.{members_view, view};
ghost use Rattle.cdk_language.specs.Construct.{parameter_view};
ghost use Rattle.cdk_entries.specs.Entries.{form_name as spec_form_name, parameter_entry as spec_parameter_entry};

use crate::members::{put_text, put_text_given};
use cdk_base::{Map, Value};
use cdk_language::{Parameter, ParameterForm};
use std::alloc::{AllocError, Global};

fn form_name(form: ParameterForm) -> &'static str
    ensures { result.now ≡ spec_form_name form }
{
    match form {
        ParameterForm::Text => "String",
        ParameterForm::Number => "Number",
        ParameterForm::List => "CommaDelimitedList",
    }
}

/// Puts the members of a parameter's entry in.
fn put_parameter(entry: &mut Map, alloc: Global, parameter: &Parameter) -> Result<(), AllocError>
    requires empty { members_view entry.old.entries ≡ no_members }
    ensures { OnOk result (object (members_view entry.new.entries) ≡ spec_parameter_entry (parameter_view parameter.now)) }
{
    put_text(entry, alloc, "Type", form_name(parameter.form))?;
    put_text_given(entry, alloc, "Description", &parameter.description)?;
    put_text_given(entry, alloc, "Default", &parameter.default)
}

/// The entry of a parameter.
pub(crate) fn parameter_entry(alloc: Global, parameter: &Parameter) -> Result<Value, AllocError>
    ensures { IfOk result (λ v. view v ≡ spec_parameter_entry (parameter_view parameter.now)) }
{
    let mut entry = Map::new(alloc);
    put_parameter(&mut entry, alloc, parameter)?;
    Ok(Value::Object(entry))
}
