// What stands in a template for an output.
ghost use Rattle.std.specs.Prelude.{◌≡◌, codes, option_map, OnOk};
ghost use Rattle.serde_json.specs.Data.{no_members};
ghost use Rattle.serde_json.specs.View.{members_view, view};
ghost use Rattle.cdk_language.specs.Construct.{output_view};
ghost use Rattle.cdk_entries.specs.Entries.{export_name as spec_export_name, output_with};
ghost use Rattle.cdk_entries.specs.Members.{put_given};
ghost use Rattle.cdk_entries.specs.Naming.{IsNamed, constructs_in, named_at};

use crate::members::{put_object_of_text, put_text_given};
use crate::naming::{Named, put_condition};
use cdk_base::{Map, Text, Value};
use cdk_language::Output;
use serde_json::put;
use std::alloc::{AllocError, Global};

fn put_export(members: &mut Map, alloc: Global, name: &Option<Text>) -> Result<(), AllocError>
    ensures { OnOk result (members_view members.new.entries ≡ put_given (codes "Export") (option_map spec_export_name name.now) (members_view members.old.entries)) }
{
    match name {
        Some(name) => put_object_of_text(members, alloc, "Export", "Name", name.as_str()),
        None => Ok(()),
    }
}

/// Puts the members of an output's entry in, with its value as it is rendered.
pub fn put_output(
    entry: &mut Map,
    named: &Named<'_>,
    output: &Output,
    value: Value,
) -> Result<(), AllocError>
    requires named { IsNamed named.now }
    requires empty { members_view entry.old.entries ≡ no_members }
    ensures { OnOk result (members_view entry.new.entries ≡ output_with (named_at (constructs_in named.now)) (output_view output.now) (view value)) }
{
    let alloc = named.alloc;
    put(entry, alloc, "Value", value)?;
    put_export(entry, alloc, &output.export)?;
    put_text_given(entry, alloc, "Description", &output.description)?;
    put_condition(entry, named, &output.condition)
}
