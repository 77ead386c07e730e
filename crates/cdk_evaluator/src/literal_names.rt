// The literal names of exports in the templates of an assembly.
ghost use Rattle.std.specs.Prelude.{◌≡◌, ◌||◌, ℕ, List, [], IfOk, OnOk, map, filter_map, option_map, codes};
ghost use Rattle.std.specs.List.{cons_option};
ghost use Rattle.serde_json.specs.View.{view, members_view};
ghost use Rattle.cdk_eval.specs.Assembly.{entries, literal_name as spec_literal_name, literal_names as spec_literal_names};
ghost use Rattle.cdk_eval.specs.Reach.{is_among};
ghost use Rattle.cdk_eval.specs.Sections.{section as spec_section};
ghost use Rattle.cdk_eval.specs.Views.{stack_view};
ghost use Rattle.cdk_scopes.specs.Scopes.{has_name};

use cdk_base::{Map, Value};
use cdk_eval::StackIn;
use cdk_scopes::{NameSet, section};
use std::alloc::{AllocError, Global};

fn literal_name(output: &Value) -> Option<&str>
    ensures { option_map (λ s. s.now) result ≡ spec_literal_name (view output.now) }
{
    output.get("Export")?.get("Name")?.as_str()
}

fn put_name<'a>(names: &mut NameSet<'a>, output: &'a Value) -> Result<(), AllocError>
    ensures { OnOk result ((e : List ℕ) → has_name names.new e ≡ has_name names.old e || is_among e (cons_option (spec_literal_name (view output.now)) [])) }
{
    match literal_name(output) {
        Some(name) => {
            names.put(name)?;
            Ok(())
        }
        None => Ok(()),
    }
}

fn put_names<'a>(names: &mut NameSet<'a>, outputs: &'a Map) -> Result<(), AllocError>
    ensures { OnOk result ((e : List ℕ) → has_name names.new e ≡ has_name names.old e || is_among e (filter_map spec_literal_name (entries (members_view outputs.now.entries)))) }
{
    for (_, output) in outputs.iter() {
        put_name(names, output)?;
    }
    Ok(())
}

fn put_names_of<'a>(names: &mut NameSet<'a>, template: &'a Value) -> Result<(), AllocError>
    ensures { OnOk result ((e : List ℕ) → has_name names.new e ≡ has_name names.old e || is_among e (filter_map spec_literal_name (entries (spec_section (codes "Outputs") (view template.now))))) }
{
    match section(template, "Outputs") {
        Some(outputs) => put_names(names, outputs),
        None => Ok(()),
    }
}

/// The literal export names of the stacks, also those of outputs that aren't made.
pub fn literal_names<'a>(alloc: Global, stacks: &'a [StackIn]) -> Result<NameSet<'a>, AllocError>
    ensures { IfOk result (λ names. (e : List ℕ) → has_name names e ≡ is_among e (spec_literal_names (map stack_view stacks.now))) }
{
    let mut names = NameSet::new(alloc);
    for stack in stacks {
        put_names_of(&mut names, &stack.template)?;
    }
    Ok(names)
}
