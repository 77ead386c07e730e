// The lines of a report, appended to one text.
ghost use Rattle.std.specs.Prelude.{◌≡◌, ◌++◌, IfOk, OnOk, map, string_bytes};
ghost use Rattle.json.specs.Print.{quoted};
ghost use Rattle.cdk_names.specs.Forms.{is_logical as spec_is_logical, is_stack_name as spec_is_stack_name};
ghost use Rattle.cdk_eval.specs.Views.{made_view, property_view, resource_view, output_entry, outcome_view, output_view, stack_out_view, report_view};
ghost use Rattle.cdk_eval.specs.Stack.{properties_of};
ghost use Rattle.cdk_printing.specs.Lines.{name_text, fault_end, outcome_end, presence_end, output_end, property_line, property_lines, resource_line, resource_text, resource_texts, output_line, output_lines, stack_line, stack_text, report_text as spec_report_text};
ghost use Rattle.cdk_printing.specs.Printable.{OutcomeIsPrintable, PropertiesArePrintable, ResourcesArePrintable, IsPrintable};

use cdk_base::{Text, json_text};
use cdk_eval::{
    EvalFault, Made, Outcome, OutputOut, OutputOutcome, PropertyOut, Report, ResourceOut, StackOut,
};
use cdk_names::{is_logical, is_stack_name};
use std::alloc::{AllocError, Global};

// ---- names and ends of lines

fn push_json(alloc: Global, lines: &mut String, text: &str) -> Result<(), AllocError>
    ensures { OnOk result (string_bytes lines.new ≡ string_bytes lines.old ++ quoted text.now) }
{
    let quoted = json_text(alloc, text)?;
    lines.push_str(quoted.as_str())
}

/// A name as it stands where its form leaves it no way to forge a line, else its JSON text.
fn push_name(
    alloc: Global,
    lines: &mut String,
    is_plain: bool,
    name: &str,
) -> Result<(), AllocError>
    ensures { OnOk result (string_bytes lines.new ≡ string_bytes lines.old ++ name_text is_plain name.now) }
{
    if is_plain {
        return lines.push_str(name);
    }
    push_json(alloc, lines, name)
}

fn push_fault(lines: &mut String, fault: EvalFault) -> Result<(), AllocError>
    ensures { OnOk result (string_bytes lines.new ≡ string_bytes lines.old ++ fault_end fault) }
{
    lines.push_str(" ! ")?;
    lines.push_str(fault.name())
}

fn push_outcome(alloc: Global, lines: &mut String, outcome: &Outcome) -> Result<(), AllocError>
    requires { OutcomeIsPrintable (outcome_view outcome.now) }
    ensures { OnOk result (string_bytes lines.new ≡ string_bytes lines.old ++ outcome_end (outcome_view outcome.now)) }
{
    match outcome {
        Outcome::Value(value) => {
            let text = value.to_string(alloc)?;
            lines.push_str(" = ")?;
            lines.push_str(text.as_str())
        }
        Outcome::Gone => lines.push_str(" gone"),
        Outcome::Fault(fault) => push_fault(lines, *fault),
    }
}

fn push_presence(lines: &mut String, made: Made) -> Result<(), AllocError>
    ensures { OnOk result (string_bytes lines.new ≡ string_bytes lines.old ++ presence_end (made_view made)) }
{
    match made {
        Made::Made => Ok(()),
        Made::NotMade => lines.push_str(" not made"),
        Made::Fault(fault) => push_fault(lines, fault),
    }
}

fn push_output_end(
    alloc: Global,
    lines: &mut String,
    outcome: &OutputOutcome,
) -> Result<(), AllocError>
    ensures { OnOk result (string_bytes lines.new ≡ string_bytes lines.old ++ output_end (output_view outcome.now)) }
{
    match outcome {
        OutputOutcome::Text(text) => {
            lines.push_str(" = ")?;
            push_json(alloc, lines, text.as_str())
        }
        OutputOutcome::NotMade => lines.push_str(" not made"),
        OutputOutcome::Fault(fault) => push_fault(lines, *fault),
    }
}

// ---- lines

fn push_property(
    alloc: Global,
    lines: &mut String,
    property: &PropertyOut,
) -> Result<(), AllocError>
    requires { OutcomeIsPrintable (outcome_view property.now.outcome) }
    ensures { OnOk result (string_bytes lines.new ≡ string_bytes lines.old ++ property_line (property_view property.now)) }
{
    lines.push_str("  ")?;
    push_json(alloc, lines, property.key.as_str())?;
    push_outcome(alloc, lines, &property.outcome)?;
    lines.push_str("\n")
}

fn push_properties(
    alloc: Global,
    lines: &mut String,
    properties: &[PropertyOut],
) -> Result<(), AllocError>
    requires { PropertiesArePrintable (map property_view properties.now) }
    ensures { OnOk result (string_bytes lines.new ≡ string_bytes lines.old ++ property_lines (map property_view properties.now)) }
{
    for property in properties {
        push_property(alloc, lines, property)?;
    }
    Ok(())
}

fn push_resource_line(
    alloc: Global,
    lines: &mut String,
    resource: &ResourceOut,
) -> Result<(), AllocError>
    ensures { OnOk result (string_bytes lines.new ≡ string_bytes lines.old ++ resource_line (resource_view resource.now)) }
{
    let logical = resource.logical.as_str();
    lines.push_str("resource ")?;
    push_name(alloc, lines, is_logical(logical), logical)?;
    push_presence(lines, resource.made)?;
    lines.push_str("\n")
}

fn push_resource(
    alloc: Global,
    lines: &mut String,
    resource: &ResourceOut,
) -> Result<(), AllocError>
    requires { PropertiesArePrintable (properties_of (made_view resource.now.made) (map property_view resource.now.properties)) }
    ensures { OnOk result (string_bytes lines.new ≡ string_bytes lines.old ++ resource_text (resource_view resource.now)) }
{
    push_resource_line(alloc, lines, resource)?;
    match resource.made {
        Made::Made => push_properties(alloc, lines, resource.properties.as_slice()),
        Made::NotMade => Ok(()),
        Made::Fault(_) => Ok(()),
    }
}

fn push_resources(
    alloc: Global,
    lines: &mut String,
    resources: &[ResourceOut],
) -> Result<(), AllocError>
    requires { ResourcesArePrintable (map resource_view resources.now) }
    ensures { OnOk result (string_bytes lines.new ≡ string_bytes lines.old ++ resource_texts (map resource_view resources.now)) }
{
    for resource in resources {
        push_resource(alloc, lines, resource)?;
    }
    Ok(())
}

fn push_output(alloc: Global, lines: &mut String, output: &OutputOut) -> Result<(), AllocError>
    ensures { OnOk result (string_bytes lines.new ≡ string_bytes lines.old ++ output_line (output_entry output.now)) }
{
    let logical = output.logical.as_str();
    lines.push_str("output ")?;
    push_name(alloc, lines, is_logical(logical), logical)?;
    push_output_end(alloc, lines, &output.outcome)?;
    lines.push_str("\n")
}

fn push_outputs(alloc: Global, lines: &mut String, outputs: &[OutputOut]) -> Result<(), AllocError>
    ensures { OnOk result (string_bytes lines.new ≡ string_bytes lines.old ++ output_lines (map output_entry outputs.now)) }
{
    for output in outputs {
        push_output(alloc, lines, output)?;
    }
    Ok(())
}

fn push_stack_line(alloc: Global, lines: &mut String, name: &str) -> Result<(), AllocError>
    ensures { OnOk result (string_bytes lines.new ≡ string_bytes lines.old ++ stack_line name.now) }
{
    lines.push_str("stack ")?;
    push_name(alloc, lines, is_stack_name(name), name)?;
    lines.push_str("\n")
}

fn push_stack(alloc: Global, lines: &mut String, stack: &StackOut) -> Result<(), AllocError>
    requires { ResourcesArePrintable (map resource_view stack.now.resources) }
    ensures { OnOk result (string_bytes lines.new ≡ string_bytes lines.old ++ stack_text (stack_out_view stack.now)) }
{
    push_stack_line(alloc, lines, stack.name.as_str())?;
    push_resources(alloc, lines, stack.resources.as_slice())?;
    push_outputs(alloc, lines, stack.outputs.as_slice())
}

/// The lines of a report, each with a line feed at its end: its stacks in their order, each with its resources, their
/// properties, and its outputs. Stack names and logical names stand as they are where they have their form, and all
/// other names are JSON texts. The only error is that of memory.
pub fn report_text(alloc: Global, report: &Report) -> Result<Text, AllocError>
    requires { IsPrintable (report_view report.now) }
    ensures { IfOk result (λ text. text ≡ spec_report_text (report_view report.now)) }
{
    let mut lines = String::new(alloc);
    for stack in report.stacks.as_slice() {
        push_stack(alloc, &mut lines, stack)?;
    }
    Ok(Text::from_string(lines))
}
