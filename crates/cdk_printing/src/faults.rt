// Whether a report has a fault.
ghost use Rattle.std.specs.Prelude.{◌≡◌, map};
ghost use Rattle.cdk_eval.specs.Stack.{properties_of};
ghost use Rattle.cdk_eval.specs.Views.{made_view, property_view, resource_view, output_entry, outcome_view, output_view, stack_out_view, report_view};
ghost use Rattle.cdk_printing.specs.Lines.{is_fault as spec_is_fault, is_output_fault as spec_is_output_fault, properties_have_fault as spec_properties_have_fault, resource_has_fault as spec_resource_has_fault, resources_have_fault as spec_resources_have_fault, outputs_have_fault as spec_outputs_have_fault, stack_has_fault as spec_stack_has_fault, has_fault as spec_has_fault};

use cdk_eval::{
    Made, Outcome, OutputOut, OutputOutcome, PropertyOut, Report, ResourceOut, StackOut,
};

fn is_fault(outcome: &Outcome) -> bool
    ensures { result ≡ spec_is_fault (outcome_view outcome.now) }
{
    match outcome {
        Outcome::Value(_) => false,
        Outcome::Gone => false,
        Outcome::Fault(_) => true,
    }
}

fn is_output_fault(outcome: &OutputOutcome) -> bool
    ensures { result ≡ spec_is_output_fault (output_view outcome.now) }
{
    match outcome {
        OutputOutcome::Text(_) => false,
        OutputOutcome::NotMade => false,
        OutputOutcome::Fault(_) => true,
    }
}

fn properties_have_fault(properties: &[PropertyOut]) -> bool
    ensures { result ≡ spec_properties_have_fault (map property_view properties.now) }
{
    for property in properties {
        if is_fault(&property.outcome) {
            return true;
        }
    }
    false
}

fn outputs_have_fault(outputs: &[OutputOut]) -> bool
    ensures { result ≡ spec_outputs_have_fault (map output_entry outputs.now) }
{
    for output in outputs {
        if is_output_fault(&output.outcome) {
            return true;
        }
    }
    false
}

fn resource_has_fault(resource: &ResourceOut) -> bool
    ensures { result ≡ spec_resource_has_fault (resource_view resource.now) }
{
    match resource.made {
        Made::Made => properties_have_fault(resource.properties.as_slice()),
        Made::NotMade => false,
        Made::Fault(_) => true,
    }
}

fn resources_have_fault(resources: &[ResourceOut]) -> bool
    ensures { result ≡ spec_resources_have_fault (map resource_view resources.now) }
{
    for resource in resources {
        if resource_has_fault(resource) {
            return true;
        }
    }
    false
}

fn stack_has_fault(stack: &StackOut) -> bool
    ensures { result ≡ spec_stack_has_fault (stack_out_view stack.now) }
{
    if resources_have_fault(stack.resources.as_slice()) {
        return true;
    }
    outputs_have_fault(stack.outputs.as_slice())
}

/// Whether a line that is printed of the report ends in a fault: of a resource's presence, of a property of a resource
/// that is made, or of an output.
pub fn has_fault(report: &Report) -> bool
    ensures { result ≡ spec_has_fault (report_view report.now) }
{
    for stack in report.stacks.as_slice() {
        if stack_has_fault(stack) {
            return true;
        }
    }
    false
}
