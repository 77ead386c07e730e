// What the outputs of a stack come to, and the exports that they make.
ghost use Rattle.std.specs.Prelude.{◌≡◌, ◌++◌, ◌∷◌, [], ℕ, List, OnOk, IfOk, map, option_map, option_and_then, codes};
ghost use Rattle.serde_json.specs.Find.{get};
ghost use Rattle.serde_json.specs.View.{view, members_view};
ghost use Rattle.cdk_eval.specs.Stack.{output_value as spec_output_value, export_name as spec_export_name, value_and_name, output_at, output_outcomes, export_entry, export_entries, text_outcome};
ghost use Rattle.cdk_eval.specs.Template.{outcome};
ghost use Rattle.cdk_eval.specs.Views.{output_view, output_entry};
ghost use Rattle.cdk_intrinsics.specs.Forms.{told};
ghost use Rattle.cdk_scopes.specs.Scopes.{scope_view, presence_of, IsSound};
ghost use Rattle.cdk_evaluator.specs.Made.{named_entry, export_pair};

use cdk_base::{List, Map, Text, Value};
use cdk_eval::{EvalFault, OutputOut, OutputOutcome, Truth};
use cdk_intrinsics::{outcome_of, text_in};
use cdk_scopes::{Scope, Truths, presence};
use std::alloc::{AllocError, Global};

/// An export: its name and its text.
#[derive(Drop)]
pub struct Export {
    pub name: Text,
    pub text: Text,
}

/// An output's outcome, with the name of its export where it makes one.
#[derive(Drop)]
struct Evaluated {
    outcome: OutputOutcome,
    export: Option<Text>,
}

/// The outputs of a stack, and the exports that they make.
#[derive(Drop)]
pub struct Outputs {
    pub outputs: List<OutputOut>,
    pub exports: List<Export>,
}

fn text_of_value(
    alloc: Global,
    scope: &Scope<'_, '_>,
    value: &Value,
) -> Result<Result<Text, EvalFault>, AllocError>
    requires { IsSound scope.now }
    ensures { IfOk result (λ t. told t ≡ text_outcome (outcome (scope_view scope.now) (view value.now))) }
{
    let outcome = outcome_of(alloc, scope, value)?;
    text_in(alloc, &outcome)
}

fn output_value(
    alloc: Global,
    scope: &Scope<'_, '_>,
    output: &Value,
) -> Result<Result<Text, EvalFault>, AllocError>
    requires { IsSound scope.now }
    ensures { IfOk result (λ t. told t ≡ spec_output_value (scope_view scope.now) (view output.now)) }
{
    match output.get("Value") {
        Some(value) => text_of_value(alloc, scope, value),
        None => Ok(Err(EvalFault::BadIntrinsic)),
    }
}

fn export_name(output: &Value) -> Option<&Value>
    ensures { option_map (λ v. view v.now) result ≡ option_and_then (get (codes "Name")) (get (codes "Export") (view output.now)) }
{
    match output.get("Export") {
        Some(export) => export.get("Name"),
        None => None,
    }
}

/// An output that is made.
fn made_output(
    alloc: Global,
    scope: &Scope<'_, '_>,
    output: &Value,
) -> Result<Evaluated, AllocError>
    requires { IsSound scope.now }
    ensures outcome { IfOk result (λ r. output_view r.outcome ≡ value_and_name (spec_output_value (scope_view scope.now) (view output.now)) (spec_export_name (scope_view scope.now) (view output.now))) }
    ensures export { IfOk result (λ r. (xs : List (List ℕ × List ℕ)) → export_entry (output_view r.outcome) (spec_export_name (scope_view scope.now) (view output.now)) xs ≡ named_entry (output_view r.outcome) r.export xs) }
{
    let text = match output_value(alloc, scope, output)? {
        Ok(text) => text,
        Err(fault) => {
            return Ok(Evaluated {
                outcome: OutputOutcome::Fault(fault),
                export: None,
            });
        }
    };
    let Some(name) = export_name(output) else {
        return Ok(Evaluated {
            outcome: OutputOutcome::Text(text),
            export: None,
        });
    };
    match text_of_value(alloc, scope, name)? {
        Ok(name) => Ok(Evaluated {
            outcome: OutputOutcome::Text(text),
            export: Some(name),
        }),
        Err(fault) => Ok(Evaluated {
            outcome: OutputOutcome::Fault(fault),
            export: None,
        }),
    }
}

fn output_of(
    alloc: Global,
    scope: &Scope<'_, '_>,
    truths: &Truths<'_>,
    output: &Value,
) -> Result<Evaluated, AllocError>
    requires { IsSound scope.now }
    ensures outcome { IfOk result (λ r. output_view r.outcome ≡ output_at (presence_of truths.now (view output.now)) (scope_view scope.now) (view output.now)) }
    ensures export { IfOk result (λ r. (xs : List (List ℕ × List ℕ)) → export_entry (output_view r.outcome) (spec_export_name (scope_view scope.now) (view output.now)) xs ≡ named_entry (output_view r.outcome) r.export xs) }
{
    match presence(truths, output) {
        Truth::Holds(true) => made_output(alloc, scope, output),
        Truth::Holds(false) => Ok(Evaluated {
            outcome: OutputOutcome::NotMade,
            export: None,
        }),
        Truth::Untold(fault) => Ok(Evaluated {
            outcome: OutputOutcome::Fault(fault),
            export: None,
        }),
    }
}

fn push_export(
    alloc: Global,
    exports: &mut List<Export>,
    outcome: &OutputOutcome,
    name: Option<Text>,
) -> Result<(), AllocError>
    ensures { OnOk result ((xs : List (List ℕ × List ℕ)) → map export_pair exports.new ++ xs ≡ map export_pair exports.old ++ named_entry (output_view outcome.now) name xs) }
{
    let OutputOutcome::Text(text) = outcome else {
        return Ok(());
    };
    let Some(name) = name else {
        return Ok(());
    };
    let text = Text::new(alloc, text.as_str())?;
    exports.push(Export { name, text })
}

/// Adds what an output comes to, and its export.
fn add_output(
    alloc: Global,
    scope: &Scope<'_, '_>,
    truths: &Truths<'_>,
    made: &mut Outputs,
    logical: &str,
    output: &Value,
) -> Result<(), AllocError>
    requires { IsSound scope.now }
    ensures outputs { OnOk result (map output_entry made.new.outputs ≡ map output_entry made.old.outputs ++ (logical.now, output_at (presence_of truths.now (view output.now)) (scope_view scope.now) (view output.now)) ∷ []) }
    ensures exports { OnOk result ((xs : List (List ℕ × List ℕ)) → map export_pair made.new.exports ++ xs ≡ map export_pair made.old.exports ++ export_entry (output_at (presence_of truths.now (view output.now)) (scope_view scope.now) (view output.now)) (spec_export_name (scope_view scope.now) (view output.now)) xs) }
{
    let logical = Text::new(alloc, logical)?;
    let Evaluated { outcome, export } = output_of(alloc, scope, truths, output)?;
    push_export(alloc, &mut made.exports, &outcome, export)?;
    made.outputs.push(OutputOut { logical, outcome })
}

/// The outputs of a section by the bytes of their logical names, and their exports in that order.
pub fn outputs_in(
    alloc: Global,
    scope: &Scope<'_, '_>,
    truths: &Truths<'_>,
    members: &Map,
) -> Result<Outputs, AllocError>
    requires { IsSound scope.now }
    ensures outputs { IfOk result (λ r. map output_entry r.outputs ≡ output_outcomes (presence_of truths.now) (scope_view scope.now) (members_view members.now.entries)) }
    ensures exports { IfOk result (λ r. map export_pair r.exports ≡ export_entries (presence_of truths.now) (scope_view scope.now) (members_view members.now.entries)) }
{
    let mut made = Outputs {
        outputs: List::new(alloc),
        exports: List::new(alloc),
    };
    for (logical, output) in members.iter() {
        add_output(alloc, scope, truths, &mut made, logical.as_str(), output)?;
    }
    Ok(made)
}
