// What one stack comes to.
ghost use Rattle.std.specs.Prelude.{◌≡◌, IfOk, map, codes};
ghost use Rattle.serde_json.specs.View.{view};
ghost use Rattle.cdk_eval.specs.Sections.{section as spec_section};
ghost use Rattle.cdk_eval.specs.Stack.{resource_outcomes, output_outcomes, export_entries, stack_outcome, stack_exports};
ghost use Rattle.cdk_eval.specs.Views.{resource_view, output_entry, values_view, stack_view, stack_out_view};
ghost use Rattle.cdk_scopes.specs.Scopes.{scope_view, presence_of, exports_view, IsSound, AreTruths};
ghost use Rattle.cdk_evaluator.specs.Made.{export_pair};

use crate::outputs::{Export, Outputs, outputs_in};
use crate::resources::resources_in;
use cdk_base::{List, Text};
use cdk_conditions::truths_of;
use cdk_eval::{ResourceOut, StackIn, StackOut, Values};
use cdk_scopes::{Exports, Place, Scope, Truths, section};
use std::alloc::{AllocError, Global};

/// A stack's outcome, and the exports that it makes.
#[derive(Drop)]
pub struct Evaluation {
    pub out: StackOut,
    pub exports: List<Export>,
}

fn resources_of(
    alloc: Global,
    scope: &Scope<'_, '_>,
    truths: &Truths<'_>,
) -> Result<List<ResourceOut>, AllocError>
    requires { IsSound scope.now }
    ensures { IfOk result (λ rs. map resource_view rs ≡ resource_outcomes (presence_of truths.now) (scope_view scope.now) (spec_section (codes "Resources") (view scope.now.template.now))) }
{
    match section(scope.template, "Resources") {
        Some(members) => resources_in(alloc, scope, truths, members),
        None => Ok(List::new(alloc)),
    }
}

fn outputs_of(
    alloc: Global,
    scope: &Scope<'_, '_>,
    truths: &Truths<'_>,
) -> Result<Outputs, AllocError>
    requires { IsSound scope.now }
    ensures outputs { IfOk result (λ r. map output_entry r.outputs ≡ output_outcomes (presence_of truths.now) (scope_view scope.now) (spec_section (codes "Outputs") (view scope.now.template.now))) }
    ensures exports { IfOk result (λ r. map export_pair r.exports ≡ export_entries (presence_of truths.now) (scope_view scope.now) (spec_section (codes "Outputs") (view scope.now.template.now))) }
{
    match section(scope.template, "Outputs") {
        Some(members) => outputs_in(alloc, scope, truths, members),
        None => Ok(Outputs {
            outputs: List::new(alloc),
            exports: List::new(alloc),
        }),
    }
}

fn stack_under<'x, 'e>(
    alloc: Global,
    values: &'x Values,
    exports: &'x Exports<'e>,
    truths: &'x Truths<'e>,
    stack: &'x StackIn,
) -> Result<Evaluation, AllocError>
    requires { AreTruths (values_view values.now) stack.now.name (view stack.now.template) truths.now }
    ensures out { IfOk result (λ r. stack_out_view r.out ≡ stack_outcome (values_view values.now) (exports_view exports.now) (stack_view stack.now)) }
    ensures exports { IfOk result (λ r. map export_pair r.exports ≡ stack_exports (values_view values.now) (exports_view exports.now) (stack_view stack.now)) }
{
    let name = Text::new(alloc, stack.name.as_str())?;
    let scope = Scope {
        values,
        stack: stack.name.as_str(),
        template: &stack.template,
        place: Place::Body { truths, exports },
    };
    let resources = resources_of(alloc, &scope, truths)?;
    let Outputs { outputs, exports } = outputs_of(alloc, &scope, truths)?;
    let out = StackOut {
        name,
        resources,
        outputs,
    };
    Ok(Evaluation { out, exports })
}

/// What a stack comes to under the exports that are there before it.
pub fn stack_of<'e>(
    alloc: Global,
    values: &'e Values,
    exports: &Exports<'e>,
    stack: &'e StackIn,
) -> Result<Evaluation, AllocError>
    ensures out { IfOk result (λ r. stack_out_view r.out ≡ stack_outcome (values_view values.now) (exports_view exports.now) (stack_view stack.now)) }
    ensures exports { IfOk result (λ r. map export_pair r.exports ≡ stack_exports (values_view values.now) (exports_view exports.now) (stack_view stack.now)) }
{
    let truths = truths_of(alloc, values, stack.name.as_str(), &stack.template)?;
    stack_under(alloc, values, exports, &truths, stack)
}
