// What is kept of a group of conditions at which no name waits.
ghost use Rattle.std.specs.Prelude.{◌≡◌, true, Some, OnOk};
ghost use Rattle.serde_json.specs.Find.{get_member};
ghost use Rattle.serde_json.specs.View.{view, members_view};
ghost use Rattle.cdk_eval.specs.Template.{outcome};
ghost use Rattle.cdk_eval.specs.Views.{truth_view};
ghost use Rattle.cdk_scopes.specs.Scopes.{scope_view, IsSound};
ghost use Rattle.cdk_conditions.specs.Kept.{texts_of};
ghost use Rattle.cdk_conditions.specs.Closing.{KeepsLoops, KeepsTruth};

use crate::truth::truth_of;
use cdk_base::Value;
use cdk_scopes::{Kept, Scope, Truths};
use std::alloc::{AllocError, Global};

/// Keeps conditions that reach themselves.
pub fn keep_loops<'a>(truths: &mut Truths<'a>, names: &[&'a str]) -> Result<(), AllocError>
    ensures { OnOk result (KeepsLoops (texts_of names.now) truths.old truths.new) }
{
    for name in names {
        truths.keep(name, Kept::looping())?;
    }
    Ok(())
}

/// Evaluates a condition under the truths so far, and keeps its truth.
pub fn keep_truth<'a>(
    alloc: Global,
    scope: &Scope<'_, '_>,
    truths: &mut Truths<'a>,
    name: &'a str,
    condition: &Value,
) -> Result<(), AllocError>
    requires { IsSound scope.now }
    ensures { OnOk result (KeepsTruth (outcome (scope_view scope.now)) name.now (view condition.now) truths.old truths.new) }
{
    let truth = truth_of(alloc, scope, truths, condition)?;
    truths.keep(
        name,
        Kept {
            truth,
            is_loop: false,
        },
    )?;
    Ok(())
}
