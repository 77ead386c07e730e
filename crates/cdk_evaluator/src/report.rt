// What an assembly comes to.
ghost use Rattle.std.specs.Prelude.{◌≡◌, ℕ, List, IfOk, OnOk, map};
ghost use Rattle.std.specs.Option.{option_or};
ghost use Rattle.cdk_eval.specs.Assembly.{assembly_outcome};
ghost use Rattle.cdk_eval.specs.Stack.{lookup};
ghost use Rattle.cdk_eval.specs.Views.{values_view, assembly_view, report_view};
ghost use Rattle.cdk_scopes.specs.Scopes.{exports_view};
ghost use Rattle.cdk_evaluator.specs.Made.{export_pair};

use crate::literal_names::literal_names;
use crate::outputs::Export;
use crate::stack::{Evaluation, stack_of};
use cdk_base::List;
use cdk_eval::{Assembly, Report, Values};
use cdk_scopes::Exports;
use std::alloc::{AllocError, Global};

fn add_all(alloc: Global, exports: &mut Exports<'_>, made: &[Export]) -> Result<(), AllocError>
    ensures { OnOk result ((e : List ℕ) → exports_view exports.new e ≡ option_or (exports_view exports.old e) (lookup e (map export_pair made.now))) }
{
    for export in made {
        exports.add(alloc, export.name.as_str(), export.text.as_str())?;
    }
    Ok(())
}

/// What an assembly comes to under values from outside: its stacks in order, each under the exports that the stacks
/// before it left. Resources, properties and outputs come by the bytes of their names. A resource that isn't made, or
/// whose presence is a fault, has no properties.
pub fn eval<'x>(
    alloc: Global,
    assembly: &'x Assembly,
    values: &'x Values,
) -> Result<Report, AllocError>
    ensures { IfOk result (λ r. report_view r ≡ assembly_outcome (values_view values.now) (assembly_view assembly.now)) }
{
    let literal = literal_names(alloc, assembly.stacks())?;
    let mut exports = Exports::new(alloc, values, literal);
    let mut stacks = List::new(alloc);
    for stack in assembly.stacks() {
        let Evaluation { out, exports: made } = stack_of(alloc, values, &exports, stack)?;
        stacks.push(out)?;
        add_all(alloc, &mut exports, made.as_slice())?;
    }
    Ok(Report { stacks })
}
