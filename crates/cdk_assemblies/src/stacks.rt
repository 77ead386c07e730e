// The templates of a manifest's own stacks.
ghost use Rattle.std.specs.Prelude.{◌≡◌, ◌≤◌, [], ◌∷◌, ◌++◌, map, IfErr, OnOk};
ghost use Rattle.cdk_eval.specs.declared.assembly.AsmError.TheVariants.{Memory};
ghost use Rattle.serde_json.specs.View.{view};
ghost use Rattle.cdk_eval.specs.Views.{stack_view};
ghost use Rattle.cdk_artifacts.specs.Files.{file_view};
ghost use Rattle.cdk_assemblies.specs.Answers.{Reads, FaultNoted, Gives, onto, each_onto, stack_at, order_at};

use crate::document::{copied, path_in, read_document};
use cdk_artifacts::StackFile;
use cdk_base::{List, Value};
use cdk_eval::{AsmError, Role, StackIn};
use cdk_outside::Files;
use cdk_stack_order::{Order, stacks_in_order};
use std::alloc::Global;

/// The stacks of the manifest at a path, in evaluation order.
pub fn ordered<'m>(
    alloc: Global,
    manifest: &'m Value,
    path: &str,
) -> Result<Vec<StackFile<'m>>, AsmError>
    ensures { Gives (λ ss. map file_view ss.items) result (order_at path.now (view manifest.now)) }
{
    match stacks_in_order(alloc, manifest) {
        Ok(Order::Stacks(stacks)) => Ok(stacks),
        Ok(Order::Cycle(artifact)) => Err(AsmError::Cycle {
            file: copied(alloc, path)?,
            artifact: copied(alloc, artifact)?,
        }),
        Err(_) => Err(AsmError::Memory),
    }
}

// A stack put behind those that are read.
fn keep(
    alloc: Global,
    name: &str,
    template: Value,
    into: &mut List<StackIn>,
) -> Result<(), AsmError>
    ensures ok { OnOk result (map stack_view into.new ≡ map stack_view into.old ++ (record { name = name.now; template = view template }) ∷ []) }
    ensures err { IfErr result (λ e. e ≡ Memory) }
{
    let name = copied(alloc, name)?;
    match into.push(StackIn { name, template }) {
        Ok(()) => Ok(()),
        Err(_) => Err(AsmError::Memory),
    }
}

// One stack's template is read, and the stack put behind those that are read.
fn read_stack<F: Files>(
    alloc: Global,
    files: &mut F,
    dir: &str,
    stack: &StackFile<'_>,
    into: &mut List<StackIn>,
) -> Result<(), AsmError>
    ensures reads { Reads (λ _. map stack_view into.new) result (F.files files.old) (λ m. onto (map stack_view into.old) (stack_at dir.now (file_view stack.now) m)) }
    ensures noted { FaultNoted result (F.read_faults files.old) (F.read_faults files.new) (F.failed_read files.old) (F.failed_read files.new) }
    ensures never_falls { F.read_faults files.old ≤ F.read_faults files.new }
    ensures files { F.files files.new ≡ F.files files.old }
    ensures directories { F.directories files.new ≡ F.directories files.old }
    ensures write_faults { F.write_faults files.new ≡ F.write_faults files.old }
    ensures failed_write { F.failed_write files.new ≡ F.failed_write files.old }
{
    let path = path_in(alloc, dir, stack.file)?;
    let template = read_document(alloc, files, Role::Template, path.as_str())?;
    keep(alloc, stack.name, template, into)
}

/// Each stack's template is read, one after another, and the stacks are put behind those that are read.
pub fn read_stacks<F: Files>(
    alloc: Global,
    files: &mut F,
    dir: &str,
    stacks: &[StackFile<'_>],
    into: &mut List<StackIn>,
) -> Result<(), AsmError>
    ensures reads { Reads (λ _. map stack_view into.new) result (F.files files.old) (each_onto (stack_at dir.now) (map stack_view into.old) (map file_view stacks.now)) }
    ensures noted { FaultNoted result (F.read_faults files.old) (F.read_faults files.new) (F.failed_read files.old) (F.failed_read files.new) }
    ensures never_falls { F.read_faults files.old ≤ F.read_faults files.new }
    ensures files { F.files files.new ≡ F.files files.old }
    ensures directories { F.directories files.new ≡ F.directories files.old }
    ensures write_faults { F.write_faults files.new ≡ F.write_faults files.old }
    ensures failed_write { F.failed_write files.new ≡ F.failed_write files.old }
{
    for stack in stacks {
        read_stack(alloc, files, dir, stack, into)?;
    }
    Ok(())
}
