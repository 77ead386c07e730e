// An assembly and, below it, its nested ones.
ghost use Rattle.std.specs.Prelude.{◌≡◌, ◌≤◌, map, IfOk, IfErr};
ghost use Rattle.cdk_eval.specs.declared.assembly.AsmError.TheVariants.{Memory};
ghost use Rattle.serde_json.specs.View.{view};
ghost use Rattle.cdk_eval.specs.Manifest.{artifacts, nested_directories as spec_nested_directories};
ghost use Rattle.cdk_eval.specs.Views.{stack_view};
ghost use Rattle.cdk_assemblies.specs.Answers.{Reads, FaultNoted, onto, each_onto, nested_in, assembly_in, own_onto, ordered_onto};

use crate::document::{path_in, read_document};
use crate::stacks::{ordered, read_stacks};
use cdk_artifacts::nested_directories;
use cdk_base::{List, Value};
use cdk_eval::{AsmError, Role, StackIn};
use cdk_outside::Files;
use std::alloc::Global;

// The stacks of a manifest at a path are ordered and read.
fn read_ordered<F: Files>(
    alloc: Global,
    files: &mut F,
    dir: &str,
    path: &str,
    manifest: &Value,
    into: &mut List<StackIn>,
) -> Result<(), AsmError>
    ensures reads { Reads (λ _. map stack_view into.new) result (F.files files.old) (ordered_onto dir.now path.now (view manifest.now) (map stack_view into.old)) }
    ensures noted { FaultNoted result (F.read_faults files.old) (F.read_faults files.new) (F.failed_read files.old) (F.failed_read files.new) }
    ensures never_falls { F.read_faults files.old ≤ F.read_faults files.new }
    ensures files { F.files files.new ≡ F.files files.old }
    ensures directories { F.directories files.new ≡ F.directories files.old }
    ensures write_faults { F.write_faults files.new ≡ F.write_faults files.old }
    ensures failed_write { F.failed_write files.new ≡ F.failed_write files.old }
{
    let stacks = ordered(alloc, manifest, path)?;
    read_stacks(alloc, files, dir, stacks.as_slice(), into)
}

// A directory's manifest is read, and its own stacks are put behind those that are read.
fn read_own<F: Files>(
    alloc: Global,
    files: &mut F,
    dir: &str,
    may_nest: bool,
    into: &mut List<StackIn>,
) -> Result<Value, AsmError>
    ensures reads { Reads (λ manifest. (view manifest, map stack_view into.new)) result (F.files files.old) (own_onto may_nest dir.now (map stack_view into.old)) }
    ensures noted { FaultNoted result (F.read_faults files.old) (F.read_faults files.new) (F.failed_read files.old) (F.failed_read files.new) }
    ensures never_falls { F.read_faults files.old ≤ F.read_faults files.new }
    ensures files { F.files files.new ≡ F.files files.old }
    ensures directories { F.directories files.new ≡ F.directories files.old }
    ensures write_faults { F.write_faults files.new ≡ F.write_faults files.old }
    ensures failed_write { F.failed_write files.new ≡ F.failed_write files.old }
{
    let path = path_in(alloc, dir, "manifest.json")?;
    let role = Role::Manifest { may_nest };
    let manifest = read_document(alloc, files, role, path.as_str())?;
    read_ordered(alloc, files, dir, path.as_str(), &manifest, into)?;
    Ok(manifest)
}

// The directories of the nested assemblies, by artifact id.
fn directories_of<'m>(alloc: Global, manifest: &'m Value) -> Result<Vec<&'m str>, AsmError>
    ensures ok { IfOk result (λ ds. map (λ d. d.now) ds.items ≡ spec_nested_directories (artifacts (view manifest.now))) }
    ensures err { IfErr result (λ e. e ≡ Memory) }
{
    match nested_directories(alloc, manifest) {
        Ok(directories) => Ok(directories),
        Err(_) => Err(AsmError::Memory),
    }
}

// The assemblies of these directories are read, each with so many levels below it.
#[cycle(levels)]
fn read_nested<F: Files>(
    alloc: Global,
    files: &mut F,
    dir: &str,
    directories: &[&str],
    levels: u8,
    into: &mut List<StackIn>,
) -> Result<(), AsmError>
    ensures reads { Reads (λ _. map stack_view into.new) result (F.files files.old) (each_onto (nested_in levels dir.now) (map stack_view into.old) (map (λ d. d.now) directories.now)) }
    ensures noted { FaultNoted result (F.read_faults files.old) (F.read_faults files.new) (F.failed_read files.old) (F.failed_read files.new) }
    ensures never_falls { F.read_faults files.old ≤ F.read_faults files.new }
    ensures files { F.files files.new ≡ F.files files.old }
    ensures directories { F.directories files.new ≡ F.directories files.old }
    ensures write_faults { F.write_faults files.new ≡ F.write_faults files.old }
    ensures failed_write { F.failed_write files.new ≡ F.failed_write files.old }
{
    for directory in directories {
        let below = path_in(alloc, dir, directory)?;
        read_level(alloc, files, below.as_str(), levels, into)?;
    }
    Ok(())
}

/// An assembly is read with at most so many levels of nested ones, and its stacks are put behind those that are read.
#[cycle(levels)]
pub fn read_level<F: Files>(
    alloc: Global,
    files: &mut F,
    dir: &str,
    levels: u8,
    into: &mut List<StackIn>,
) -> Result<(), AsmError>
    ensures reads { Reads (λ _. map stack_view into.new) result (F.files files.old) (λ m. onto (map stack_view into.old) (assembly_in levels dir.now m)) }
    ensures noted { FaultNoted result (F.read_faults files.old) (F.read_faults files.new) (F.failed_read files.old) (F.failed_read files.new) }
    ensures never_falls { F.read_faults files.old ≤ F.read_faults files.new }
    ensures files { F.files files.new ≡ F.files files.old }
    ensures directories { F.directories files.new ≡ F.directories files.old }
    ensures write_faults { F.write_faults files.new ≡ F.write_faults files.old }
    ensures failed_write { F.failed_write files.new ≡ F.failed_write files.old }
{
    let manifest = read_own(alloc, files, dir, levels > 0, into)?;
    if levels == 0 {
        return Ok(());
    }
    let directories = directories_of(alloc, &manifest)?;
    read_nested(alloc, files, dir, directories.as_slice(), levels - 1, into)
}
