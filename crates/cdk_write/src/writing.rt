// Writing: one loop over the steps, each of which is one call.
ghost use Rattle.std.specs.Prelude.{◌≡◌, ◌<◌, ◌≤◌, length, IfOk, IfErr, OnOk, OnErr, IfSome, map};
ghost use Rattle.cdk_outside.specs.Outside.{Rose};
ghost use Rattle.cdk_write.specs.Steps.{path_in as path_in_directory, step_view, step_path, files_after, directories_after, files_after_all, directories_after_all, LeavesPartOf, StoppedAt};

use crate::step::{Action, Step};
use cdk_base::Text;
use cdk_outside::{Failed, Files};
use std::alloc::{AllocError, Global};

/// The path of a name in a directory: the two with a slash between.
pub fn path_in(alloc: Global, directory: &str, name: &str) -> Result<Text, AllocError>
    ensures { IfOk result (λ path. path ≡ path_in_directory directory.now name.now) }
{
    let path = format!(in alloc; "{directory}/{name}")?;
    Ok(Text::from_string(path))
}

// The one call of a step.
fn perform<F: Files>(files: &mut F, step: &Step<'_>) -> Result<(), Failed>
    ensures files { OnOk result (F.files files.new ≡ files_after (step_view step.now) (F.files files.old)) }
    ensures directories { OnOk result (F.directories files.new ≡ directories_after (step_view step.now) (F.directories files.old)) }
    ensures part { OnErr result (LeavesPartOf (step_view step.now) (F.files files.old) (F.files files.new)) }
    ensures kept_directories { OnErr result (F.directories files.new ≡ F.directories files.old) }
    ensures rose { OnErr result (Rose (F.write_faults files.old) (F.write_faults files.new)) }
    ensures name { OnErr result (IfSome (F.failed_write files.new) (λ n. n ≡ step_path (step_view step.now))) }
    ensures kept_name { OnOk result (F.failed_write files.new ≡ F.failed_write files.old) }
    ensures never_falls { F.write_faults files.old ≤ F.write_faults files.new }
    ensures read_faults { F.read_faults files.new ≡ F.read_faults files.old }
    ensures failed_read { F.failed_read files.new ≡ F.failed_read files.old }
{
    match &step.action {
        Action::MakeDirectory => files.make_dir(step.path.as_str()),
        Action::Remove => files.remove(step.path.as_str()),
        Action::Put(bytes) => files.put(step.path.as_str(), bytes),
    }
}

/// Performs the steps in order and stops at the first whose call fails: an error is that step's index.
/// The steps before it are whole, and it leaves what its failed call leaves. No memory is asked for.
pub fn write_steps<F: Files>(files: &mut F, steps: &[Step<'_>]) -> Result<(), usize>
    ensures files { OnOk result (F.files files.new ≡ files_after_all (map step_view steps.now) (F.files files.old)) }
    ensures directories { OnOk result (F.directories files.new ≡ directories_after_all (map step_view steps.now) (F.directories files.old)) }
    ensures kept_name { OnOk result (F.failed_write files.new ≡ F.failed_write files.old) }
    ensures stopped { IfErr result (λ k. StoppedAt (map step_view steps.now) k (F.files files.old) (F.files files.new) (F.directories files.old) (F.directories files.new) (F.failed_write files.new)) }
    ensures within { IfErr result (λ k. k < length steps.now) }
    ensures rose { OnErr result (Rose (F.write_faults files.old) (F.write_faults files.new)) }
    ensures never_falls { F.write_faults files.old ≤ F.write_faults files.new }
    ensures read_faults { F.read_faults files.new ≡ F.read_faults files.old }
    ensures failed_read { F.failed_read files.new ≡ F.failed_read files.old }
{
    for k in 0..steps.len() {
        match perform(files, &steps[k]) {
            Ok(()) => {}
            Err(_) => return Err(k),
        }
    }
    Ok(())
}
