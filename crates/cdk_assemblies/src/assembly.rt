// An assembly as it is read.
ghost use Rattle.std.specs.Prelude.{◌≡◌, ◌≤◌, Some};
ghost use Rattle.std.specs.FinMap.{get};
ghost use Rattle.cdk_eval.specs.Reading.{read_within};
ghost use Rattle.cdk_eval.specs.Views.{assembly_view};
ghost use Rattle.cdk_assemblies.specs.Answers.{Reads, FaultNoted, most_bytes};

use crate::levels::read_level;
use cdk_base::List;
use cdk_eval::{AsmError, Assembly};
use cdk_outside::Files;
use std::alloc::Global;

/// The most levels of nested assemblies below the root (own).
pub const MOST_LEVELS: u8 = 10;

/// Reads the assembly of a directory: `manifest.json` in it, then each stack's template in evaluation order, then the
/// nested assemblies by artifact id, each in the same way (CDK's cloud assembly; the order and the bounds are own). A
/// file is named to `files` as the directory, `/` and its name; a nested assembly's directory as the directory that has
/// it, `/` and its name.
///
/// The first file with a fault decides. In a manifest its form stands before a cycle, and both before the next file:
/// - `ReadFault`: the call to read the file failed, as for a missing one. `files` has counted it. All files before it
///   were read without fault: were that file alone missing, it would be the first with a fault.
/// - `TooLong`: the file has over 268,435,456 bytes.
/// - `NotJson`: its bytes are no JSON text.
/// - `Shape`: it misses the form of a manifest or of a template; the first pointer. A nested assembly eleven levels below
///   the root is refused so, at its `directoryName`.
/// - `Cycle`: stacks of the manifest depend on each other; the least artifact id that reaches itself.
/// - `Memory`: no memory was found.
///
/// Files and directories stay as they are.
pub fn read_assembly<F: Files>(
    alloc: Global,
    files: &mut F,
    dir: &str,
) -> Result<Assembly, AsmError>
    ensures reads { Reads assembly_view result (F.files files.old) (λ m. read_within (Some most_bytes) (get m) dir.now) }
    ensures noted { FaultNoted result (F.read_faults files.old) (F.read_faults files.new) (F.failed_read files.old) (F.failed_read files.new) }
    ensures never_falls { F.read_faults files.old ≤ F.read_faults files.new }
    ensures files { F.files files.new ≡ F.files files.old }
    ensures directories { F.directories files.new ≡ F.directories files.old }
    ensures write_faults { F.write_faults files.new ≡ F.write_faults files.old }
    ensures failed_write { F.failed_write files.new ≡ F.failed_write files.old }
{
    let mut stacks = List::new(alloc);
    read_level(alloc, files, dir, MOST_LEVELS, &mut stacks)?;
    Ok(Assembly::of_stacks(stacks))
}
