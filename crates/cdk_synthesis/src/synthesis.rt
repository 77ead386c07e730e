// From the bytes of an application to the files of its assembly.
ghost use Rattle.std.specs.Prelude.{IfOk};
ghost use Rattle.cdk_synthesis.specs.Assembly.{AllUtf8};
ghost use Rattle.cdk_synthesis.specs.Checks.{Synthesises};

use crate::files::File;
use crate::passes::{files_of_tree, tree_of};
use cdk_base::{Code, Fault, List, Setting};
use cdk_doc::{read_app, with_settings};
use cdk_passes::fault_at_root;
use std::alloc::Global;

/// The most bytes of an application: 16 MiB.
pub const MOST_BYTES: usize = 16_777_216;

/// The files of the application's assembly in writing order: the templates of its stacks, `tree.json`, and last
/// `manifest.json`. Settings are laid over the context of its root; of two settings of one key the later counts.
///
/// Its first fault comes of these passes, in order:
///
/// - `TooLong` (over 16,777,216 bytes) and `NotJson`, each at the place `""`.
/// - The document's faults at their JSON pointers (`Shape`, `Number`, `LiteralMarker`).
/// - `LiteralMarker` of a setting, at `=` and its key.
/// - `Shape` at `""` for an application that is valid but not built yet: with a stage, more than one stack, an aspect, a
///   `dependsOn` or an export's name.
/// - At the paths of constructs: ids and places (`BadId`, `SameId`, `BadPlace`), targets (`NoTarget`, `WrongTarget`), contexts
///   (`LiteralMarker`, `NoContext`), loops (`LazyCycle`, `ConditionCycle`), values (`UnknownToken`, `ListMix`, `BadValue`), sizes
///   (`TooLarge`, `TooDeep`), names (`BadName`, `SameName`), `TooMany`, and `MarkerLeft` in a template.
///
/// Besides, memory may be wanting.
pub fn synth(alloc: Global, bytes: &[u8], settings: &[Setting]) -> Result<List<File>, Fault>
    ensures answer { Synthesises bytes.now settings.now result }
    ensures utf8 { IfOk result AllUtf8 }
{
    if bytes.len() > MOST_BYTES {
        return Err(fault_at_root(alloc, Code::TooLong));
    }
    let app = read_app(alloc, bytes)?;
    let app = with_settings(alloc, app, settings)?;
    let tree = tree_of(alloc, app)?;
    files_of_tree(alloc, &tree)
}
