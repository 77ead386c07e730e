// The files of an assembly.
ghost use Rattle.std.specs.Prelude.{◌≡◌, ◌≤◌, ◌<◌, List, length, true, false, IfOk, OnOk};
ghost use Rattle.std.specs.Str.{IsUtf8};
ghost use Rattle.serde_json.specs.Data.{depth};
ghost use Rattle.serde_json.specs.Read.{max_depth};
ghost use Rattle.serde_json.specs.View.{view};
ghost use Rattle.serde_json.specs.Written.{has_float};
ghost use Rattle.cdk_base.specs.Pretty.{pretty_text};
ghost use Rattle.cdk_language.specs.Construct.{Application};
ghost use Rattle.cdk_stacks.specs.Made.{AreNamesOf};
ghost use Rattle.cdk_template.specs.Sources.{constructs_in};
ghost use Rattle.cdk_tree.specs.Placed.{Placed, construct_at, constructs_of, is_stack as spec_is_stack};
ghost use Rattle.cdk_tree_meaning.specs.Law.{template_name as spec_template_name};
ghost use Rattle.cdk_synthesis.specs.Assembly.{AllUtf8, file_of as spec_file_of, manifest_of_constructs, tree_of_application};
ghost use Rattle.cdk_synthesis.specs.Files.{AreTemplates, FilesAnswer, IsTemplateFile, PutsRest, PutsTemplate};
ghost use Rattle.cdk_synthesis.specs.Values.{CanBeMade};

use crate::values::values_of;
use cdk_base::{List, Text, Value, pretty_bytes};
use cdk_manifest::{manifest, template_name, tree_file};
use cdk_scoping::is_stack;
use cdk_template::{Sources, template};
use cdk_tree::{NodeId, PassError};
use std::alloc::{AllocError, Global};

/// A file of an assembly. Its name is relative to the assembly's directory.
#[derive(Drop)]
pub struct File {
    pub name: Text,
    pub bytes: List<u8>,
}

fn file_of(alloc: Global, name: Text, value: &Value) -> Result<File, AllocError>
    requires no_float { has_float (view value.now) ≡ false }
    requires shallow { depth (view value.now) ≤ max_depth }
    ensures file { IfOk result (λ file. file ≡ record { name = name; bytes = pretty_text (view value.now) }) }
    ensures utf8 { IfOk result (λ file. IsUtf8 file.bytes) }
{
    let bytes = pretty_bytes(alloc, value)?;
    Ok(File {
        name,
        bytes: List::from_vec(bytes),
    })
}

fn named_template(
    sources: &Sources<'_>,
    stack: NodeId,
    template: &Value,
) -> Result<File, AllocError>
    requires no_float { has_float (view template.now) ≡ false }
    requires shallow { depth (view template.now) ≤ max_depth }
    ensures file { IfOk result (λ file. (cs : List Placed) → AreNamesOf sources.now.names.now cs → file ≡ spec_file_of (spec_template_name cs stack) (view template.now)) }
    ensures utf8 { IfOk result (λ file. IsUtf8 file.bytes) }
{
    let name = template_name(sources.alloc, sources.names, stack)?;
    file_of(sources.alloc, name, template)
}

fn template_of(sources: &Sources<'_>, stack: NodeId) -> Result<File, PassError>
    requires within { stack < length (constructs_in sources.now) }
    requires stack { spec_is_stack (construct_at (constructs_in sources.now) stack).body ≡ true }
    requires made { CanBeMade sources.now stack }
    ensures file { IsTemplateFile result (constructs_in sources.now) stack }
    ensures utf8 { IfOk result (λ file. IsUtf8 file.bytes) }
{
    let template = match template(sources, stack) {
        Ok(template) => template,
        Err(error) => return Err(error),
    };
    match named_template(sources, stack, &template) {
        Ok(file) => Ok(file),
        Err(_) => Err(PassError::Memory),
    }
}

/// Appends the template of the construct where it is a stack.
fn put_template(
    sources: &Sources<'_>,
    stack: NodeId,
    at: NodeId,
    files: &mut List<File>,
) -> Result<(), PassError>
    requires within { at < length (constructs_in sources.now) }
    requires made { CanBeMade sources.now stack }
    ensures files { PutsTemplate result (constructs_in sources.now) at files.old files.new }
    ensures utf8 { OnOk result (AllUtf8 files.old → AllUtf8 files.new) }
{
    if !is_stack(&sources.tree.node(at).kind) {
        return Ok(());
    }
    let file = match template_of(sources, at) {
        Ok(file) => file,
        Err(error) => return Err(error),
    };
    match files.push(file) {
        Ok(()) => Ok(()),
        Err(_) => Err(PassError::Memory),
    }
}

// The templates of all stacks, in walk order, or the first fault of one.
fn templates_of(sources: &Sources<'_>, stack: NodeId) -> Result<List<File>, PassError>
    requires made { CanBeMade sources.now stack }
    ensures files { AreTemplates result (constructs_in sources.now) }
    ensures utf8 { IfOk result AllUtf8 }
{
    let mut files = List::new(sources.alloc);
    for number in 0..sources.tree.len() {
        let Some(at) = sources.tree.id(number) else {
            unreachable!()
        };
        if let Err(error) = put_template(sources, stack, at, &mut files) {
            return Err(error);
        }
    }
    Ok(files)
}

fn tree_of(sources: &Sources<'_>, stack: NodeId) -> Result<File, AllocError>
    requires made { CanBeMade sources.now stack }
    ensures file { IfOk result (λ file. (a : Application) → constructs_in sources.now ≡ constructs_of a → file ≡ tree_of_application a) }
    ensures utf8 { IfOk result (λ file. IsUtf8 file.bytes) }
{
    let name = Text::new(sources.alloc, "tree.json")?;
    let values = values_of(sources, stack)?;
    let value = tree_file(sources.alloc, sources.tree, values.as_slice())?;
    file_of(sources.alloc, name, &value)
}

fn manifest_of(sources: &Sources<'_>, stack: NodeId) -> Result<File, AllocError>
    requires made { CanBeMade sources.now stack }
    ensures file { IfOk result (λ file. file ≡ manifest_of_constructs (constructs_in sources.now)) }
    ensures utf8 { IfOk result (λ file. IsUtf8 file.bytes) }
{
    let name = Text::new(sources.alloc, "manifest.json")?;
    let value = manifest(sources.alloc, sources.tree, sources.names, NodeId::ROOT)?;
    file_of(sources.alloc, name, &value)
}

// Appends `tree.json` and `manifest.json`.
fn put_rest(sources: &Sources<'_>, stack: NodeId, files: &mut List<File>) -> Result<(), AllocError>
    requires made { CanBeMade sources.now stack }
    ensures files { OnOk result (PutsRest (constructs_in sources.now) files.old files.new) }
    ensures utf8 { OnOk result (AllUtf8 files.old → AllUtf8 files.new) }
{
    let tree_file = tree_of(sources, stack)?;
    let manifest = manifest_of(sources, stack)?;
    files.push(tree_file)?;
    files.push(manifest)?;
    Ok(())
}

/// The files of the assembly of one stack: its template, `tree.json`, and last `manifest.json`.
///
/// `MarkerLeft` at the stack where the beginning of a marker is left in its template; else an error only where no memory is found.
pub(crate) fn files_of(sources: &Sources<'_>, stack: NodeId) -> Result<List<File>, PassError>
    requires made { CanBeMade sources.now stack }
    ensures files { FilesAnswer result (constructs_in sources.now) }
    ensures utf8 { IfOk result AllUtf8 }
{
    let mut files = match templates_of(sources, stack) {
        Ok(files) => files,
        Err(error) => return Err(error),
    };
    match put_rest(sources, stack, &mut files) {
        Ok(()) => Ok(files),
        Err(_) => Err(PassError::Memory),
    }
}
