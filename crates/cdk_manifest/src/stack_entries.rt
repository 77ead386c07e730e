// The entries of artifacts: of stacks, nested assemblies and the tree file.
ghost use Rattle.std.specs.Prelude.{◌≡◌, ◌<◌, length, List, IfOk};
ghost use Rattle.serde_json.specs.View.{members_view, view};
ghost use Rattle.cdk_tree.specs.Placed.{Placed};
ghost use Rattle.cdk_tree.specs.TreeView.{constructs};
ghost use Rattle.cdk_stacks.specs.Made.{AreNamesOf};
ghost use Rattle.cdk_manifest.specs.Manifest.{artifact_entry as spec_artifact_entry, nested_entry as spec_nested_entry, stack_entry as spec_stack_entry, stack_metadata, stack_properties as spec_stack_properties, telling_of, template_file as spec_template_file, tree_entry as spec_tree_entry};

use crate::named;
use cdk_base::{Map, Text, Value};
use cdk_scoping::is_stack;
use cdk_stacks::Names;
use cdk_tree::{NodeId, Tree};
use serde_json::json;
use std::alloc::{AllocError, Global};

/// The name of a stack's template, in its assembly's directory.
fn template_file(alloc: Global, artifact: &str) -> Result<Text, AllocError>
    ensures { IfOk result (λ name. name ≡ spec_template_file artifact.now) }
{
    let name = format!(in alloc; "{artifact}.template.json")?;
    Ok(Text::from_string(name))
}

/// The name of a stack's template in the directory of its assembly: its artifact id and `.template.json` (AWS CDK's cloud
/// assembly). Fails where no memory is found.
pub fn template_name(alloc: Global, names: &Names, stack: NodeId) -> Result<Text, AllocError>
    ensures { IfOk result (λ name. (cs : List Placed) → AreNamesOf names.now cs → name ≡ spec_template_file ((telling_of cs).artifact stack)) }
{
    template_file(alloc, named::artifact(names, stack))
}

fn stack_properties(
    alloc: Global,
    tree: &Tree,
    names: &Names,
    at: NodeId,
) -> Result<Value, AllocError>
    requires { AreNamesOf names.now (constructs tree.now) }
    ensures { IfOk result (λ v. view v ≡ spec_stack_properties (telling_of (constructs tree.now)) at) }
{
    let name = named::stack_name(names, at);
    let template = template_file(alloc, named::artifact(names, at))?;
    json!(in alloc; {"stackName": name, "templateFile": template.as_str()})
}

fn stack_entry(
    alloc: Global,
    tree: &Tree,
    names: &Names,
    at: NodeId,
    metadata: Map,
) -> Result<Value, AllocError>
    requires within { at < length (constructs tree.now) }
    requires names { AreNamesOf names.now (constructs tree.now) }
    requires metadata { members_view metadata.entries ≡ stack_metadata (constructs tree.now) (telling_of (constructs tree.now)) at }
    ensures { IfOk result (λ v. view v ≡ spec_stack_entry (constructs tree.now) (telling_of (constructs tree.now)) at) }
{
    let path = tree.path_of(at);
    let properties = stack_properties(alloc, tree, names, at)?;
    json!(in alloc; {
        "dependencies": [],
        "displayName": path,
        "environment": "aws://unknown-account/unknown-region",
        "metadata": metadata,
        "properties": properties,
        "type": "aws:cloudformation:stack"
    })
}

fn nested_entry(alloc: Global, artifact: &str) -> Result<Value, AllocError>
    ensures { IfOk result (λ v. view v ≡ spec_nested_entry artifact.now) }
{
    json!(in alloc; {"properties": {"directoryName": artifact}, "type": "cdk:cloud-assembly"})
}

/// The entry of the tree file.
pub fn tree_entry(alloc: Global) -> Result<Value, AllocError>
    ensures { IfOk result (λ v. view v ≡ spec_tree_entry) }
{
    json!(in alloc; {"properties": {"file": "tree.json"}, "type": "cdk:tree"})
}

/// The entry of a stack with its metadata, or of a stage's nested assembly.
pub fn artifact_entry(
    alloc: Global,
    tree: &Tree,
    names: &Names,
    at: NodeId,
    metadata: Map,
) -> Result<Value, AllocError>
    requires within { at < length (constructs tree.now) }
    requires names { AreNamesOf names.now (constructs tree.now) }
    requires metadata { members_view metadata.entries ≡ stack_metadata (constructs tree.now) (telling_of (constructs tree.now)) at }
    ensures { IfOk result (λ v. view v ≡ spec_artifact_entry (constructs tree.now) (telling_of (constructs tree.now)) at) }
{
    if is_stack(&tree.node(at).kind) {
        return stack_entry(alloc, tree, names, at, metadata);
    }
    nested_entry(alloc, named::artifact(names, at))
}
