// Whether names are there and have their forms.
ghost use Rattle.std.specs.Prelude.{◌≡◌, ◌<◌, length, option_map};
ghost use Rattle.cdk_names.specs.Forms.{is_logical as spec_is_logical, is_stack_name as spec_is_stack_name};
ghost use Rattle.cdk_tree.specs.TreeView.{constructs};
ghost use Rattle.cdk_stacks.specs.Made.{AreNamesOf};
ghost use Rattle.cdk_stacks.specs.Names.{is_artifact_id, is_element_misnamed as spec_is_element_misnamed, is_misnamed as spec_is_misnamed, is_some_and, is_stack_misnamed as spec_is_stack_misnamed, is_stage_misnamed as spec_is_stage_misnamed};

use crate::made::Names;
use cdk_names::{is_logical, is_stack_name};
use cdk_scoping::{is_element, is_stack, is_stage};
use cdk_tree::{NodeId, Tree};

fn has_logical_form(name: Option<&str>) -> bool
    ensures { result ≡ is_some_and spec_is_logical (option_map (λ s. s.now) name.entry) }
{
    match name {
        Some(name) => is_logical(name),
        None => false,
    }
}

fn has_stack_form(name: Option<&str>) -> bool
    ensures { result ≡ is_some_and spec_is_stack_name (option_map (λ s. s.now) name.entry) }
{
    match name {
        Some(name) => is_stack_name(name),
        None => false,
    }
}

fn has_artifact_form(id: Option<&str>) -> bool
    ensures { result ≡ is_some_and is_artifact_id (option_map (λ s. s.now) id.entry) }
{
    match id {
        Some(id) => !id.is_empty(),
        None => false,
    }
}

fn is_element_misnamed(tree: &Tree, names: &Names, at: NodeId) -> bool
    requires within { at < length (constructs tree.now) }
    requires names { AreNamesOf names.now (constructs tree.now) }
    ensures { result ≡ spec_is_element_misnamed (constructs tree.now) at }
{
    is_element(&tree.node(at).kind) && !has_logical_form(names.logical(at))
}

fn is_stack_misnamed(tree: &Tree, names: &Names, at: NodeId) -> bool
    requires within { at < length (constructs tree.now) }
    requires names { AreNamesOf names.now (constructs tree.now) }
    ensures { result ≡ spec_is_stack_misnamed (constructs tree.now) at }
{
    if !is_stack(&tree.node(at).kind) {
        return false;
    }
    let named = has_stack_form(names.stack_name(at));
    let written = has_artifact_form(names.artifact(at));
    !(named && written)
}

fn is_stage_misnamed(tree: &Tree, names: &Names, at: NodeId) -> bool
    requires within { at < length (constructs tree.now) }
    requires names { AreNamesOf names.now (constructs tree.now) }
    ensures { result ≡ spec_is_stage_misnamed (constructs tree.now) at }
{
    let part = tree.node(at);
    if !is_stage(&part.kind) {
        return false;
    }
    let own = is_stack_name(part.id.as_str());
    let whole = has_stack_form(names.stage_name(at));
    !(own && whole)
}

/// Whether a name of the construct is absent or of wrong form.
pub fn is_misnamed(tree: &Tree, names: &Names, at: NodeId) -> bool
    requires within { at < length (constructs tree.now) }
    requires names { AreNamesOf names.now (constructs tree.now) }
    ensures { result ≡ spec_is_misnamed (constructs tree.now) at }
{
    if is_element_misnamed(tree, names, at) {
        return true;
    }
    is_stack_misnamed(tree, names, at) || is_stage_misnamed(tree, names, at)
}
