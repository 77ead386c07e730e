// The stacks of a manifest, in the order of their artifact ids (CDK's cloud assembly schema).
ghost use Rattle.std.specs.Prelude.{◌≡◌, ◌++◌, ◌||◌, ℕ, List, [], map, filter, IfOk, OnOk, option_map, if◌then◌else◌, ◌∷◌};
ghost use Rattle.serde_json.specs.Data.{no_members, member};
ghost use Rattle.serde_json.specs.Find.{as_str};
ghost use Rattle.serde_json.specs.View.{view, members_view};
ghost use Rattle.cdk_eval.specs.Manifest.{stacks_of as spec_stacks_of, stack_ids as spec_stack_ids, named_in, text_onto, AreApart};
ghost use Rattle.cdk_eval.specs.Reach.{is_among};
ghost use Rattle.cdk_artifacts.specs.Found.{texts_of, has_name, is_stack as spec_is_stack, stack_view, stack_by, stack_onto, stacks_by as spec_stacks_by};

use crate::artifacts::{artifacts, is_type, property};
use crate::name_set::NameSet;
use cdk_base::{Map, Value};
use std::alloc::{AllocError, Global};

/// A stack of a manifest.
#[derive(Drop)]
pub struct Stack<'m> {
    /// Its artifact id.
    pub id: &'m str,
    pub name: &'m str,
    /// Its template's file.
    pub file: &'m str,
    /// The artifact ids of the stacks of the manifest that it depends on.
    pub dependencies: Vec<&'m str>,
}

fn is_stack(artifact: &Value) -> bool
    ensures { result ≡ spec_is_stack (view artifact.now) }
{
    is_type(artifact, "aws:cloudformation:stack")
}

fn put_stack<'m>(ids: &mut NameSet<'m>, id: &'m str, artifact: &Value) -> Result<(), AllocError>
    ensures { OnOk result ((n : List ℕ) → has_name ids.new n ≡ has_name ids.old n || is_among n (if spec_is_stack (view artifact.now) then id.now ∷ [] else [])) }
{
    if is_stack(artifact) {
        ids.put(id)?;
    }
    Ok(())
}

/// The ids of the artifacts that are stacks.
fn stack_ids<'m>(alloc: Global, artifacts: &'m Map) -> Result<NameSet<'m>, AllocError>
    ensures { IfOk result (λ ids. (n : List ℕ) → has_name ids n ≡ is_among n (spec_stack_ids (members_view artifacts.now.entries))) }
{
    let mut ids = NameSet::new(alloc);
    for (id, artifact) in artifacts.iter() {
        put_stack(&mut ids, id.as_str(), artifact)?;
    }
    Ok(ids)
}

fn push_known<'m>(
    found: &mut Vec<&'m str>,
    ids: &NameSet<'_>,
    dependency: &'m Value,
) -> Result<(), AllocError>
    ensures { OnOk result (texts_of found.new.items ≡ texts_of found.old.items ++ filter (has_name ids.now) (text_onto (as_str (view dependency.now)) [])) }
{
    match dependency.as_str() {
        Some(id) => {
            if ids.has(id) {
                found.push(id)?;
            }
            Ok(())
        }
        None => Ok(()),
    }
}

/// The stacks that an artifact depends on.
fn dependencies<'m>(
    alloc: Global,
    ids: &NameSet<'_>,
    artifact: &'m Value,
) -> Result<Vec<&'m str>, AllocError>
    ensures { IfOk result (λ found. texts_of found.items ≡ filter (has_name ids.now) (named_in (view artifact.now))) }
{
    let mut found = Vec::new(alloc);
    let Some(named) = artifact.get("dependencies").and_then(Value::as_array) else {
        return Ok(found);
    };
    for dependency in named {
        push_known(&mut found, ids, dependency)?;
    }
    Ok(found)
}

fn push_stack<'m>(
    alloc: Global,
    stacks: &mut Vec<Stack<'m>>,
    ids: &NameSet<'_>,
    id: &'m str,
    artifact: &'m Value,
) -> Result<(), AllocError>
    ensures { OnOk result (map stack_view stacks.new.items ≡ map stack_view stacks.old.items ++ stack_onto (has_name ids.now) id.now (view artifact.now) []) }
{
    if !is_stack(artifact) {
        return Ok(());
    }
    let dependencies = dependencies(alloc, ids, artifact)?;
    stacks.push(Stack {
        id,
        name: property(artifact, "stackName").unwrap_or(id),
        file: property(artifact, "templateFile").unwrap_or(""),
        dependencies,
    })?;
    Ok(())
}

/// The artifacts that are stacks, by the ids of all stacks.
fn stacks_by<'m>(
    alloc: Global,
    ids: &NameSet<'_>,
    artifacts: &'m Map,
) -> Result<Vec<Stack<'m>>, AllocError>
    ensures stacks { IfOk result (λ ss. map stack_view ss.items ≡ spec_stacks_by (has_name ids.now) (members_view artifacts.now.entries)) }
    ensures apart { IfOk result (λ ss. AreApart (map stack_view ss.items)) }
{
    let mut stacks = Vec::new(alloc);
    for (id, artifact) in artifacts.iter() {
        push_stack(alloc, &mut stacks, ids, id.as_str(), artifact)?;
    }
    Ok(stacks)
}

fn stacks_in<'m>(alloc: Global, artifacts: &'m Map) -> Result<Vec<Stack<'m>>, AllocError>
    ensures stacks { IfOk result (λ ss. map stack_view ss.items ≡ spec_stacks_by (λ n. is_among n (spec_stack_ids (members_view artifacts.now.entries))) (members_view artifacts.now.entries)) }
    ensures apart { IfOk result (λ ss. AreApart (map stack_view ss.items)) }
{
    let ids = stack_ids(alloc, artifacts)?;
    stacks_by(alloc, &ids, artifacts)
}

/// The stacks of the manifest, by artifact id.
pub fn stacks_of<'m>(alloc: Global, manifest: &'m Value) -> Result<Vec<Stack<'m>>, AllocError>
    ensures stacks { IfOk result (λ ss. map stack_view ss.items ≡ spec_stacks_of (view manifest.now)) }
    ensures apart { IfOk result (λ ss. AreApart (map stack_view ss.items)) }
{
    match artifacts(manifest) {
        Some(artifacts) => stacks_in(alloc, artifacts),
        None => Ok(Vec::new(alloc)),
    }
}
