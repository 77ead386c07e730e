// The directories of a manifest's nested assemblies (CDK's cloud assembly schema).
ghost use Rattle.std.specs.Prelude.{◌≡◌, ◌++◌, [], map, codes, IfOk, OnOk, if◌then◌else◌};
ghost use Rattle.serde_json.specs.View.{view, members_view};
ghost use Rattle.cdk_eval.specs.Manifest.{artifacts as spec_artifacts, is_type as spec_is_type, property as spec_property, text_onto, nested_directories as spec_nested_directories};
ghost use Rattle.cdk_artifacts.specs.Found.{texts_of};

use crate::artifacts::{artifacts, is_type, property};
use cdk_base::{Map, Value};
use std::alloc::{AllocError, Global};

fn push_directory<'m>(found: &mut Vec<&'m str>, artifact: &'m Value) -> Result<(), AllocError>
    ensures { OnOk result (texts_of found.new.items ≡ texts_of found.old.items ++ (if spec_is_type (codes "cdk:cloud-assembly") (view artifact.now) then text_onto (spec_property (codes "directoryName") (view artifact.now)) [] else [])) }
{
    if !is_type(artifact, "cdk:cloud-assembly") {
        return Ok(());
    }
    match property(artifact, "directoryName") {
        Some(directory) => {
            found.push(directory)?;
            Ok(())
        }
        None => Ok(()),
    }
}

fn directories_in<'m>(alloc: Global, artifacts: &'m Map) -> Result<Vec<&'m str>, AllocError>
    ensures { IfOk result (λ ds. texts_of ds.items ≡ spec_nested_directories (members_view artifacts.now.entries)) }
{
    let mut found = Vec::new(alloc);
    for (_, artifact) in artifacts.iter() {
        push_directory(&mut found, artifact)?;
    }
    Ok(found)
}

/// The directories of the manifest's nested assemblies, by artifact id; those of assemblies that name none are left out.
/// The error is want of memory.
pub fn nested_directories<'m>(
    alloc: Global,
    manifest: &'m Value,
) -> Result<Vec<&'m str>, AllocError>
    ensures { IfOk result (λ ds. map (λ d. d.now) ds.items ≡ spec_nested_directories (spec_artifacts (view manifest.now))) }
{
    match artifacts(manifest) {
        Some(artifacts) => directories_in(alloc, artifacts),
        None => Ok(Vec::new(alloc)),
    }
}
