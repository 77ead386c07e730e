// What the places of a document ask for.
ghost use Rattle.std.specs.Prelude.{◌≡◌, ◌==◌, ◌&&◌, [], ◌∷◌, not, true, Some, is_some, bytes_eq, codes};
ghost use Rattle.std.specs.List.{list_any, list_all};
ghost use Rattle.serde_json.specs.Find.{get, as_object};
ghost use Rattle.serde_json.specs.View.{view};
ghost use Rattle.cdk_eval.specs.Form.{is_file_name as spec_is_file_name, fits as spec_fits, settled as spec_settled, artifact_of_type as spec_artifact_of_type, item_role as spec_item_role, member_role as spec_member_role};

use cdk_base::Value;
use cdk_eval::{Role, has_text};

fn is_no_name(name: &str) -> bool
    ensures { result ≡ list_any (bytes_eq name.now) ([] ∷ codes "." ∷ codes ".." ∷ []) }
{
    name == "" || (name == "." || name == "..")
}

fn has_no_slash(name: &str) -> bool
    ensures { result ≡ list_all (λ c. not (c == 47)) name.now }
{
    for byte in name.as_bytes() {
        if *byte == b'/' {
            return false;
        }
    }
    true
}

/// The name of one file or directory: not empty, without `/`, and neither `.` nor `..`.
fn is_file_name(name: &str) -> bool
    ensures { result ≡ spec_is_file_name name.now }
{
    !is_no_name(name) && has_no_slash(name)
}

fn is_file_text(value: &Value) -> bool
    ensures { result ≡ spec_fits Role.FileName (view value.now) }
{
    match value.as_str() {
        Some(name) => is_file_name(name),
        None => false,
    }
}

/// Whether it is an object with this member.
fn has(value: &Value, key: &str) -> bool
    ensures { result ≡ is_some (as_object (view value.now)) && (is_some (get key.now (view value.now)) && true) }
{
    value.is_object() && value.get(key).is_some()
}

/// Whether it is an object with both members.
fn has_both(value: &Value, key: &str, other: &str) -> bool
    ensures { result ≡ is_some (as_object (view value.now)) && (is_some (get key.now (view value.now)) && (is_some (get other.now (view value.now)) && true)) }
{
    value.is_object() && (value.get(key).is_some() && value.get(other).is_some())
}

/// Whether a value is what its place asks for, looked at by itself. A missing member is missed by its object.
pub fn fits(role: Role, value: &Value) -> bool
    ensures { result ≡ spec_fits role (view value.now) }
{
    match role {
        Role::Anything => true,
        Role::Refused => false,
        Role::AnyText => value.is_string(),
        Role::FileName => is_file_text(value),
        Role::ParameterDefault => has_text(value),
        Role::Dependencies => value.is_array(),
        Role::Parameter | Role::Resource => has(value, "Type"),
        Role::Output => has(value, "Value"),
        Role::Export => has(value, "Name"),
        Role::Manifest { .. } => has(value, "artifacts"),
        Role::StackArtifact | Role::NestedAssembly { .. } => has_both(value, "type", "properties"),
        Role::StackProperties => has(value, "templateFile"),
        Role::NestedProperties { .. } => has(value, "directoryName"),
        Role::OtherArtifact => has(value, "type"),
        Role::AnyObject
        | Role::Texts
        | Role::ValuesFile
        | Role::PhysicalStacks
        | Role::PhysicalNames
        | Role::PhysicalEntry
        | Role::ParameterStacks
        | Role::Pseudo
        | Role::Template
        | Role::Parameters
        | Role::Mappings
        | Role::Mapping
        | Role::Conditions
        | Role::Resources
        | Role::Outputs
        | Role::Artifacts { .. }
        | Role::Artifact { .. } => value.is_object(),
    }
}

fn artifact_role(may_nest: bool, kind: &str) -> Role
    ensures { result ≡ spec_artifact_of_type may_nest (Some kind.now) }
{
    if kind == "aws:cloudformation:stack" {
        Role::StackArtifact
    } else if kind == "cdk:cloud-assembly" {
        Role::NestedAssembly { may_nest }
    } else {
        Role::OtherArtifact
    }
}

fn artifact_of_type(may_nest: bool, value: &Value) -> Role
    ensures { result ≡ spec_settled (Role.Artifact may_nest) (view value.now) }
{
    let kind = match value.get("type") {
        Some(kind) => kind.as_str(),
        None => None,
    };
    match kind {
        Some(kind) => artifact_role(may_nest, kind),
        None => Role::OtherArtifact,
    }
}

/// The role of a value whose role turns on itself: an artifact's is that of its type.
pub fn settled(role: Role, value: &Value) -> Role
    ensures { result ≡ spec_settled role (view value.now) }
{
    match role {
        Role::Artifact { may_nest } => artifact_of_type(may_nest, value),
        _ => role,
    }
}

/// The role of the items of a list.
pub fn item_role(role: Role) -> Role
    ensures { result ≡ spec_item_role role }
{
    match role {
        Role::Dependencies => Role::AnyText,
        _ => Role::Anything,
    }
}
