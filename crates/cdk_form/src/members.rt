// What the members of an object are asked for, by their keys.
ghost use Rattle.std.specs.Prelude.{◌≡◌, map};
ghost use Rattle.cdk_eval.specs.Form.{role_in as spec_role_in, member_role as spec_member_role};

use cdk_eval::Role;

/// The role of a key in a table, or another.
fn role_in(table: &[(&str, Role)], other: Role, key: &str) -> Role
    ensures { result ≡ spec_role_in (map (λ x. (x.0.now, x.1)) table.now) other key.now }
{
    for (name, role) in table {
        if *name == key {
            return *role;
        }
    }
    other
}

fn in_values_file(key: &str) -> Role
    ensures { result ≡ spec_member_role Role.ValuesFile key.now }
{
    let table = [
        ("physical", Role::PhysicalStacks),
        ("parameters", Role::ParameterStacks),
        ("pseudo", Role::Pseudo),
        ("exports", Role::Texts),
    ];
    role_in(&table, Role::Refused, key)
}

fn in_physical_entry(key: &str) -> Role
    ensures { result ≡ spec_member_role Role.PhysicalEntry key.now }
{
    let table = [("Ref", Role::AnyText), ("GetAtt", Role::Texts)];
    role_in(&table, Role::Refused, key)
}

fn in_pseudo(key: &str) -> Role
    ensures { result ≡ spec_member_role Role.Pseudo key.now }
{
    let table = [
        ("AWS::AccountId", Role::AnyText),
        ("AWS::Partition", Role::AnyText),
        ("AWS::Region", Role::AnyText),
        ("AWS::URLSuffix", Role::AnyText),
    ];
    role_in(&table, Role::Refused, key)
}

fn in_template(key: &str) -> Role
    ensures { result ≡ spec_member_role Role.Template key.now }
{
    let table = [
        ("Parameters", Role::Parameters),
        ("Mappings", Role::Mappings),
        ("Conditions", Role::Conditions),
        ("Resources", Role::Resources),
        ("Outputs", Role::Outputs),
    ];
    role_in(&table, Role::Anything, key)
}

fn in_parameter(key: &str) -> Role
    ensures { result ≡ spec_member_role Role.Parameter key.now }
{
    let table = [("Type", Role::AnyText), ("Default", Role::ParameterDefault)];
    role_in(&table, Role::Anything, key)
}

fn in_resource(key: &str) -> Role
    ensures { result ≡ spec_member_role Role.Resource key.now }
{
    let table = [
        ("Type", Role::AnyText),
        ("Properties", Role::AnyObject),
        ("Condition", Role::AnyText),
    ];
    role_in(&table, Role::Anything, key)
}

fn in_output(key: &str) -> Role
    ensures { result ≡ spec_member_role Role.Output key.now }
{
    let table = [("Condition", Role::AnyText), ("Export", Role::Export)];
    role_in(&table, Role::Anything, key)
}

fn in_stack_artifact(key: &str) -> Role
    ensures { result ≡ spec_member_role Role.StackArtifact key.now }
{
    let table = [
        ("type", Role::AnyText),
        ("properties", Role::StackProperties),
        ("dependencies", Role::Dependencies),
    ];
    role_in(&table, Role::Anything, key)
}

fn in_stack_properties(key: &str) -> Role
    ensures { result ≡ spec_member_role Role.StackProperties key.now }
{
    let table = [
        ("templateFile", Role::FileName),
        ("stackName", Role::AnyText),
    ];
    role_in(&table, Role::Anything, key)
}

fn in_other_artifact(key: &str) -> Role
    ensures { result ≡ spec_member_role Role.OtherArtifact key.now }
{
    let table = [("type", Role::AnyText)];
    role_in(&table, Role::Anything, key)
}

fn in_manifest(may_nest: bool, key: &str) -> Role
    ensures { result ≡ spec_member_role (Role.Manifest may_nest) key.now }
{
    let table = [("artifacts", Role::Artifacts { may_nest })];
    role_in(&table, Role::Anything, key)
}

fn in_nested_assembly(may_nest: bool, key: &str) -> Role
    ensures { result ≡ spec_member_role (Role.NestedAssembly may_nest) key.now }
{
    let table = [
        ("type", Role::AnyText),
        ("properties", Role::NestedProperties { may_nest }),
    ];
    role_in(&table, Role::Anything, key)
}

fn in_nested_properties(may_nest: bool, key: &str) -> Role
    ensures { result ≡ spec_member_role (Role.NestedProperties may_nest) key.now }
{
    let directory = if may_nest {
        Role::FileName
    } else {
        Role::Refused
    };
    let table = [("directoryName", directory)];
    role_in(&table, Role::Anything, key)
}

/// The role of the member of a key, in an object with this role.
pub fn member_role(role: Role, key: &str) -> Role
    ensures { result ≡ spec_member_role role key.now }
{
    match role {
        Role::ValuesFile => in_values_file(key),
        Role::PhysicalEntry => in_physical_entry(key),
        Role::Pseudo => in_pseudo(key),
        Role::Template => in_template(key),
        Role::Parameter => in_parameter(key),
        Role::Resource => in_resource(key),
        Role::Output => in_output(key),
        Role::StackArtifact => in_stack_artifact(key),
        Role::StackProperties => in_stack_properties(key),
        Role::OtherArtifact => in_other_artifact(key),
        Role::Texts => Role::AnyText,
        Role::PhysicalStacks => Role::PhysicalNames,
        Role::PhysicalNames => Role::PhysicalEntry,
        Role::ParameterStacks => Role::Texts,
        Role::Parameters => Role::Parameter,
        Role::Mappings => Role::Mapping,
        Role::Mapping => Role::AnyObject,
        Role::Conditions => Role::AnyObject,
        Role::Resources => Role::Resource,
        Role::Outputs => Role::Output,
        Role::Manifest { may_nest } => in_manifest(may_nest, key),
        Role::Artifacts { may_nest } => Role::Artifact { may_nest },
        Role::NestedAssembly { may_nest } => in_nested_assembly(may_nest, key),
        Role::NestedProperties { may_nest } => in_nested_properties(may_nest, key),
        Role::Anything
        | Role::Refused
        | Role::AnyText
        | Role::FileName
        | Role::AnyObject
        | Role::ParameterDefault
        | Role::Export
        | Role::Artifact { .. }
        | Role::Dependencies => Role::Anything,
    }
}
