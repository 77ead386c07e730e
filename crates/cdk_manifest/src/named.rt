// The names of constructs; where a construct has none of a kind, it is the empty one.
ghost use Rattle.std.specs.Prelude.{◌≡◌, [], List, option_map, unwrap_or};
ghost use Rattle.cdk_tree.specs.Placed.{Placed};
ghost use Rattle.cdk_stacks.specs.Made.{AreNamesOf};
ghost use Rattle.cdk_manifest.specs.Manifest.{telling_of};

use cdk_stacks::Names;
use cdk_tree::NodeId;

fn or_empty(name: Option<&str>) -> &str
    ensures { result.now ≡ unwrap_or (option_map (λ s. s.now) name.entry) [] }
{
    match name {
        Some(name) => name,
        None => "",
    }
}

pub fn logical(names: &Names, at: NodeId) -> &str
    ensures { (cs : List Placed) → AreNamesOf names.now cs → result.now ≡ (telling_of cs).logical at }
{
    or_empty(names.logical(at))
}

pub fn artifact(names: &Names, at: NodeId) -> &str
    ensures { (cs : List Placed) → AreNamesOf names.now cs → result.now ≡ (telling_of cs).artifact at }
{
    or_empty(names.artifact(at))
}

pub fn stack_name(names: &Names, at: NodeId) -> &str
    ensures { (cs : List Placed) → AreNamesOf names.now cs → result.now ≡ (telling_of cs).stack_name at }
{
    or_empty(names.stack_name(at))
}
