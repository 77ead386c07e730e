// What stands in a template for a construct without a value to render.
ghost use Rattle.std.specs.Prelude.{◌≡◌, IfOk};
ghost use Rattle.serde_json.specs.Data.{object};
ghost use Rattle.serde_json.specs.View.{members_view, view};
ghost use Rattle.cdk_language.specs.Construct.{kind_view};
ghost use Rattle.cdk_entries.specs.Entries.{fixed_entry as spec_fixed_entry};

use crate::parameters::parameter_entry;
use cdk_base::{Map, Value};
use cdk_language::Kind;
use std::alloc::{AllocError, Global};

fn mapping_entry(members: &Map) -> Result<Value, AllocError>
    ensures { IfOk result (λ v. view v ≡ object (members_view members.now.entries)) }
{
    Ok(Value::Object(members.clone()?))
}

/// The entry of a construct without a value to render: of a parameter, or of a mapping, which stands as it is given. For any other
/// it is an empty object.
pub fn fixed_entry(alloc: Global, kind: &Kind) -> Result<Value, AllocError>
    ensures { IfOk result (λ v. view v ≡ spec_fixed_entry (kind_view kind.now)) }
{
    match kind {
        Kind::Parameter(parameter) => parameter_entry(alloc, parameter),
        Kind::Mapping(members) => mapping_entry(members),
        Kind::App
        | Kind::Stage
        | Kind::Stack { .. }
        | Kind::Group
        | Kind::Resource(_)
        | Kind::Condition(_)
        | Kind::Output(_)
        | Kind::Lazy(_) => Ok(Value::Object(Map::new(alloc))),
    }
}
