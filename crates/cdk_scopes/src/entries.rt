// The sections of a template and their entries (CloudFormation's template anatomy).
ghost use Rattle.std.specs.Prelude.{◌≡◌, option_map, unwrap_or};
ghost use Rattle.serde_json.specs.Data.{no_members};
ghost use Rattle.serde_json.specs.Find.{get_member};
ghost use Rattle.serde_json.specs.View.{view, members_view};
ghost use Rattle.cdk_eval.specs.Sections.{section as spec_section};

use cdk_base::{Map, Value};

/// The section of the key, where the value has such an object.
pub fn section<'a>(value: &'a Value, key: &str) -> Option<&'a Map>
    ensures { unwrap_or (option_map (λ m. members_view m.now.entries) result) no_members ≡ spec_section key.now (view value.now) }
{
    match value.get(key) {
        Some(section) => section.as_object(),
        None => None,
    }
}

/// The entry of the name in the section of the key.
pub fn entry<'a>(value: &'a Value, key: &str, name: &str) -> Option<&'a Value>
    ensures { option_map (λ v. view v.now) result ≡ get_member name.now (spec_section key.now (view value.now)) }
{
    match value.get(key) {
        Some(section) => section.get(name),
        None => None,
    }
}
