// The artifacts of a manifest (CDK's cloud assembly schema).
ghost use Rattle.std.specs.Prelude.{◌≡◌, option_map, unwrap_or};
ghost use Rattle.serde_json.specs.Data.{no_members};
ghost use Rattle.serde_json.specs.View.{view, members_view};
ghost use Rattle.cdk_eval.specs.Manifest.{artifacts as spec_artifacts, is_type as spec_is_type, property as spec_property};

use cdk_base::{Map, Value};

/// The artifacts by their ids, where the manifest has an object of them.
pub fn artifacts(manifest: &Value) -> Option<&Map>
    ensures { unwrap_or (option_map (λ m. members_view m.now.entries) result) no_members ≡ spec_artifacts (view manifest.now) }
{
    match manifest.get("artifacts") {
        Some(artifacts) => artifacts.as_object(),
        None => None,
    }
}

/// Whether the artifact is of the type.
pub fn is_type(artifact: &Value, kind: &str) -> bool
    ensures { result ≡ spec_is_type kind.now (view artifact.now) }
{
    kind == artifact.get("type").and_then(Value::as_str).unwrap_or("")
}

/// A text among the artifact's properties.
pub fn property<'m>(artifact: &'m Value, key: &str) -> Option<&'m str>
    ensures { option_map (λ t. t.now) result ≡ spec_property key.now (view artifact.now) }
{
    artifact.get("properties")?.get(key)?.as_str()
}
