// How the tokens of keys are written.
ghost use Rattle.std.specs.Prelude.{◌≡◌, IfOk};
ghost use Rattle.serde_json.specs.View.{view};
ghost use Rattle.cdk_markers.specs.Key.{text_marker as spec_text_marker, list_marker as spec_list_marker};

use cdk_base::{Text, Value};
use std::alloc::{AllocError, Global};

/// How the token of the key is written inside a text: `${Token[KEY]}`.
pub fn text_marker(alloc: Global, key: &str) -> Result<Text, AllocError>
    ensures { IfOk result (λ text. text ≡ spec_text_marker key.now) }
{
    let text = format!(in alloc; "${{Token[{key}]}}")?;
    Ok(Text::from_string(text))
}

/// How the token of the key is written as a list: `["#{Token[KEY]}"]`.
pub fn list_marker(alloc: Global, key: &str) -> Result<Value, AllocError>
    ensures { IfOk result (λ value. view value ≡ spec_list_marker key.now) }
{
    let text = format!(in alloc; "#{{Token[{key}]}}")?;
    let list = vec![in alloc; Value::String(text)]?;
    Ok(Value::Array(list))
}
