// Texts that are made of JSON values.
ghost use Rattle.std.specs.Prelude.{◌≡◌, ◌≤◌, false, Some, IfOk};
ghost use Rattle.std.specs.Str.{IsUtf8};
ghost use Rattle.json.specs.Print.{quoted};
ghost use Rattle.serde_json.specs.Data.{Data, depth};
ghost use Rattle.serde_json.specs.Read.{read, max_depth};
ghost use Rattle.serde_json.specs.View.{view};
ghost use Rattle.serde_json.specs.Written.{has_float};
ghost use Rattle.cdk_base.specs.Json.{text_of as text_in_json};
ghost use Rattle.cdk_base.specs.Pretty.{pretty_text, IsCanonical};

use crate::Text;
use serde_json::Value;
use std::alloc::{AllocError, Global};

/// The text of a literal: a text itself, the decimals of a whole number of 64 bits, `true` or `false`.
/// `None` exactly for arrays, objects, null and all other numbers.
pub fn text_of(alloc: Global, v: &Value) -> Result<Option<Text>, AllocError>
    ensures { IfOk result (λ text. text ≡ text_in_json (view v.now)) }
{
    match v {
        Value::Bool(b) => {
            let text = format!(in alloc; "{b}")?;
            Ok(Some(Text::from_string(text)))
        }
        Value::String(s) => {
            let text = s.clone()?;
            Ok(Some(Text::from_string(text)))
        }
        Value::Number(n) => match n.as_u64() {
            Some(n) => {
                let text = format!(in alloc; "{n}")?;
                Ok(Some(Text::from_string(text)))
            }
            None => match n.as_i64() {
                Some(n) => {
                    let text = format!(in alloc; "{n}")?;
                    Ok(Some(Text::from_string(text)))
                }
                None => Ok(None),
            },
        },
        _ => Ok(None),
    }
}

/// The compact JSON of a text: in quotes, with RFC 8259's escapes where they are needed.
pub fn json_text(alloc: Global, s: &str) -> Result<Text, AllocError>
    ensures { IfOk result (λ text. text ≡ quoted s.now) }
{
    let value = Value::String(String::from_str(alloc, s)?);
    let text = value.to_string(alloc)?;
    Ok(Text::from_string(text))
}

/// The pretty text of a value: two spaces a level, keys in byte order, no newline at the end.
pub fn pretty_bytes(alloc: Global, value: &Value) -> Result<Vec<u8>, AllocError>
    requires no_float { has_float (view value.now) ≡ false }
    requires shallow { depth (view value.now) ≤ max_depth }
    ensures text { IfOk result (λ b. b.items ≡ pretty_text (view value.now)) }
    ensures utf8 { IfOk result (λ b. IsUtf8 b.items) }
    ensures reads_back { IfOk result (λ b. read b.items ≡ Some (view value.now)) }
{
    value.to_vec_pretty(alloc)
}

/// The law that the pretty text of a value is read back as that value.
pub fn pretty_text_reads_back()
    ensures { (d : Data) → IsCanonical d → depth d ≤ max_depth → read (pretty_text d) ≡ Some d }
{}
