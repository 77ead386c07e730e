// The keys of list markers.
ghost use Rattle.std.specs.Prelude.{◌≡◌, option_map};
ghost use Rattle.serde_json.specs.View.{view};
ghost use Rattle.cdk_markers.specs.ListKey.{list_text_key as spec_list_text_key, list_key_of};

use crate::key::is_key;
use cdk_base::Value;

fn list_text_key<'a>(text: &'a str) -> Option<&'a str>
    ensures { option_map (λ k. k.now) result ≡ spec_list_text_key text.now }
{
    let opened = text.strip_prefix("#{Token[")?;
    let key = opened.strip_suffix("]}")?;
    if is_key(key) {
        return Some(key);
    }
    None
}

/// The key of a list token's marker: of an array of one text that is exactly `#{Token[KEY]}`.
pub fn list_key(value: &Value) -> Option<&str>
    ensures { option_map (λ k. k.now) result ≡ list_key_of (view value.now) }
{
    let list = value.as_array()?;
    if list.len() != 1 {
        return None;
    }
    let text = list[0].as_str()?;
    list_text_key(text)
}
