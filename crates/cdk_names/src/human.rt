ghost use Rattle.std.specs.Prelude.{[], ◌≡◌, ◌≤◌, ◌++◌, take, length, nat_eq};
ghost use Rattle.std.specs.List.{ends_with};
ghost use Rattle.arrayvec.specs.ArrayString.{array_string_len};
ghost use Rattle.cdk_names.specs.Names.{alphanumerics, human, visible};
ghost use Rattle.cdk_names.specs.Steps.{next_last, part_text};

use crate::visible::is_visible;
use arrayvec::ArrayString;
use cdk_base::Text;

/// How many characters the human part keeps. With the 8 of the hash they are fewer than 255.
const HUMAN_LIMIT: usize = 240;

/// How many letters and digits a text has.
pub fn alphanumerics_len(text: &str) -> usize
    ensures { result ≡ length (alphanumerics text.now) }
{
    let mut count = 0;
    for byte in text.as_bytes() {
        if byte.is_ascii_alphanumeric() {
            count += 1;
        }
    }
    count
}

/// Appends the letters and digits of a text, until the name has `limit` bytes.
pub fn push_alphanumerics(name: &mut ArrayString<255>, limit: usize, text: &str)
    requires within { array_string_len name.old ≤ limit }
    requires limit { limit ≤ 255 }
    ensures { name.new.bytes ≡ take limit (name.old.bytes ++ alphanumerics text.now) }
{
    for byte in text.as_bytes() {
        if byte.is_ascii_alphanumeric() {
            if name.len() == limit {
                return;
            }
            name.push(*byte as char);
        }
    }
}

/// Whether the component that was taken last ends with this one.
fn is_repeat(last: &str, part: &str) -> bool
    ensures { result ≡ ends_with nat_eq last.now part.now }
{
    last.as_bytes().ends_with(part.as_bytes())
}

/// Appends what a component gives, and answers the component that was taken last.
fn add_part<'a>(name: &mut ArrayString<255>, last: &'a str, part: &'a str) -> &'a str
    requires { array_string_len name.old ≤ 240 }
    ensures last { result.now ≡ next_last last.now part.now }
    ensures name { name.new.bytes ≡ take 240 (name.old.bytes ++ part_text last.now part.now) }
{
    if !is_visible(part) {
        return last;
    }
    if is_repeat(last, part) {
        return last;
    }
    if part == "Resource" {
        return part;
    }
    push_alphanumerics(name, HUMAN_LIMIT, part);
    part
}

/// Writes the human part into an empty name.
pub fn push_human(name: &mut ArrayString<255>, components: &[Text])
    requires { name.old.bytes ≡ [] }
    ensures { name.new.bytes ≡ human (visible components.now) }
{
    let mut last = "";
    for component in components {
        last = add_part(name, last, component.as_str());
    }
}
