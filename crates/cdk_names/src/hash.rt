ghost use Rattle.std.specs.Prelude.{◌≡◌, ◌+◌, ◌<◌, ◌≤◌, ◌++◌, ◌∷◌, [], ℕ, List, if◌then◌else◌};
ghost use Rattle.std.specs.List.{join_with_byte};
ghost use Rattle.arrayvec.specs.ArrayString.{array_string_len};
ghost use Rattle.md5.specs.Md5.{md5, Holds};
ghost use Rattle.cdk_names.specs.Names.{visible, upper_digit, upper_hex, hash};

use crate::visible::is_visible;
use arrayvec::ArrayString;
use cdk_base::Text;
use md5::{Digest, Md5};

/// Takes in a component, after a `/` unless it is the first.
fn absorb(hasher: &mut Md5, later: bool, text: &str)
    ensures { (m : List ℕ) → Holds hasher.old m
        → Holds hasher.new (m ++ ((if later then 47 ∷ [] else []) ++ text.now)) }
{
    if later {
        hasher.update(b"/");
    }
    hasher.update(text.as_bytes());
}

/// The digest of the visible components, joined by `/`.
fn digest_of(components: &[Text]) -> [u8; 16]
    ensures { result ≡ md5 (join_with_byte 47 (visible components.now)) }
{
    let mut hasher = Md5::new();
    let mut later = false;
    for component in components {
        let text = component.as_str();
        if is_visible(text) {
            absorb(&mut hasher, later, text);
            later = true;
        }
    }
    hasher.finalize()
}

fn digit_of(n: u8) -> u8
    requires { n < 16 }
    ensures value { result ≡ upper_digit n }
    ensures ascii { result < 128 }
{
    if n < 10 { b'0' + n } else { b'A' - 10 + n }
}

fn push_byte(name: &mut ArrayString<255>, byte: u8)
    requires { array_string_len name.old + 2 ≤ 255 }
    ensures { name.new.bytes ≡ name.old.bytes ++ upper_hex byte }
{
    name.push(digit_of(byte / 16) as char);
    name.push(digit_of(byte % 16) as char);
}

/// Appends the hash of the visible components.
pub fn push_hash(name: &mut ArrayString<255>, components: &[Text])
    requires { array_string_len name.old ≤ 240 }
    ensures { name.new.bytes ≡ name.old.bytes ++ hash (join_with_byte 47 (visible components.now)) }
{
    let digest = digest_of(components);
    for byte in &digest[..4] {
        push_byte(name, *byte);
    }
}
