// JSON Pointers (RFC 6901), built from the place up to the root.
ghost use Rattle.std.specs.Prelude.{◌≡◌, ◌++◌, IfOk, OnOk, string_bytes, encode_utf8, decimal};
ghost use Rattle.cdk_base.specs.Pointer.{escape, step_to};

use crate::text::Text;
use std::alloc::{AllocError, Global};

fn push_escaped(place: &mut String, c: char) -> Result<(), AllocError>
    ensures { OnOk result (string_bytes place.new ≡ string_bytes place.old ++ escape (encode_utf8 c)) }
{
    if c == '~' {
        return place.push_str("~0");
    }
    if c == '/' {
        return place.push_str("~1");
    }
    place.push(c)
}

/// The pointer of a place in a member, as the member's object tells it.
pub fn step_to(alloc: Global, step: &str, rest: &str) -> Result<Text, AllocError>
    ensures { IfOk result (λ t. t ≡ step_to step.now rest.now) }
{
    let mut place = String::new(alloc);
    place.push('/')?;
    for c in step.chars() {
        push_escaped(&mut place, c)?;
    }
    place.push_str(rest)?;
    Ok(Text::from_string(place))
}

/// The pointer of a place in an item, as the item's array tells it.
pub fn step_to_index(alloc: Global, index: usize, rest: &str) -> Result<Text, AllocError>
    ensures { IfOk result (λ t. t ≡ step_to (decimal index) rest.now) }
{
    let digits = index.to_string(alloc)?;
    step_to(alloc, digits.as_str(), rest)
}
