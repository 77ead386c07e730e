// Looking for a text in another.
ghost use Rattle.std.specs.Prelude.{◌≡◌};
ghost use Rattle.cdk_tokens.specs.Values.{holds as spec_holds};

/// Whether the part stands somewhere in the text. An empty text holds no part, not even an empty one.
pub fn holds(part: &str, text: &str) -> bool
    ensures { result ≡ spec_holds part.now text.now }
{
    let bytes = text.as_bytes();
    for at in 0..bytes.len() {
        if bytes[at..].starts_with(part.as_bytes()) {
            return true;
        }
    }
    false
}
