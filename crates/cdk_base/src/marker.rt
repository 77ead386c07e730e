ghost use Rattle.std.specs.Prelude.{◌≡◌};
ghost use Rattle.cdk_base.specs.Marker.{begins_marker as spec_begins_marker, has_marker as spec_has_marker};

fn begins_marker(bytes: &[u8]) -> bool
    ensures { result ≡ spec_begins_marker bytes.now }
{
    bytes.starts_with(b"${Token[") || bytes.starts_with(b"#{Token[")
}

/// Whether `${Token[` or `#{Token[`, with which the markers of tokens begin, stands anywhere in the text.
pub fn has_marker(text: &str) -> bool
    ensures { result ≡ spec_has_marker text.now }
{
    let bytes = text.as_bytes();
    for at in 0..bytes.len() {
        if begins_marker(&bytes[at..]) {
            return true;
        }
    }
    false
}
