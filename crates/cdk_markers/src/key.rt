// The form of a token's key: its hint, `.` and its number in decimals.
ghost use Rattle.std.specs.Prelude.{◌≡◌};
ghost use Rattle.std.specs.List.{prefix_len};
ghost use Rattle.cdk_markers.specs.Key.{is_key_byte as spec_is_key_byte, is_number as spec_is_number, ends_in_number as spec_ends_in_number, is_key as spec_is_key};

fn is_key_byte(byte: u8) -> bool
    ensures { result ≡ spec_is_key_byte byte }
{
    byte.is_ascii_alphanumeric() || byte == b':' || byte == b'.' || byte == b'_' || byte == b'-'
}

/// How many bytes from the first on are such that a key may hold.
pub fn key_bytes_len(bytes: &[u8]) -> usize
    ensures { result ≡ prefix_len spec_is_key_byte bytes.now }
{
    for at in 0..bytes.len() {
        if !is_key_byte(bytes[at]) {
            return at;
        }
    }
    bytes.len()
}

fn is_number(bytes: &[u8]) -> bool
    ensures { result ≡ spec_is_number bytes.now }
{
    for byte in bytes {
        if !byte.is_ascii_digit() {
            return false;
        }
    }
    !bytes.is_empty()
}

fn ends_in_number(bytes: &[u8]) -> bool
    ensures { result ≡ spec_ends_in_number bytes.now }
{
    for at in 0..bytes.len() {
        if bytes[at] == b'.' && is_number(&bytes[at + 1..]) {
            return true;
        }
    }
    false
}

/// Whether the bytes have the form of a key.
pub fn are_key(bytes: &[u8]) -> bool
    ensures { result ≡ spec_is_key bytes.now }
{
    for byte in bytes {
        if !is_key_byte(*byte) {
            return false;
        }
    }
    ends_in_number(bytes)
}

/// Whether the text has the form of a token's key: one or more of `A-Z a-z 0-9 : . _ -`, with `.` and one or more
/// digits at the end.
pub fn is_key(text: &str) -> bool
    ensures { result ≡ spec_is_key text.now }
{
    are_key(text.as_bytes())
}
