// What a text has to be in its place.
ghost use Rattle.std.specs.Prelude.{◌≡◌, ◌≤◌, count_by, length};
ghost use Rattle.cdk_language.specs.Schema.{begins_character as spec_begins_character, is_export_name as spec_is_export_name, is_filled as spec_is_filled, is_parameter_type as spec_is_parameter_type, is_policy_name as spec_is_policy_name, is_schema_name as spec_is_schema_name};

pub fn is_filled(text: &str) -> bool
    ensures { result ≡ spec_is_filled text.now }
{
    !text.is_empty()
}

pub fn is_schema_name(text: &str) -> bool
    ensures { result ≡ spec_is_schema_name text.now }
{
    matches!(text, "1" | "2")
}

pub fn is_policy_name(text: &str) -> bool
    ensures { result ≡ spec_is_policy_name text.now }
{
    matches!(text, "Delete" | "Retain" | "Snapshot")
}

pub fn is_parameter_type(text: &str) -> bool
    ensures { result ≡ spec_is_parameter_type text.now }
{
    matches!(text, "String" | "Number" | "CommaDelimitedList")
}

fn begins_character(byte: u8) -> bool
    ensures { result ≡ spec_begins_character byte }
{
    byte < 128 || !(byte < 192)
}

fn characters(text: &str) -> usize
    ensures { result ≡ count_by spec_begins_character text.now }
{
    let mut count = 0;
    for byte in text.as_bytes() {
        if begins_character(*byte) {
            count += 1;
        }
    }
    count
}

/// Whether the text has 1 to 255 characters.
pub fn is_export_name(text: &str) -> bool
    ensures { result ≡ spec_is_export_name text.now }
{
    let count = characters(text);
    count != 0 && count < 256
}
