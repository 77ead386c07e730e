ghost use Rattle.std.specs.Prelude.{◌≡◌};
ghost use Rattle.std.specs.Char.{is_ascii_alphanumeric};
ghost use Rattle.std.specs.List.{list_all};
ghost use Rattle.cdk_names.specs.Forms.{is_logical as spec_is_logical, is_stack_name as spec_is_stack_name, is_stack_name_byte};

fn all_alphanumeric(bytes: &[u8]) -> bool
    ensures { result ≡ list_all is_ascii_alphanumeric bytes.now }
{
    for byte in bytes {
        if !byte.is_ascii_alphanumeric() {
            return false;
        }
    }
    true
}

fn all_in_stack_names(bytes: &[u8]) -> bool
    ensures { result ≡ list_all is_stack_name_byte bytes.now }
{
    for byte in bytes {
        if !byte.is_ascii_alphanumeric() && *byte != b'-' {
            return false;
        }
    }
    true
}

/// Whether this is a logical name: a letter followed by letters and digits, 1 to 255 in all.
/// Source: CloudFormation's template reference and its quota of 255; the letter at the start is AWS CDK's check.
pub fn is_logical(s: &str) -> bool
    ensures { result ≡ spec_is_logical s.now }
{
    let Some((first, rest)) = s.as_bytes().split_first() else {
        return false;
    };
    first.is_ascii_alphabetic() && all_alphanumeric(rest) && s.len() <= 255
}

/// Whether this is the name of a stack: a letter followed by letters, digits and `-`, at most 128 in all.
/// Source: CloudFormation, `CreateStack`.
pub fn is_stack_name(s: &str) -> bool
    ensures { result ≡ spec_is_stack_name s.now }
{
    let Some((first, rest)) = s.as_bytes().split_first() else {
        return false;
    };
    first.is_ascii_alphabetic() && all_in_stack_names(rest) && s.len() <= 128
}
