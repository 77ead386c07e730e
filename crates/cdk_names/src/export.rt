ghost use Rattle.std.specs.Prelude.{◌≡◌, ◌≤◌, length, IsAscii};
ghost use Rattle.cdk_names.specs.Forms.{export_name as spec_export_name};

use arrayvec::ArrayString;

/// The name of a generated export: the producer's stack name, `:` and the logical name of the output, which is cut
/// from the left so that the whole has at most 255 characters. Asks for names in ASCII, where a byte is a character, of
/// at most 128 and 255. Source: AWS CDK; the cut is own.
pub fn export_name(stack: &str, local: &str) -> ArrayString<255>
    requires stack_fits { length stack.now ≤ 128 }
    requires local_fits { length local.now ≤ 255 }
    requires stack_ascii { IsAscii stack.now }
    requires local_ascii { IsAscii local.now }
    ensures { result.bytes ≡ spec_export_name stack.now local.now }
{
    let mut name = ArrayString::new();
    name.push_str(stack);
    name.push(':');
    let cut = local.len().saturating_sub(name.remaining_capacity());
    name.push_str(&local[cut..]);
    name
}
