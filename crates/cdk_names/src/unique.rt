ghost use Rattle.std.specs.Prelude.{◌≡◌, option_map};
ghost use Rattle.cdk_names.specs.Names.{unique_id as spec_unique_id, hashed_name as spec_hashed_name, visible};

use crate::hash::push_hash;
use crate::human::{alphanumerics_len, push_alphanumerics, push_human};
use crate::visible::{Visible, visible_of};
use arrayvec::ArrayString;
use cdk_base::Text;

fn hashed_name(components: &[Text]) -> ArrayString<255>
    ensures { result.bytes ≡ spec_hashed_name (visible components.now) }
{
    let mut name = ArrayString::new();
    push_human(&mut name, components);
    push_hash(&mut name, components);
    name
}

/// The name of a path's components, the same for the same components. `None` exactly where each is `Default`.
///
/// A component `Default` counts nowhere. Where one is left and has at most 255 letters and digits, these are the name.
/// Else it is a human part of at most 240 and a hash of 8 hex digits, upper case: the first of the MD5 of the
/// components joined by `/`. The human part has the letters and digits of the components, but for `Resource`, and for
/// one that ends the component taken before it. Takes no memory. Source: AWS CDK, `makeUniqueId`.
pub fn unique_id(components: &[Text]) -> Option<ArrayString<255>>
    ensures { option_map (λ s. s.bytes) result ≡ spec_unique_id components.now }
{
    match visible_of(components) {
        Visible::Nothing => None,
        Visible::One(text) => if alphanumerics_len(text) <= 255 {
            let mut name = ArrayString::new();
            push_alphanumerics(&mut name, 255, text);
            Some(name)
        } else {
            Some(hashed_name(components))
        },
        Visible::Many => Some(hashed_name(components)),
    }
}
