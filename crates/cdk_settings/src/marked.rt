// Settings that hold a marker's beginning.
ghost use Rattle.std.specs.Prelude.{◌≡◌, ◌++◌, ◌||◌, codes, IfOk};
ghost use Rattle.cdk_base.specs.Marker.{has_marker as spec_has_marker};
ghost use Rattle.cdk_language.specs.Findings.{setting_findings, first};

use cdk_base::{Code, Setting, Text, has_marker};
use cdk_language::Finding;
use std::alloc::{AllocError, Global};

fn is_marked(setting: &Setting) -> bool
    ensures { result ≡ (spec_has_marker setting.now.key || spec_has_marker setting.now.value) }
{
    has_marker(setting.key.as_str()) || has_marker(setting.value.as_str())
}

/// `=` and the key.
fn place_of(alloc: Global, key: &str) -> Result<Text, AllocError>
    ensures { IfOk result (λ place. place ≡ codes "=" ++ key.now) }
{
    let mut place = String::from_str(alloc, "=")?;
    place.push_str(key)?;
    Ok(Text::from_string(place))
}

/// The first setting whose key or value holds the beginning of a marker, which is `LiteralMarker` at `=` and the key.
/// None exactly where none does. The error is want of memory.
pub fn first_setting_finding(
    alloc: Global,
    settings: &[Setting],
) -> Result<Option<Finding>, AllocError>
    ensures { IfOk result (λ f. f ≡ first (setting_findings settings.now)) }
{
    for setting in settings {
        if is_marked(setting) {
            let place = place_of(alloc, setting.key.as_str())?;
            return Ok(Some(Finding {
                code: Code::LiteralMarker,
                place,
            }));
        }
    }
    Ok(None)
}
