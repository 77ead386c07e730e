// Ids, and paths of them (own rules over AWS CDK's construct ids).
ghost use Rattle.std.specs.Prelude.{◌≡◌, IfOk, OnOk, string_bytes};
ghost use Rattle.cdk_scoping.specs.Ids.{is_id as spec_is_id, path_in as spec_path_in};

use std::alloc::{AllocError, Global};

/// The longest id, in characters.
const ID_LIMIT: usize = 400;

/// Whether a text may be an id: 1 to 400 characters of printable ASCII without `/` (AWS CDK forbids `/` in ids; the
/// other bounds are own).
pub fn is_id(id: &str) -> bool
    ensures { result ≡ spec_is_id id.now }
{
    for byte in id.as_bytes() {
        if !(32 <= *byte && *byte <= 126 && *byte != b'/') {
            return false;
        }
    }
    1 <= id.len() && id.len() <= ID_LIMIT
}

/// Puts an id behind a path, after a `/` where neither is empty.
fn join(path: &mut String, id: &str) -> Result<(), AllocError>
    ensures { OnOk result (string_bytes path.new ≡ spec_path_in (string_bytes path.old) id.now) }
{
    if !path.is_empty() && !id.is_empty() {
        path.push('/')?;
    }
    path.push_str(id)
}

/// The path of the id in a scope of the path: both with `/` between them, or the one that isn't empty (AWS CDK's
/// construct paths). The error is want of memory.
pub fn path_in(alloc: Global, scope: &str, id: &str) -> Result<String, AllocError>
    ensures { IfOk result (λ p. string_bytes p ≡ spec_path_in scope.now id.now) }
{
    let mut path = String::from_str(alloc, scope)?;
    join(&mut path, id)?;
    Ok(path)
}
