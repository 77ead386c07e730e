ghost use Rattle.std.specs.Prelude.{◌≡◌, IfOk, option_map};
ghost use Rattle.serde_json.specs.View.{view};
ghost use Rattle.cdk_base.specs.Json.{parsed};

use serde_json::Value;
use std::alloc::{AllocError, Global};

/// The value of a JSON text (RFC 8259) in UTF-8. `None` exactly where the bytes are no such text: not UTF-8, not JSON,
/// nested more than 127 deep, or with a number beyond a float's range. Of equal keys of one object the last counts.
pub fn parse(alloc: Global, bytes: &[u8]) -> Result<Option<Value>, AllocError>
    ensures { IfOk result (λ value. option_map view value ≡ parsed bytes.now) }
{
    match Value::from_slice(alloc, bytes) {
        Ok(value) => Ok(Some(value)),
        Err(error) => {
            if error.is_memory() {
                Err(AllocError)
            } else {
                Ok(None)
            }
        }
    }
}
