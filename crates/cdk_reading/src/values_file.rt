ghost use Rattle.std.specs.Prelude.{None};
ghost use Rattle.cdk_eval.specs.Reading.{values_read};
ghost use Rattle.cdk_reading.specs.Answers.{ReadsValues};

use cdk_base::parse;
use cdk_eval::{Role, Values, ValuesError};
use cdk_form::first_miss;
use std::alloc::Global;

/// The values of a values file's bytes. `NotJson` exactly where the bytes are no JSON text, `Shape` exactly where the
/// document misses its form, with the first pointer in pre-order with keys in byte order. Besides, memory may be wanting.
pub fn read_values(alloc: Global, bytes: &[u8]) -> Result<Values, ValuesError>
    ensures { ReadsValues result (values_read None bytes.now) }
{
    let document = match parse(alloc, bytes) {
        Ok(Some(document)) => document,
        Ok(None) => return Err(ValuesError::NotJson),
        Err(_) => return Err(ValuesError::Memory),
    };
    match first_miss(alloc, Role::ValuesFile, &document) {
        Ok(None) => Ok(Values::of_document(document)),
        Ok(Some(pointer)) => Err(ValuesError::Shape { pointer }),
        Err(_) => Err(ValuesError::Memory),
    }
}
