// The index of a `Fn::Select`.
ghost use Rattle.std.specs.Prelude.{◌≡◌, ◌*◌, ◌+◌, ◌-◌, ◌^◌, ◌<◌, nat_lt, false, None, Some, MatchOption, IfOk};
ghost use Rattle.serde_json.specs.View.{view};
ghost use Rattle.cdk_eval.specs.Texts.{index_of as spec_index_of, digits_value};

use cdk_base::Value;
use std::alloc::{AllocError, Global};

/// The value of decimals. `None` exactly where it is beyond 64 bits.
fn value_of(digits: &str) -> Option<u64>
    ensures { MatchOption result (nat_lt (digits_value digits.now) (2 ^ 64) ≡ false) (λ n. n ≡ digits_value digits.now) }
{
    let mut value: u64 = 0;
    for digit in digits.as_bytes() {
        let digit = u64::from(digit.saturating_sub(b'0'));
        if value > (u64::MAX - digit) / 10 {
            return None;
        }
        value = value * 10 + digit;
    }
    Some(value)
}

/// The index that a value is: a whole number from 0 within 64 bits, or its decimals without leading zeros.
pub fn index_of(alloc: Global, value: &Value) -> Result<Option<u64>, AllocError>
    ensures { IfOk result (λ n. n ≡ spec_index_of (view value.now)) }
{
    match value {
        Value::Number(number) => Ok(number.as_u64()),
        Value::String(digits) => {
            let digits = digits.as_str();
            let Some(index) = value_of(digits) else {
                return Ok(None);
            };
            let spelled = index.to_string(alloc)?;
            if spelled.as_str() == digits {
                return Ok(Some(index));
            }
            Ok(None)
        }
        _ => Ok(None),
    }
}
