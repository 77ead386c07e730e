// Arrays of a few items.
ghost use Rattle.std.specs.Prelude.{◌≡◌, ◌≢◌, [], ◌∷◌, length, MatchOption};

use cdk_base::Value;

/// The item, where there is one alone.
pub fn one_of(items: &Vec<Value>) -> Option<&Value>
    ensures { MatchOption result (length items.now.items ≢ 1)
        (λ v. items.now.items ≡ v.now ∷ []) }
{
    match items.as_slice() {
        [only] => Some(only),
        _ => None,
    }
}

/// The two items, where there are two.
pub fn two_of(items: &Vec<Value>) -> Option<(&Value, &Value)>
    ensures { MatchOption result (length items.now.items ≢ 2)
        (λ p. items.now.items ≡ p.0.now ∷ p.1.now ∷ []) }
{
    match items.as_slice() {
        [first, second] => Some((first, second)),
        _ => None,
    }
}

/// The three items, where there are three.
pub fn three_of(items: &Vec<Value>) -> Option<(&Value, &Value, &Value)>
    ensures { MatchOption result (length items.now.items ≢ 3)
        (λ p. items.now.items ≡ p.0.now ∷ p.1.now ∷ p.2.now ∷ []) }
{
    match items.as_slice() {
        [first, second, third] => Some((first, second, third)),
        _ => None,
    }
}
