ghost use Rattle.std.specs.Prelude.{◌≡◌, ◌<◌, length, option_map, IfSome};
ghost use Rattle.cdk_texts.specs.Around.{around as spec_around};

/// The text before the first mark and after it.
pub fn around<'a>(text: &'a str, mark: &str) -> Option<(&'a str, &'a str)>
    requires { 0 < length mark.now }
    ensures value { option_map (λ p. (p.0.now, p.1.now)) result ≡ spec_around mark.now text.now }
    ensures shorter { IfSome result (λ p. length p.1.now < length text.now) }
{
    text.split_once(mark)
}
