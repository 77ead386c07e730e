// The names of the kinds of constructs.
ghost use Rattle.std.specs.Prelude.{◌≡◌};
ghost use Rattle.cdk_language.specs.Schema.{kind_named as spec_kind_named};

use cdk_language::KindName;

/// The kind of the name.
pub fn kind_named(name: &str) -> Option<KindName>
    ensures { result ≡ spec_kind_named name.now }
{
    match name {
        "stage" => Some(KindName::Stage),
        "stack" => Some(KindName::Stack),
        "group" => Some(KindName::Group),
        "resource" => Some(KindName::Resource),
        "parameter" => Some(KindName::Parameter),
        "condition" => Some(KindName::Condition),
        "mapping" => Some(KindName::Mapping),
        "output" => Some(KindName::Output),
        "lazy" => Some(KindName::Lazy),
        _ => None,
    }
}
