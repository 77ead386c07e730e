// The sections of a template that hold constructs, and which constructs they hold.
ghost use Rattle.std.specs.Prelude.{◌≡◌};
ghost use Rattle.cdk_language.specs.Construct.{kind_view};
ghost use Rattle.cdk_template.specs.Entries.{has_kind, section_key};

use cdk_language::Kind;

/// A section of a template (CloudFormation's template anatomy).
#[derive(Clone, Copy)]
pub(crate) enum Section {
    Conditions,
    Mappings,
    Outputs,
    Parameters,
    Resources,
}

impl Section {
    /// Its key in the template.
    pub(crate) fn key(self) -> &'static str
        ensures { result.now ≡ section_key self }
    {
        match self {
            Section::Conditions => "Conditions",
            Section::Mappings => "Mappings",
            Section::Outputs => "Outputs",
            Section::Parameters => "Parameters",
            Section::Resources => "Resources",
        }
    }

    /// Whether it holds constructs of this kind.
    pub(crate) fn holds(self, kind: &Kind) -> bool
        ensures { result ≡ has_kind self (kind_view kind.now) }
    {
        match self {
            Section::Conditions => matches!(kind, Kind::Condition(_)),
            Section::Mappings => matches!(kind, Kind::Mapping(_)),
            Section::Outputs => matches!(kind, Kind::Output(_)),
            Section::Parameters => matches!(kind, Kind::Parameter(_)),
            Section::Resources => matches!(kind, Kind::Resource(_)),
        }
    }
}
