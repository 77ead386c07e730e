// The names of the forms of expressions.
ghost use Rattle.std.specs.Prelude.{◌≡◌};
ghost use Rattle.cdk_members.specs.Forms.{form_named as spec_form_named, own_form_named as spec_own_form_named};

/// A form of an expression, by its name.
#[derive(Clone, Copy)]
pub enum FormName {
    /// `Ref`
    Ref,
    /// `Fn::GetAtt`
    GetAtt,
    /// `Fn::Join`
    Join,
    /// `Fn::Select`
    Select,
    /// `Fn::Split`
    Split,
    /// `Fn::If`
    If,
    /// `Fn::FindInMap`
    FindInMap,
    /// `Fn::ImportValue`
    ImportValue,
    /// `Fn::Sub`
    Sub,
    /// `CDK::Concat`
    Concat,
    /// `CDK::Context`
    Context,
    /// `CDK::Lazy`
    Lazy,
}

/// The form of the application's own language that has the name.
fn own_form_named(name: &str) -> Option<FormName>
    ensures { result ≡ spec_own_form_named name.now }
{
    match name {
        "CDK::Concat" => Some(FormName::Concat),
        "CDK::Context" => Some(FormName::Context),
        "CDK::Lazy" => Some(FormName::Lazy),
        _ => None,
    }
}

/// The form of the name.
pub fn form_named(name: &str) -> Option<FormName>
    ensures { result ≡ spec_form_named name.now }
{
    match name {
        "Ref" => Some(FormName::Ref),
        "Fn::GetAtt" => Some(FormName::GetAtt),
        "Fn::Join" => Some(FormName::Join),
        "Fn::Select" => Some(FormName::Select),
        "Fn::Split" => Some(FormName::Split),
        "Fn::If" => Some(FormName::If),
        "Fn::FindInMap" => Some(FormName::FindInMap),
        "Fn::ImportValue" => Some(FormName::ImportValue),
        "Fn::Sub" => Some(FormName::Sub),
        _ => own_form_named(name),
    }
}
