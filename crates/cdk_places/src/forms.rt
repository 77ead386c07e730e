// Which objects are forms of expressions and conditions.
ghost use Rattle.std.specs.Prelude.{◌≡◌, option_map};
ghost use Rattle.serde_json.specs.Find.{as_str};
ghost use Rattle.serde_json.specs.View.{view, members_view};
ghost use Rattle.cdk_language.specs.Schema.{is_form_name as spec_is_form_name, is_no_value as spec_is_no_value, is_barred as spec_is_barred, is_form as spec_is_form, is_condition_name as spec_is_condition_name, is_condition_form as spec_is_condition_form};

use cdk_base::{Map, Value};
use cdk_language::Within;
use cdk_members::{form_named, only_member};

fn is_form_name(key: &str) -> bool
    ensures { result ≡ spec_is_form_name key.now }
{
    form_named(key).is_some()
}

fn is_no_value(value: &Value) -> bool
    ensures { result ≡ spec_is_no_value (as_str (view value.now)) }
{
    match value {
        Value::String(text) => text.as_str() == "AWS::NoValue",
        _ => false,
    }
}

fn is_barred(within: Within, key: &str, value: &Value) -> bool
    ensures { result ≡ spec_is_barred within key.now (view value.now) }
{
    match within {
        Within::Construct => false,
        Within::Condition => match key {
            "Fn::GetAtt" | "Fn::If" | "Fn::ImportValue" | "CDK::Lazy" => true,
            "Ref" => is_no_value(value),
            _ => false,
        },
    }
}

/// Whether the object is a form of an expression that may stand here.
pub fn is_form(within: Within, members: &Map) -> bool
    ensures { result ≡ spec_is_form within (members_view members.now.entries) }
{
    let Some((key, member)) = only_member(members) else {
        return false;
    };
    is_form_name(key.as_str()) && !is_barred(within, key.as_str(), member)
}

fn is_condition_name(key: &str) -> bool
    ensures { result ≡ spec_is_condition_name key.now }
{
    matches!(
        key,
        "Fn::Equals" | "Fn::And" | "Fn::Or" | "Fn::Not" | "Condition"
    )
}

/// Whether the object is a form of a condition.
pub fn is_condition_form(members: &Map) -> bool
    ensures { result ≡ spec_is_condition_form (members_view members.now.entries) }
{
    let Some((key, _member)) = only_member(members) else {
        return false;
    };
    is_condition_name(key.as_str())
}
