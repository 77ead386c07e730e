// Looking at the members of an object.
ghost use Rattle.std.specs.Prelude.{◌≡◌, ◌≢◌, [], ◌∷◌, length, codes, option_map, IfOk, MatchOption};
ghost use Rattle.serde_json.specs.Find.{get_member};
ghost use Rattle.serde_json.specs.View.{view, members_view};
ghost use Rattle.cdk_base.specs.Json.{is_form_key as spec_is_form_key};
ghost use Rattle.cdk_language.specs.Application.{text_at as spec_text_at, has_form_key as spec_has_form_key};
ghost use Rattle.cdk_language.specs.Schema.{lacks as spec_lacks};

use cdk_base::{Map, Text, Value};
use std::alloc::{AllocError, Global};

/// The member of the key.
pub fn member<'a>(members: &'a Map, key: &str) -> Option<&'a Value>
    ensures { option_map (λ v. view v.now) result ≡ get_member key.now (members_view members.now.entries) }
{
    members.get(key)
}

/// The key and the member, where there is one alone.
pub fn only_member(members: &Map) -> Option<(&String, &Value)>
    ensures { MatchOption result (length members.now.entries ≢ 1)
        (λ p. members.now.entries ≡ (p.0.now, p.1.now) ∷ []) }
{
    let mut entries = members.iter();
    let Some((key, member)) = entries.next() else {
        return None;
    };
    if entries.next().is_some() {
        return None;
    }
    Some((key, member))
}

/// Whether no member has the key.
pub fn lacks(members: &Map, key: &str) -> bool
    ensures { result ≡ spec_lacks key.now (members_view members.now.entries) }
{
    member(members, key).is_none()
}

/// The text at the key, where there is a text.
pub fn text_at<'a>(members: &'a Map, key: &str) -> Option<&'a str>
    ensures { option_map (λ s. s.now) result ≡ spec_text_at key.now (members_view members.now.entries) }
{
    match member(members, key) {
        Some(value) => value.as_str(),
        None => None,
    }
}

/// The text at the key, where there is one, for its own. The error is want of memory.
pub fn optional_text(alloc: Global, members: &Map, key: &str) -> Result<Option<Text>, AllocError>
    ensures { IfOk result (λ text. text ≡ spec_text_at key.now (members_view members.now.entries)) }
{
    match text_at(members, key) {
        Some(text) => Ok(Some(Text::new(alloc, text)?)),
        None => Ok(None),
    }
}

/// The logical name that a construct asks for: the text at `logicalId` (AWS CDK's `overrideLogicalId`). The error is
/// want of memory.
pub fn logical_id_of(alloc: Global, members: &Map) -> Result<Option<Text>, AllocError>
    ensures { IfOk result (λ text. text ≡ spec_text_at (codes "logicalId") (members_view members.now.entries)) }
{
    optional_text(alloc, members, "logicalId")
}

/// Whether only a form may have the key: it is `Ref`, or begins with `Fn::` or `CDK::`.
pub fn is_form_key(key: &str) -> bool
    ensures { result ≡ spec_is_form_key key.now }
{
    (key == "Ref" || key.starts_with("Fn::")) || key.starts_with("CDK::")
}

/// Whether an object has a key that only a form may have.
pub fn has_form_key(members: &Map) -> bool
    ensures { result ≡ spec_has_form_key (members_view members.now.entries) }
{
    for (key, _member) in members.iter() {
        if is_form_key(key.as_str()) {
            return true;
        }
    }
    false
}
