// What every construct has beside its kind and its children.
ghost use Rattle.std.specs.Prelude.{◌≡◌, IfOk, option_and_then};
ghost use Rattle.serde_json.specs.Find.{as_object};
ghost use Rattle.serde_json.specs.View.{view as json_view, items_view, members_view};
ghost use Rattle.cdk_language.specs.Application.{texts_of as texts_in, entry_in as entry_in_members, entries_of as entries_in, if_given, context_in as context_in_members, head_in as head_in_members};
ghost use Rattle.cdk_language.specs.Construct.{entry_view};
ghost use Rattle.cdk_members.specs.Gives.{Gives};
ghost use Rattle.cdk_members.specs.Views.{data_view};
ghost use Rattle.cdk_heads.specs.Views.{head_view, entries_view, as_they_are};

use cdk_base::{List, Map, Text, Value};
use cdk_language::Entry;
use cdk_members::{ReadError, logical_id_of, member, priority_of, text_at};
use std::alloc::{AllocError, Global};

/// The parts of a construct beside its kind and its children.
#[derive(Drop)]
pub struct Head {
    pub id: Text,
    pub context: Map,
    pub aspects: List<Entry>,
    pub depends: List<Text>,
    pub logical: Option<Text>,
}

/// The construct's own context values; none where none are given.
fn context_of(alloc: Global, members: &Map) -> Result<Map, AllocError>
    ensures { IfOk result (λ m. members_view m.entries ≡ context_in_members (members_view members.now.entries)) }
{
    let Some(value) = member(members, "context") else {
        return Ok(Map::new(alloc));
    };
    match value.clone()? {
        Value::Object(context) => Ok(context),
        _ => Ok(Map::new(alloc)),
    }
}

fn texts_of(alloc: Global, items: &Vec<Value>) -> Result<List<Text>, ReadError>
    ensures { Gives as_they_are result (texts_in (items_view items.now.items)) }
{
    let mut found = List::new(alloc);
    for item in items {
        let Some(text) = item.as_str() else {
            return Err(ReadError::Shape);
        };
        found.push(Text::new(alloc, text)?)?;
    }
    Ok(found)
}

fn entry_in(alloc: Global, members: &Map) -> Result<Entry, ReadError>
    ensures { Gives entry_view result (entry_in_members (members_view members.now.entries)) }
{
    let Some(name) = text_at(members, "name") else {
        return Err(ReadError::Shape);
    };
    let Some(with) = member(members, "with") else {
        return Err(ReadError::Shape);
    };
    let priority = priority_of(member(members, "priority"))?;
    let name = Text::new(alloc, name)?;
    let with = with.clone()?;
    Ok(Entry {
        name,
        with,
        priority,
    })
}

fn entry_of(alloc: Global, value: &Value) -> Result<Entry, ReadError>
    ensures { Gives entry_view result (option_and_then entry_in_members (as_object (json_view value.now))) }
{
    match value.as_object() {
        Some(members) => entry_in(alloc, members),
        None => Err(ReadError::Shape),
    }
}

fn entries_of(alloc: Global, items: &Vec<Value>) -> Result<List<Entry>, ReadError>
    ensures { Gives entries_view result (entries_in (items_view items.now.items)) }
{
    let mut found = List::new(alloc);
    for item in items {
        found.push(entry_of(alloc, item)?)?;
    }
    Ok(found)
}

fn aspects_of(alloc: Global, value: Option<&Value>) -> Result<List<Entry>, ReadError>
    ensures { Gives entries_view result (if_given entries_in (data_view value.entry)) }
{
    match value {
        None => Ok(List::new(alloc)),
        Some(value) => match value.as_array() {
            Some(items) => entries_of(alloc, items),
            None => Err(ReadError::Shape),
        },
    }
}

fn depends_of(alloc: Global, value: Option<&Value>) -> Result<List<Text>, ReadError>
    ensures { Gives as_they_are result (if_given texts_in (data_view value.entry)) }
{
    match value {
        None => Ok(List::new(alloc)),
        Some(value) => match value.as_array() {
            Some(items) => texts_of(alloc, items),
            None => Err(ReadError::Shape),
        },
    }
}

/// The parts of a construct of the id.
pub fn head_of(alloc: Global, members: &Map, id: &str) -> Result<Head, ReadError>
    ensures { Gives head_view result (head_in_members (members_view members.now.entries) id.now) }
{
    let id = Text::new(alloc, id)?;
    let logical = logical_id_of(alloc, members)?;
    let depends = depends_of(alloc, member(members, "dependsOn"))?;
    let aspects = aspects_of(alloc, member(members, "aspects"))?;
    let context = context_of(alloc, members)?;
    Ok(Head {
        id,
        context,
        aspects,
        depends,
        logical,
    })
}
