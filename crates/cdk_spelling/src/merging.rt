// Parts of a text merged from the left: what is done, and the text that is still open behind it.
ghost use Rattle.std.specs.Prelude.{◌≡◌, None, OnOk, string_bytes};
ghost use Rattle.serde_json.specs.Data.{Items, item, no_items, string};
ghost use Rattle.serde_json.specs.View.{view, items_view};
ghost use Rattle.cdk_base.specs.Json.{text_of as text_in};
ghost use Rattle.cdk_plain.specs.Rendered.{and_items, joined_in, merged, spliced_onto};

use crate::splices::{is_joined, joined_items};
use cdk_base::{Value, text_of};
use serde_json::push;
use std::alloc::{AllocError, Global};
use std::mem;

/// Puts a text behind the items, unless it is empty.
fn push_text(items: &mut Vec<Value>, text: String) -> Result<(), AllocError>
    ensures { OnOk result (items_view items.new.items ≡ and_items (items_view items.old.items) (merged (item (string (string_bytes text)) no_items))) }
{
    if text.as_str().is_empty() {
        return Ok(());
    }
    push(items, Value::String(text))
}

/// Parts that are merged so far. Texts that meet are written behind one another, so their bytes are copied once each.
#[derive(Drop)]
pub struct Merging {
    alloc: Global,
    items: Vec<Value>,
    text: String,
}

impl Merging {
    ghost use Rattle.std.specs.Prelude.{IfOk};
    ghost use Rattle.cdk_spelling.specs.Merging.{continued_by};

    /// No part. It takes no memory.
    pub fn new(alloc: Global) -> Merging
        ensures { (more : Items) → continued_by result more ≡ merged more }
    {
        Merging {
            alloc,
            items: Vec::new(alloc),
            text: String::new(alloc),
        }
    }

    fn add_text(&mut self, text: String) -> Result<(), AllocError>
        ensures { OnOk result ((more : Items) → continued_by self.new more ≡ continued_by self.old (item (string (string_bytes text)) more)) }
    {
        if !self.text.as_str().is_empty() {
            return self.text.push_str(text.as_str());
        }
        self.text = text;
        Ok(())
    }

    /// Adds a value that is no literal.
    fn add_value(&mut self, value: Value) -> Result<(), AllocError>
        requires { text_in (view value) ≡ None }
        ensures { OnOk result ((more : Items) → continued_by self.new more ≡ continued_by self.old (item (view value) more)) }
    {
        let text = mem::replace(&mut self.text, String::new(self.alloc));
        push_text(&mut self.items, text)?;
        push(&mut self.items, value)
    }

    fn add_other(&mut self, part: Value) -> Result<(), AllocError>
        ensures { OnOk result ((more : Items) → continued_by self.new more ≡ continued_by self.old (item (view part) more)) }
    {
        if let Some(literal) = text_of(self.alloc, &part)? {
            return self.text.push_str(literal.as_str());
        }
        self.add_value(part)
    }

    /// Adds a part as it stands.
    fn add(&mut self, part: Value) -> Result<(), AllocError>
        ensures { OnOk result ((more : Items) → continued_by self.new more ≡ continued_by self.old (item (view part) more)) }
    {
        match part {
            Value::String(text) => self.add_text(text),
            other => self.add_other(other),
        }
    }

    fn add_all(&mut self, parts: Vec<Value>) -> Result<(), AllocError>
        ensures { OnOk result ((more : Items) → continued_by self.new more ≡ continued_by self.old (and_items (items_view parts.items) more)) }
    {
        for part in parts {
            self.add(part)?;
        }
        Ok(())
    }

    /// Adds a part. A join of the empty delimiter over an array gives way to its items.
    pub fn splice(&mut self, part: Value) -> Result<(), AllocError>
        ensures { OnOk result ((more : Items) → continued_by self.new more ≡ continued_by self.old (spliced_onto (joined_in (view part)) (view part) more)) }
    {
        if !is_joined(&part) {
            return self.add(part);
        }
        self.add_all(joined_items(part))
    }

    /// The merged items.
    pub fn into_items(self) -> Result<Vec<Value>, AllocError>
        ensures { IfOk result (λ items. items_view items.items ≡ continued_by self no_items) }
    {
        let Merging {
            mut items,
            text,
            ..
        } = self;
        push_text(&mut items, text)?;
        Ok(items)
    }
}
