// Copies of expressions, which texts with variables put in at each use.
ghost use Rattle.std.specs.Prelude.{◌≡◌, ◌+◌, IfOk, OnOk, OnErr};
ghost use Rattle.std.specs.Prelude.{option_map};
ghost use Rattle.serde_json.specs.View.{view as json_view};
ghost use Rattle.cdk_language.specs.Expression.{view, expressions_view, fields_view, context};

use cdk_base::{List, Text, Value};
use cdk_language::{Expr, Field};
use cdk_members::attribute_of;
use std::alloc::{AllocError, Global};

/// How many expressions may still be put in. Variables may double what they hold at each level, so that a small
/// document would fill the machine; no application that can be accepted comes near.
#[derive(Drop)]
pub struct Copies {
    left: u32,
}

impl Copies {
    /// The bound for one document.
    pub const MOST: u32 = 16_000_000;

    /// The allowance of one document.
    pub fn new() -> Copies
        ensures { result.left ≡ 16000000 }
    {
        Copies { left: Copies::MOST }
    }

    // One more is put in. It answers want of memory exactly where none may.
    fn count(&mut self) -> Result<(), AllocError>
        ensures counted { OnOk result (self.new.left + 1 ≡ self.old.left) }
        ensures refused { OnErr result (self.old.left ≡ 0) }
    {
        if self.left == 0 {
            return Err(AllocError);
        }
        self.left -= 1;
        Ok(())
    }
}

fn copy_context(alloc: Global, key: &Text, default: &Option<Value>) -> Result<Expr, AllocError>
    ensures { IfOk result (λ copied. view copied ≡ context key.now (option_map json_view default.now)) }
{
    let key = Text::new(alloc, key.as_str())?;
    let default = match default {
        Some(value) => Some(value.clone()?),
        None => None,
    };
    Ok(Expr::Context(key, default))
}

/// A copy of the expression. Each expression in it counts; beyond the allowance it answers want of memory.
#[cycle(copy)]
pub fn copy_of(alloc: Global, copies: &mut Copies, e: &Expr) -> Result<Expr, AllocError>
    ensures { IfOk result (λ copied. view copied ≡ view e.now) }
{
    copies.count()?;
    match e {
        Expr::Text(t) => Ok(Expr::Text(Text::new(alloc, t.as_str())?)),
        Expr::Whole(n) => Ok(Expr::Whole(*n)),
        Expr::Truth(b) => Ok(Expr::Truth(*b)),
        Expr::List(items) => Ok(Expr::List(copy_items(alloc, copies, items)?)),
        Expr::Object(fields) => Ok(Expr::Object(copy_fields(alloc, copies, fields)?)),
        Expr::Pseudo(p) => Ok(Expr::Pseudo(*p)),
        Expr::Ref(t) => Ok(Expr::Ref(Text::new(alloc, t.as_str())?)),
        Expr::GetAtt(t, a) => attribute_of(alloc, t.as_str(), a.as_str()),
        Expr::Concat(items) => Ok(Expr::Concat(copy_items(alloc, copies, items)?)),
        Expr::Join(d, l) => {
            let (delimiter, list) = copy_argument(alloc, copies, d, l)?;
            Ok(Expr::Join(delimiter, list))
        }
        Expr::Select(n, l) => Ok(Expr::Select(*n, copy_boxed(alloc, copies, l)?)),
        Expr::Split(d, x) => {
            let (delimiter, text) = copy_argument(alloc, copies, d, x)?;
            Ok(Expr::Split(delimiter, text))
        }
        Expr::If(c, x, y) => {
            let (condition, holds) = copy_argument(alloc, copies, c, x)?;
            let fails = copy_boxed(alloc, copies, y)?;
            Ok(Expr::If(condition, holds, fails))
        }
        Expr::FindInMap(m, x, y) => {
            let (mapping, first) = copy_argument(alloc, copies, m, x)?;
            let second = copy_boxed(alloc, copies, y)?;
            Ok(Expr::FindInMap(mapping, first, second))
        }
        Expr::ImportValue(t) => Ok(Expr::ImportValue(Text::new(alloc, t.as_str())?)),
        Expr::Context(k, d) => copy_context(alloc, k, d),
        Expr::Lazy(t) => Ok(Expr::Lazy(Text::new(alloc, t.as_str())?)),
    }
}

#[cycle(copy)]
fn copy_argument(
    alloc: Global,
    copies: &mut Copies,
    text: &Text,
    e: &Box<Expr>,
) -> Result<(Text, Box<Expr>), AllocError>
    ensures { IfOk result (λ copied. (copied.0 ≡ text.now) × (view copied.1.value ≡ view e.now.value)) }
{
    let text = Text::new(alloc, text.as_str())?;
    let copied = copy_boxed(alloc, copies, e)?;
    Ok((text, copied))
}

#[cycle(copy)]
fn copy_boxed(alloc: Global, copies: &mut Copies, e: &Box<Expr>) -> Result<Box<Expr>, AllocError>
    ensures { IfOk result (λ copied. view copied.value ≡ view e.now.value) }
{
    let copied = copy_of(alloc, copies, e)?;
    Ok(Box::new(alloc, copied)?)
}

#[cycle(copy)]
fn copy_items(
    alloc: Global,
    copies: &mut Copies,
    items: &List<Expr>,
) -> Result<List<Expr>, AllocError>
    ensures { IfOk result (λ copied. expressions_view copied ≡ expressions_view items.now) }
{
    let mut copied = List::new(alloc);
    for item in items.as_slice() {
        copied.push(copy_of(alloc, copies, item)?)?;
    }
    Ok(copied)
}

#[cycle(copy)]
fn copy_fields(
    alloc: Global,
    copies: &mut Copies,
    fields: &List<Field>,
) -> Result<List<Field>, AllocError>
    ensures { IfOk result (λ copied. fields_view copied ≡ fields_view fields.now) }
{
    let mut copied = List::new(alloc);
    for field in fields.as_slice() {
        let key = Text::new(alloc, field.key.as_str())?;
        let value = copy_of(alloc, copies, &field.value)?;
        copied.push(Field { key, value })?;
    }
    Ok(copied)
}
