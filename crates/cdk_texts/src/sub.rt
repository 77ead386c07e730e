// The text of a `Fn::Sub`, and what each hole in it asks for (CloudFormation: Fn::Sub).
ghost use Rattle.std.specs.Prelude.{◌≡◌, IfOk, map, option_map};
ghost use Rattle.cdk_eval.specs.SubText.{sub_parts as spec_sub_parts, asked as spec_asked};
ghost use Rattle.cdk_texts.specs.Steps.{part_view, asked_view};

use crate::splitting::around;
use std::alloc::{AllocError, Global};

/// A part of the text.
#[derive(Clone, Copy)]
pub enum Part<'a> {
    Literal(&'a str),
    /// What stands between `${` and the next `}`.
    Hole(&'a str),
}

/// What a hole asks for.
#[derive(Clone, Copy)]
pub enum Asked<'a> {
    /// `${!X}`: the text `${X}`, told by its X.
    Spelled(&'a str),
    /// `${X.A}`, cut at its first full stop.
    Attribute(&'a str, &'a str),
    /// `${X}`.
    Named(&'a str),
}

/// The parts of the text. `None` exactly where a `${` has no `}`.
pub fn sub_parts<'a>(alloc: Global, text: &'a str) -> Result<Option<Vec<Part<'a>>>, AllocError>
    ensures { IfOk result (λ ps. option_map (λ v. map part_view v.items) ps ≡ spec_sub_parts text.now) }
{
    let mut parts = Vec::new(alloc);
    let mut rest = text;
    'parts: loop {
        let Some((before, opened)) = around(rest, "${") else {
            parts.push(Part::Literal(rest))?;
            return Ok(Some(parts));
        };
        let Some((name, after)) = around(opened, "}") else {
            return Ok(None);
        };
        parts.push(Part::Literal(before))?;
        parts.push(Part::Hole(name))?;
        rest = after;
    }
}

/// What a hole asks for.
pub fn asked_by(name: &str) -> Asked<'_>
    ensures { asked_view result ≡ spec_asked name.now }
{
    if let Some(spelled) = name.strip_prefix("!") {
        return Asked::Spelled(spelled);
    }
    match around(name, ".") {
        Some((logical, attribute)) => Asked::Attribute(logical, attribute),
        None => Asked::Named(name),
    }
}
