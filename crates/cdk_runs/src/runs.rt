// Runs of literals in Concats and Subs, byte by byte, without joining their texts.
ghost use Rattle.std.specs.Prelude.{◌≡◌, ◌+◌, ◌<◌, ◌≤◌, ◌∷◌, [], ◌++◌, codes, false, IfOk, OnOk, OnErr};
ghost use Rattle.serde_json.specs.View.{view, items_view, members_view};
ghost use Rattle.serde_json.specs.Data.{boolean, array};
ghost use Rattle.cdk_base.specs.Json.{text_of};
ghost use Rattle.cdk_language.specs.Findings.{is_marked_form as spec_is_marked_form};
ghost use Rattle.cdk_language.specs.Runs.{no_literal, literals_of, form_literals, concat_literals, items_literals, substituted_literals, sub_literals, piece_literals, variables_literals};
ghost use Rattle.cdk_language.specs.Schema.{is_wrong_sub_text as spec_is_wrong_sub_text};
ghost use Rattle.cdk_language.specs.Sub.{pieces_of, literal};
ghost use Rattle.cdk_members.specs.SubView.{piece_view};
ghost use Rattle.cdk_language.specs.declared.schema.Within.TheVariants as within;
ghost use Rattle.cdk_runs.specs.Reads.{Reads, step as spec_step};

use crate::subs::is_wrong_sub_text;
use cdk_base::{Map, Value};
use cdk_language::Within;
use cdk_members::{
    FirstPiece, SubPiece, first_piece, is_variable_name, member, only_member, two_of,
};
use std::alloc::AllocError;

/// How many bytes of `${Token[` or `#{Token[` the end of the run matches: 8 where the run holds one.
const WHOLE: usize = 8;

fn step(matched: usize, byte: u8) -> usize
    requires { matched ≤ 8 }
    ensures { result ≡ spec_step matched byte }
{
    if matched == WHOLE {
        return WHOLE;
    }
    if byte == b"${Token["[matched] {
        return matched + 1;
    }
    if byte == b'$' || byte == b'#' { 1 } else { 0 }
}

/// The run goes on with a literal text.
fn read_text(matched: usize, text: &str) -> usize
    requires { matched ≤ 8 }
    ensures { Reads matched (Some text.now ∷ []) result }
{
    let mut matched = matched;
    for byte in text.as_bytes() {
        matched = step(matched, *byte);
    }
    matched
}

/// What is no literal ends the run.
fn read_other(matched: usize) -> usize
    requires { matched ≤ 8 }
    ensures { Reads matched no_literal result }
{
    if matched == WHOLE { WHOLE } else { 0 }
}

fn read_truth(matched: usize, value: bool) -> usize
    requires { matched ≤ 8 }
    ensures { Reads matched (text_of (boolean value) ∷ []) result }
{
    if value {
        read_text(matched, "true")
    } else {
        read_text(matched, "false")
    }
}

/// The run goes on with `${X}`.
fn read_kept(matched: usize, text: &str) -> usize
    requires { matched ≤ 8 }
    ensures { Reads matched (piece_literals [] (literal (codes "${" ++ (text.now ++ codes "}")))) result }
{
    read_text(read_text(read_text(matched, "${"), text), "}")
}

fn read_plain_piece(matched: usize, piece: SubPiece<'_>) -> usize
    requires { matched ≤ 8 }
    ensures { Reads matched (piece_literals [] (piece_view piece.entry)) result }
{
    match piece {
        SubPiece::Kept(text) => read_kept(matched, text),
        _ => read_other(matched),
    }
}

/// The run goes on with a Sub that has no variables.
fn read_plain_sub(matched: usize, text: &str) -> usize
    requires { matched ≤ 8 }
    ensures { Reads matched (sub_literals [] (pieces_of text.now)) result }
{
    if is_wrong_sub_text(Within::Construct, text) {
        return read_other(matched);
    }
    let mut matched = matched;
    let mut rest = text;
    loop {
        match first_piece(rest) {
            FirstPiece::Literal => return read_text(matched, rest),
            FirstPiece::Wrong => return matched,
            FirstPiece::Piece {
                before,
                piece,
                after,
            } => {
                matched = read_plain_piece(read_text(matched, before), piece);
                rest = after;
            }
        }
    }
}

/// Takes 16 and the bytes of a text from what is left to walk, or is refused and takes nothing.
fn spend(left: &mut u64, bytes: usize) -> Result<(), AllocError>
    ensures spent { OnOk result (left.new + bytes + 16 ≡ left.old) }
    ensures refused { OnErr result ((left.new ≡ left.old) × (left.old < bytes + 16)) }
{
    let Some(after_text) = left.checked_sub(bytes as u64) else {
        return Err(AllocError);
    };
    let Some(after) = after_text.checked_sub(16) else {
        return Err(AllocError);
    };
    *left = after;
    Ok(())
}

/// The run goes on with a Sub whose argument is its text alone.
fn read_text_sub(left: &mut u64, matched: usize, text: &str) -> Result<usize, AllocError>
    requires { matched ≤ 8 }
    ensures fewer { left.new ≤ left.old }
    ensures reads { IfOk result (λ m. Reads matched (sub_literals [] (pieces_of text.now)) m) }
{
    spend(left, text.len())?;
    Ok(read_plain_sub(matched, text))
}

/// The run goes on with a value as a piece: with the pieces of a Concat or a Sub one by one. What is left to walk falls
/// at each, so this ends.
#[cycle(runs)]
fn read_value(left: &mut u64, matched: usize, value: &Value) -> Result<usize, AllocError>
    requires { matched ≤ 8 }
    ensures fewer { left.new ≤ left.old }
    ensures reads { IfOk result (λ m. Reads matched (literals_of (view value.now)) m) }
{
    let bytes = match value {
        Value::String(text) => text.as_str().len(),
        _ => 0,
    };
    spend(left, bytes)?;
    match value {
        Value::Bool(truth) => Ok(read_truth(matched, *truth)),
        // the decimals of a number match no part of a marker's beginning
        Value::Number(_) => Ok(read_other(matched)),
        Value::String(text) => Ok(read_text(matched, text.as_str())),
        Value::Object(members) => read_form(left, matched, members),
        _ => Ok(read_other(matched)),
    }
}

/// The run goes on with the pieces of a Concat or a Sub, or ends at any other object.
#[cycle(runs)]
fn read_form(left: &mut u64, matched: usize, members: &Map) -> Result<usize, AllocError>
    requires { matched ≤ 8 }
    ensures fewer { left.new ≤ left.old }
    ensures reads { IfOk result (λ m. Reads matched (form_literals (members_view members.now.entries)) m) }
{
    let Some((key, member)) = only_member(members) else {
        return Ok(read_other(matched));
    };
    match key.as_str() {
        "CDK::Concat" => read_concat(left, matched, member),
        "Fn::Sub" => read_sub(left, matched, member),
        _ => Ok(read_other(matched)),
    }
}

#[cycle(runs)]
fn read_concat(left: &mut u64, matched: usize, value: &Value) -> Result<usize, AllocError>
    requires { matched ≤ 8 }
    ensures fewer { left.new ≤ left.old }
    ensures reads { IfOk result (λ m. Reads matched (concat_literals (view value.now)) m) }
{
    match value {
        Value::Array(items) => read_items(left, matched, items),
        _ => Ok(read_other(matched)),
    }
}

#[cycle(runs)]
fn read_items(left: &mut u64, matched: usize, items: &Vec<Value>) -> Result<usize, AllocError>
    requires { matched ≤ 8 }
    ensures fewer { left.new ≤ left.old }
    ensures reads { IfOk result (λ m. Reads matched (items_literals (items_view items.now.items)) m) }
{
    let mut matched = matched;
    for item in items {
        matched = read_value(left, matched, item)?;
    }
    Ok(matched)
}

#[cycle(runs)]
fn read_sub(left: &mut u64, matched: usize, value: &Value) -> Result<usize, AllocError>
    requires { matched ≤ 8 }
    ensures fewer { left.new ≤ left.old }
    ensures reads { IfOk result (λ m. Reads matched (substituted_literals (view value.now)) m) }
{
    match value {
        Value::String(text) => read_text_sub(left, matched, text.as_str()),
        Value::Array(items) => read_array_sub(left, matched, items),
        _ => Ok(read_other(matched)),
    }
}

/// The run goes on with a Sub whose argument is an array of its text and its variables.
#[cycle(runs)]
fn read_array_sub(left: &mut u64, matched: usize, items: &Vec<Value>) -> Result<usize, AllocError>
    requires { matched ≤ 8 }
    ensures fewer { left.new ≤ left.old }
    ensures reads { IfOk result (λ m. Reads matched (substituted_literals (array (items_view items.now.items))) m) }
{
    let Some((text, variables)) = two_of(items) else {
        return Ok(read_other(matched));
    };
    let Some(variables) = variables.as_object() else {
        return Ok(read_other(matched));
    };
    let Some(text) = text.as_str() else {
        return Ok(read_other(matched));
    };
    spend(left, text.len())?;
    if is_wrong_sub_text(Within::Construct, text) {
        return Ok(read_other(matched));
    }
    read_pieces(left, matched, text, variables)
}

#[cycle(runs)]
fn read_pieces(
    left: &mut u64,
    matched: usize,
    text: &str,
    variables: &Map,
) -> Result<usize, AllocError>
    requires bound { matched ≤ 8 }
    requires cut { spec_is_wrong_sub_text within.Construct text.now ≡ false }
    ensures fewer { left.new ≤ left.old }
    ensures reads { IfOk result (λ m. Reads matched (sub_literals (variables_literals (members_view variables.now.entries)) (pieces_of text.now)) m) }
{
    let mut matched = matched;
    let mut rest = text;
    loop {
        match first_piece(rest) {
            FirstPiece::Literal => return Ok(read_text(matched, rest)),
            FirstPiece::Wrong => return Ok(matched),
            FirstPiece::Piece {
                before,
                piece,
                after,
            } => {
                matched = read_piece(left, read_text(matched, before), piece, variables)?;
                rest = after;
            }
        }
    }
}

#[cycle(runs)]
fn read_piece(
    left: &mut u64,
    matched: usize,
    piece: SubPiece<'_>,
    variables: &Map,
) -> Result<usize, AllocError>
    requires { matched ≤ 8 }
    ensures fewer { left.new ≤ left.old }
    ensures reads { IfOk result (λ m. Reads matched (piece_literals (variables_literals (members_view variables.now.entries)) (piece_view piece.entry)) m) }
{
    match piece {
        SubPiece::Kept(text) => Ok(read_kept(matched, text)),
        SubPiece::Name(name) => {
            if !is_variable_name(name) {
                return Ok(read_other(matched));
            }
            match member(variables, name) {
                Some(value) => read_value(left, matched, value),
                None => Ok(read_other(matched)),
            }
        }
        SubPiece::Attribute(_, _) => Ok(read_other(matched)),
    }
}

/// Whether a run of adjacent literals of the Concat or Sub that the value is holds the beginning of a marker. What is
/// walked for that is taken from `left`; the error tells that too little of it is left.
pub fn is_marked_form(left: &mut u64, value: &Value) -> Result<bool, AllocError>
    ensures { IfOk result (λ b. b ≡ spec_is_marked_form (view value.now)) }
{
    match value {
        Value::Object(members) => {
            let matched = read_form(left, 0, members)?;
            Ok(matched == WHOLE)
        }
        _ => Ok(false),
    }
}
