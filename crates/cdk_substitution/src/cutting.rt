// The pieces of a text with variables (`Fn::Sub` of the CloudFormation reference), as expressions.
ghost use Rattle.std.specs.Prelude.{◌≡◌, IfOk, OnOk};
ghost use Rattle.std.specs.Option.{unwrap_or};
ghost use Rattle.cdk_language.specs.Application.{pseudo_of as pseudo_in, ref_of as reference_in, sub_of as substituted_in};
ghost use Rattle.cdk_language.specs.Expression.{Expressions, Fields, fields_view, view};
ghost use Rattle.cdk_members.specs.SubView.{piece_view};
ghost use Rattle.cdk_members.specs.Gives.{Gives};
ghost use Rattle.cdk_substitution.specs.Steps.{before, literal_then, variable_in, Have, piece_expression, piece_then};

use crate::copying::{Copies, copy_of};
use crate::variables::Variables;
use cdk_base::{List, Text};
use cdk_language::{Expr, Field, Pseudo};
use cdk_members::{FirstPiece, ReadError, SubPiece, attribute_of, first_piece};
use std::alloc::{AllocError, Global};

/// The pseudo parameter of the name.
fn pseudo_of(name: &str) -> Option<Pseudo>
    ensures { result ≡ pseudo_in name.now }
{
    if name == "AWS::AccountId" {
        return Some(Pseudo::AccountId);
    }
    if name == "AWS::Partition" {
        return Some(Pseudo::Partition);
    }
    if name == "AWS::Region" {
        return Some(Pseudo::Region);
    }
    if name == "AWS::StackId" {
        return Some(Pseudo::StackId);
    }
    if name == "AWS::StackName" {
        return Some(Pseudo::StackName);
    }
    if name == "AWS::URLSuffix" {
        return Some(Pseudo::UrlSuffix);
    }
    if name == "AWS::NoValue" {
        return Some(Pseudo::NoValue);
    }
    None
}

/// What `Ref` of the name is: a pseudo parameter, or the path of a construct.
pub fn reference_of(alloc: Global, name: &str) -> Result<Expr, AllocError>
    ensures { IfOk result (λ e. view e ≡ reference_in name.now) }
{
    match pseudo_of(name) {
        Some(pseudo) => Ok(Expr::Pseudo(pseudo)),
        None => Ok(Expr::Ref(Text::new(alloc, name)?)),
    }
}

/// The expression of a variable, or else what `Ref` of its name is.
fn variable_of(
    alloc: Global,
    copies: &mut Copies,
    name: &str,
    variables: &Variables<'_>,
) -> Result<Expr, AllocError>
    ensures { IfOk result (λ e. view e ≡ unwrap_or (variable_in variables.now name.now) (reference_in name.now)) }
{
    match variables.get(name) {
        Some(e) => copy_of(alloc, copies, e),
        None => reference_of(alloc, name),
    }
}

/// The expression of what stands between `${` and `}`.
fn expression_in(
    alloc: Global,
    copies: &mut Copies,
    piece: SubPiece<'_>,
    variables: &Variables<'_>,
) -> Result<Expr, AllocError>
    ensures { IfOk result (λ e. view e ≡ piece_expression variables.now (piece_view piece.entry)) }
{
    match piece {
        SubPiece::Kept(kept) => {
            let literal = format!(in alloc; "${{{kept}}}")?;
            Ok(Expr::Text(Text::from_string(literal)))
        }
        SubPiece::Name(name) => variable_of(alloc, copies, name, variables),
        SubPiece::Attribute(path, attribute) => attribute_of(alloc, path, attribute),
    }
}

/// Puts a literal piece behind the pieces so far, unless it is empty.
fn push_literal(alloc: Global, found: &mut List<Expr>, literal: &str) -> Result<(), AllocError>
    ensures { OnOk result ((rest : Expressions) → before found.new rest ≡ before found.old (literal_then literal.now rest)) }
{
    if literal.is_empty() {
        return Ok(());
    }
    found.push(Expr::Text(Text::new(alloc, literal)?))
}

/// Puts a piece behind the pieces so far, after the literal before it.
fn push_piece(
    alloc: Global,
    copies: &mut Copies,
    found: &mut List<Expr>,
    literal: &str,
    piece: SubPiece<'_>,
    variables: &Variables<'_>,
) -> Result<(), AllocError>
    ensures { OnOk result ((rest : Expressions) → before found.new rest ≡ before found.old (piece_then variables.now literal.now (piece_view piece.entry) rest)) }
{
    push_literal(alloc, found, literal)?;
    let expression = expression_in(alloc, copies, piece, variables)?;
    found.push(expression)
}

/// The Concat of a text's pieces, each variable's expression put in at each use.
fn filled(
    alloc: Global,
    copies: &mut Copies,
    text: &str,
    variables: &Variables<'_>,
) -> Result<Expr, ReadError>
    ensures { (fields : Fields) → Have variables.now fields → Gives view result (substituted_in text.now fields) }
{
    let mut found = List::new(alloc);
    let mut rest = text;
    'pieces: loop {
        match first_piece(rest) {
            FirstPiece::Literal => {
                push_literal(alloc, &mut found, rest)?;
                return Ok(Expr::Concat(found));
            }
            FirstPiece::Wrong => return Err(ReadError::Shape),
            FirstPiece::Piece {
                before,
                piece,
                after,
            } => {
                push_piece(alloc, copies, &mut found, before, piece, variables)?;
                rest = after;
            }
        }
    }
}

/// The Concat of a text's pieces, with the fields as its variables. Each expression of a field that is put in counts; it
/// answers `Shape` exactly where the text cannot be cut into pieces.
pub fn substituted(
    alloc: Global,
    copies: &mut Copies,
    text: &str,
    fields: &List<Field>,
) -> Result<Expr, ReadError>
    ensures { Gives view result (substituted_in text.now (fields_view fields.now)) }
{
    let variables = Variables::of_fields(alloc, fields.as_slice())?;
    filled(alloc, copies, text, &variables)
}
