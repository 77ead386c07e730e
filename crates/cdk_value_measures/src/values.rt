// The measures of marked values, once their tokens are expanded.
ghost use Rattle.std.specs.Prelude.{◌≡◌, length};
ghost use Rattle.serde_json.specs.View.{view, items_view, members_view};
ghost use Rattle.cdk_expansion.specs.Expanded.{pseudo_of};
ghost use Rattle.cdk_markers.specs.Cut.{cut_of};
ghost use Rattle.cdk_markers.specs.Left.{piece_view};
ghost use Rattle.cdk_plain.specs.Plain.{pseudo_name as spec_pseudo_name};
ghost use Rattle.cdk_value_measures.specs.Expanding.{assembled_measure, form_measure as spec_form_measure, items_parts as spec_items_parts, kept_at as spec_kept_at, members_parts as spec_members_parts, piece_measure as spec_piece_measure, value_measure as spec_value_measure};
ghost use Rattle.cdk_value_measures.specs.Keeping.{known_to, measured};
ghost use Rattle.cdk_value_measures.specs.Constructs.{path_in};
ghost use Rattle.cdk_tokens.specs.TableView.{tokens_in};
ghost use Rattle.cdk_tokens.specs.Views.{form_view};
ghost use Rattle.cdk_tree.specs.TreeView.{constructs};

use cdk_base::{Map, Value};
use cdk_language::Pseudo;
use cdk_markers::{Piece, list_key, pieces};
use cdk_measure::{Measure, Parts};
use cdk_tokens::{Form, Table};
use cdk_tree::{NodeId, Tree};

fn pseudo_name(pseudo: Pseudo) -> &'static str
    ensures { result.now ≡ spec_pseudo_name (pseudo_of pseudo) }
{
    match pseudo {
        Pseudo::AccountId => "AWS::AccountId",
        Pseudo::Partition => "AWS::Partition",
        Pseudo::Region => "AWS::Region",
        Pseudo::StackId => "AWS::StackId",
        Pseudo::StackName => "AWS::StackName",
        Pseudo::UrlSuffix => "AWS::URLSuffix",
        Pseudo::NoValue => "AWS::NoValue",
    }
}

/// How many bytes the path of a construct has, 0 where there is no such construct.
pub fn path_bytes(tree: &Tree, at: NodeId) -> usize
    ensures { result ≡ length (path_in (constructs tree.now) at) }
{
    match tree.id(at.number()) {
        Some(at) => tree.path_of(at).len(),
        None => 0,
    }
}

/// The measure that is kept of a lazy, else that of an empty text.
fn kept_at(kept: &[Measure], lazy: NodeId) -> Measure
    ensures { result ≡ spec_kept_at kept.now lazy }
{
    match kept.get(lazy.number()) {
        Some(measure) => *measure,
        None => Measure::leaf(0),
    }
}

/// The measure of a token's expression; its arguments know the tokens of numbers below the bound.
#[cycle(values)]
fn form_measure(tree: &Tree, table: &Table, kept: &[Measure], below: usize, form: &Form) -> Measure
    ensures { result ≡ spec_form_measure (path_in (constructs tree.now)) (spec_kept_at kept.now) (known_to tree.now table.now kept.now below) (form_view form.now) }
{
    match form {
        Form::Pseudo(pseudo) => Measure::leaf(pseudo_name(*pseudo).len()),
        Form::Ref(at) => Measure::leaf(path_bytes(tree, *at)),
        Form::GetAtt(at, attribute) => {
            Measure::leaf(path_bytes(tree, *at).saturating_add(attribute.as_str().len()))
        }
        Form::Join(delimiter, list) => {
            measure_below(tree, table, kept, below, list).around_list(delimiter.as_str().len())
        }
        Form::Select(_, list) => measure_below(tree, table, kept, below, list).around_list(0),
        Form::Split(delimiter, text) => {
            measure_below(tree, table, kept, below, text).around(delimiter.as_str().len())
        }
        Form::If(at, x, y) | Form::FindInMap(at, x, y) => {
            let x = measure_below(tree, table, kept, below, x);
            let y = measure_below(tree, table, kept, below, y);
            x.around_two(y, path_bytes(tree, *at))
        }
        Form::ImportValue(name) => Measure::leaf(name.as_str().len()),
        Form::Lazy(lazy) => kept_at(kept, *lazy),
    }
}

/// The measure of the token of a key. None exactly where there is none, or its number isn't below the bound.
#[cycle(values)]
fn key_measure(
    tree: &Tree,
    table: &Table,
    kept: &[Measure],
    below: usize,
    key: &str,
) -> Option<Measure>
    ensures { result ≡ known_to tree.now table.now kept.now below key.now }
{
    let number = table.find(key)?;
    if number >= below {
        return None;
    }
    let token = table.token(number)?;
    Some(form_measure(tree, table, kept, number, &token.form))
}

/// The measure of a piece of a text. A key that isn't known stands for its marker, `${Token[KEY]}`.
#[cycle(values)]
fn piece_measure(
    tree: &Tree,
    table: &Table,
    kept: &[Measure],
    below: usize,
    piece: Piece<'_>,
) -> Measure
    ensures { result ≡ spec_piece_measure (known_to tree.now table.now kept.now below) (piece_view piece.entry) }
{
    match piece {
        Piece::Literal(literal) => Measure::leaf(literal.len()),
        Piece::Key(key) => match key_measure(tree, table, kept, below, key) {
            Some(measure) => measure,
            None => Measure::leaf(key.len().saturating_add(10)),
        },
    }
}

#[cycle(values)]
fn text_measure(tree: &Tree, table: &Table, kept: &[Measure], below: usize, text: &str) -> Measure
    ensures { result ≡ assembled_measure (known_to tree.now table.now kept.now below) (cut_of text.now) }
{
    let mut rest = pieces(text);
    let Some(piece) = rest.next() else {
        return Measure::leaf(0);
    };
    let first = piece_measure(tree, table, kept, below, piece);
    let mut parts = Parts::none().with(0, first);
    let mut is_alone = true;
    for piece in rest {
        parts = parts.with(0, piece_measure(tree, table, kept, below, piece));
        is_alone = false;
    }
    if is_alone {
        first
    } else {
        parts.collected(false)
    }
}

#[cycle(values)]
fn items_parts(
    tree: &Tree,
    table: &Table,
    kept: &[Measure],
    below: usize,
    items: &Vec<Value>,
) -> Parts
    ensures { result ≡ spec_items_parts (known_to tree.now table.now kept.now below) (items_view items.now.items) }
{
    let mut parts = Parts::none();
    for item in items {
        parts = parts.with(0, measure_below(tree, table, kept, below, item));
    }
    parts
}

#[cycle(values)]
fn members_parts(tree: &Tree, table: &Table, kept: &[Measure], below: usize, members: &Map) -> Parts
    ensures { result ≡ spec_members_parts (known_to tree.now table.now kept.now below) (members_view members.now.entries) }
{
    let mut parts = Parts::none();
    for (key, member) in members.iter() {
        let measure = measure_below(tree, table, kept, below, member);
        parts = parts.with(key.as_str().len(), measure);
    }
    parts
}

/// The measure of a marked value that knows the tokens of numbers below the bound.
#[cycle(values)]
fn measure_below(
    tree: &Tree,
    table: &Table,
    kept: &[Measure],
    below: usize,
    value: &Value,
) -> Measure
    ensures { result ≡ spec_value_measure (known_to tree.now table.now kept.now below) (view value.now) }
{
    match value {
        Value::String(text) => text_measure(tree, table, kept, below, text.as_str()),
        Value::Array(items) => {
            if let Some(key) = list_key(value) {
                if let Some(measure) = key_measure(tree, table, kept, below, key) {
                    return measure;
                }
            }
            items_parts(tree, table, kept, below, items).collected(true)
        }
        Value::Object(members) => members_parts(tree, table, kept, below, members).collected(false),
        Value::Null | Value::Bool(_) | Value::Number(_) => Measure::leaf(0),
    }
}

/// The measure of a marked value's plain form, of the measures that are kept of lazies.
///
/// A token's arguments know only tokens of lower numbers, as marking makes them. Where each marker stands once, each token is
/// measured once.
pub fn value_measure(tree: &Tree, table: &Table, kept: &[Measure], value: &Value) -> Measure
    ensures { result ≡ measured (constructs tree.now) (tokens_in table.now) kept.now (view value.now) }
{
    measure_below(tree, table, kept, table.len(), value)
}
