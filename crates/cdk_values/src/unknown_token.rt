// Markers that no token has.
ghost use Rattle.std.specs.Prelude.{◌≡◌, option_map};
ghost use Rattle.std.specs.List.{list_all};
ghost use Rattle.serde_json.specs.View.{view, items_view, members_view};
ghost use Rattle.cdk_markers.specs.Cut.{cut_of};
ghost use Rattle.cdk_markers.specs.Left.{piece_view};
ghost use Rattle.cdk_tokens.specs.TableView.{tokens_in};
ghost use Rattle.cdk_tokens.specs.Views.{token_view};
ghost use Rattle.cdk_tokens.specs.Values.{token_at, has_unknown_token as spec_has_unknown_token, is_known_piece as spec_is_known_piece, is_list_token as spec_is_list_token, is_text_token as spec_is_text_token, items_have_unknown_token, members_have_unknown_token};

use crate::texts::holds;
use cdk_base::{Map, Value};
use cdk_markers::{Piece, list_key, pieces};
use cdk_tokens::{Table, Token};

fn token_of<'a>(table: &'a Table, key: &str) -> Option<&'a Token>
    ensures { option_map (λ t. token_view t.now) result ≡ token_at (tokens_in table.now) key.now }
{
    let number = table.find(key)?;
    table.token(number)
}

/// Whether a token of a text has the key.
fn is_text_token(table: &Table, key: &str) -> bool
    ensures { result ≡ spec_is_text_token (tokens_in table.now) key.now }
{
    match token_of(table, key) {
        Some(token) => !token.list,
        None => false,
    }
}

/// Whether a token of a list has the key.
fn is_list_token(table: &Table, key: &str) -> bool
    ensures { result ≡ spec_is_list_token (tokens_in table.now) key.now }
{
    match token_of(table, key) {
        Some(token) => token.list,
        None => false,
    }
}

/// Whether the piece is a literal in which no text marker begins, or the key of a text's token.
fn is_known_piece(table: &Table, piece: Piece<'_>) -> bool
    ensures { result ≡ spec_is_known_piece (tokens_in table.now) (piece_view piece.entry) }
{
    match piece {
        Piece::Literal(literal) => !holds("${Token[", literal),
        Piece::Key(key) => is_text_token(table, key),
    }
}

fn is_known_text(table: &Table, text: &str) -> bool
    ensures { result ≡ list_all (spec_is_known_piece (tokens_in table.now)) (cut_of text.now) }
{
    for piece in pieces(text) {
        if !is_known_piece(table, piece) {
            return false;
        }
    }
    true
}

/// Whether the beginning of a text marker in the value begins no marker of a text's token, or a whole list marker is no list
/// token's.
#[cycle(unknown)]
pub fn has_unknown_token(table: &Table, value: &Value) -> bool
    ensures { result ≡ spec_has_unknown_token (tokens_in table.now) (view value.now) }
{
    match value {
        Value::String(text) => !is_known_text(table, text.as_str()),
        Value::Array(items) => match list_key(value) {
            Some(key) => !is_list_token(table, key),
            None => item_has_unknown_token(table, items),
        },
        Value::Object(members) => member_has_unknown_token(table, members),
        Value::Null | Value::Bool(_) | Value::Number(_) => false,
    }
}

#[cycle(unknown)]
fn item_has_unknown_token(table: &Table, items: &Vec<Value>) -> bool
    ensures { result ≡ items_have_unknown_token (tokens_in table.now) (items_view items.now.items) }
{
    for item in items {
        if has_unknown_token(table, item) {
            return true;
        }
    }
    false
}

#[cycle(unknown)]
fn member_has_unknown_token(table: &Table, members: &Map) -> bool
    ensures { result ≡ members_have_unknown_token (tokens_in table.now) (members_view members.now.entries) }
{
    for (_key, member) in members.iter() {
        if has_unknown_token(table, member) {
            return true;
        }
    }
    false
}
