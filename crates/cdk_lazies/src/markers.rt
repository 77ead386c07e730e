// The tokens whose markers stand in a marked value.
ghost use Rattle.std.specs.Prelude.{◌≡◌, ◌++◌, [], ◌∷◌, OnOk};
ghost use Rattle.serde_json.specs.View.{view, items_view, members_view};
ghost use Rattle.cdk_expansion.specs.Mentions.{keys_in, keys_in_items, keys_in_members, piece_keys};
ghost use Rattle.cdk_markers.specs.Cut.{cut_of};
ghost use Rattle.cdk_markers.specs.Left.{piece_view};
ghost use Rattle.cdk_tokens.specs.TableView.{tokens_in};
ghost use Rattle.cdk_lazies.specs.MentionGraph.{tokens_by};

use cdk_base::{Map, Value};
use cdk_markers::{Piece, list_key, pieces};
use cdk_tokens::Table;
use std::alloc::AllocError;

/// Puts the number of the token that has the key at the end, where one has it.
fn push_key(table: &Table, key: &str, numbers: &mut Vec<usize>) -> Result<(), AllocError>
    ensures { OnOk result (numbers.new.items ≡ numbers.old.items ++ tokens_by (tokens_in table.now) (key.now ∷ [])) }
{
    match table.find(key) {
        Some(number) => {
            numbers.push(number)?;
            Ok(())
        }
        None => Ok(()),
    }
}

fn push_piece(table: &Table, piece: Piece<'_>, numbers: &mut Vec<usize>) -> Result<(), AllocError>
    ensures { OnOk result (numbers.new.items ≡ numbers.old.items ++ tokens_by (tokens_in table.now) (piece_keys (piece_view piece.entry ∷ []))) }
{
    match piece {
        Piece::Key(key) => push_key(table, key, numbers),
        Piece::Literal(_) => Ok(()),
    }
}

fn push_text(table: &Table, text: &str, numbers: &mut Vec<usize>) -> Result<(), AllocError>
    ensures { OnOk result (numbers.new.items ≡ numbers.old.items ++ tokens_by (tokens_in table.now) (piece_keys (cut_of text.now))) }
{
    for piece in pieces(text) {
        push_piece(table, piece, numbers)?;
    }
    Ok(())
}

/// Puts the numbers of the tokens whose markers stand in the value at the end, in written order, each as often as it
/// stands there. A marker that no token has adds nothing.
#[cycle(markers)]
pub fn push_tokens(table: &Table, value: &Value, numbers: &mut Vec<usize>) -> Result<(), AllocError>
    ensures { OnOk result (numbers.new.items ≡ numbers.old.items ++ tokens_by (tokens_in table.now) (keys_in (view value.now))) }
{
    match value {
        Value::String(text) => push_text(table, text.as_str(), numbers),
        Value::Array(items) => match list_key(value) {
            Some(key) => push_key(table, key, numbers),
            None => push_items(table, items, numbers),
        },
        Value::Object(members) => push_members(table, members, numbers),
        Value::Null | Value::Bool(_) | Value::Number(_) => Ok(()),
    }
}

#[cycle(markers)]
fn push_items(table: &Table, items: &Vec<Value>, numbers: &mut Vec<usize>) -> Result<(), AllocError>
    ensures { OnOk result (numbers.new.items ≡ numbers.old.items ++ tokens_by (tokens_in table.now) (keys_in_items (items_view items.now.items))) }
{
    for item in items {
        push_tokens(table, item, numbers)?;
    }
    Ok(())
}

#[cycle(markers)]
fn push_members(table: &Table, members: &Map, numbers: &mut Vec<usize>) -> Result<(), AllocError>
    ensures { OnOk result (numbers.new.items ≡ numbers.old.items ++ tokens_by (tokens_in table.now) (keys_in_members (members_view members.now.entries))) }
{
    for (_key, member) in members.iter() {
        push_tokens(table, member, numbers)?;
    }
    Ok(())
}
