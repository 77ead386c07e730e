// The check of the marked values of resources.
ghost use Rattle.std.specs.Prelude.{◌≡◌, ◌<◌, length};
ghost use Rattle.serde_json.specs.View.{view};
ghost use Rattle.cdk_language.specs.Construct.{kind_view};
ghost use Rattle.cdk_tree.specs.Expected.{is_resource as spec_is_resource};
ghost use Rattle.cdk_tree.specs.PlaceFindings.{first};
ghost use Rattle.cdk_tree.specs.Placed.{construct_at};
ghost use Rattle.cdk_tree.specs.TreeView.{constructs, FindsFirst};
ghost use Rattle.cdk_tokens.specs.TableView.{marked_in, tokens_in};
ghost use Rattle.cdk_tokens.specs.Whole.{value_at};
ghost use Rattle.cdk_values.specs.Findings.{value_findings, wrong_in, wrong_values_at};

use crate::bad_value::has_bad_value;
use crate::list_mix::has_list_mix;
use crate::unknown_token::has_unknown_token;
use cdk_base::{Code, Value};
use cdk_language::Kind;
use cdk_tokens::{Marked, Table};
use cdk_tree::{Found, NodeId, Tree};

/// The first thing that is wrong with a value.
fn wrong_value(table: &Table, value: &Value) -> Option<Code>
    ensures { result ≡ first (wrong_in (tokens_in table.now) (view value.now)) }
{
    if has_unknown_token(table, value) {
        return Some(Code::UnknownToken);
    }
    if has_list_mix(value) {
        return Some(Code::ListMix);
    }
    if has_bad_value(value) {
        return Some(Code::BadValue);
    }
    None
}

fn is_resource(kind: &Kind) -> bool
    ensures { result ≡ spec_is_resource (kind_view kind.now) }
{
    matches!(kind, Kind::Resource(_))
}

/// The first thing that is wrong with the marked value of a construct, where it is a resource.
fn wrong_at(tree: &Tree, table: &Table, marked: &Marked, at: NodeId) -> Option<Code>
    requires { at < length (constructs tree.now) }
    ensures { result ≡ first (wrong_values_at (tokens_in table.now) (value_at (marked_in marked.now) at) (construct_at (constructs tree.now) at).body) }
{
    if !is_resource(&tree.node(at).kind) {
        return None;
    }
    match marked.value(at) {
        Some(value) => wrong_value(table, value),
        None => None,
    }
}

/// The first thing that is wrong with the marked values of a tree's resources, in walk order, at one resource the lowest
/// number (own):
///
/// - `UnknownToken`: the beginning of a text marker begins no marker of a text's token, or a whole list marker is no list
///   token's.
/// - `ListMix`: a text holds the beginning of a list marker, and isn't the only element, a whole list marker, of its array.
/// - `BadValue`: null, a number that isn't whole of 64 bits, or a key that only a form may have or in which a marker begins.
///
/// It takes no memory.
pub fn check_values(tree: &Tree, table: &Table, marked: &Marked) -> Result<(), Found>
    ensures { FindsFirst result (value_findings (tokens_in table.now) (marked_in marked.now) (constructs tree.now)) }
{
    for number in 0..tree.len() {
        let Some(at) = tree.id(number) else {
            unreachable!()
        };
        if let Some(code) = wrong_at(tree, table, marked, at) {
            return Err(Found { code, at });
        }
    }
    Ok(())
}
