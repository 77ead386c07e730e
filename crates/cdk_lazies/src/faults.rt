// The first lazy or condition that reaches itself.
ghost use Rattle.std.specs.Prelude.{◌≡◌, ◌+◌, length};
ghost use Rattle.cdk_language.specs.Construct.{kind_view};
ghost use Rattle.cdk_tokens.specs.TableView.{tokens_in};
ghost use Rattle.cdk_tree.specs.PlaceFindings.{first};
ghost use Rattle.cdk_tree.specs.TreeView.{constructs};
ghost use Rattle.cdk_lazies.specs.CycleFindings.{cycle_code as spec_cycle_code};
ghost use Rattle.cdk_lazies.specs.Told.{told_findings_from};

use crate::kinds::is_condition;
use cdk_base::Code;
use cdk_language::Kind;
use cdk_tokens::Table;
use cdk_tree::{Found, Tree};

/// The code of a construct of the kind that reaches itself.
fn cycle_code(kind: &Kind) -> Code
    ensures { result ≡ spec_cycle_code (kind_view kind.now) }
{
    if is_condition(kind) {
        Code::ConditionCycle
    } else {
        Code::LazyCycle
    }
}

/// The first construct in walk order that reaches itself, where `loops` tells of each number of the graph whether it does.
pub fn first_cycle(tree: &Tree, table: &Table, loops: &[bool]) -> Option<Found>
    requires { length loops.now ≡ length (tokens_in table.now) + length (constructs tree.now) }
    ensures { result ≡ first (told_findings_from (tokens_in table.now) loops.now 0 (constructs tree.now)) }
{
    for number in 0..tree.len() {
        if loops[table.len() + number] {
            let Some(at) = tree.id(number) else {
                unreachable!()
            };
            let code = cycle_code(&tree.node(at).kind);
            return Some(Found { code, at });
        }
    }
    None
}
