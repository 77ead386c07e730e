// The number of stacks; sums stop at 2^64 - 1.
ghost use Rattle.std.specs.Prelude.{◌≡◌, ◌-◌, ◌^◌, min};
ghost use Rattle.cdk_language.specs.Construct.{kind_view, node_view, nodes_view};
ghost use Rattle.cdk_carried.specs.Carried.{body_stacks, stacks as spec_stacks, stacks_among as spec_stacks_among};

use cdk_base::List;
use cdk_language::{Kind, Node};

fn kind_stacks(kind: &Kind) -> u64
    ensures { result ≡ body_stacks (kind_view kind.now) }
{
    match kind {
        Kind::Stack { .. } => 1,
        Kind::App
        | Kind::Stage
        | Kind::Group
        | Kind::Resource(_)
        | Kind::Parameter(_)
        | Kind::Condition(_)
        | Kind::Mapping(_)
        | Kind::Output(_)
        | Kind::Lazy(_) => 0,
    }
}

/// How many stacks there are, a construct and all below it.
#[cycle(stacks)]
pub fn stacks(node: &Node) -> u64
    ensures { result ≡ min (spec_stacks (node_view node.now)) (2 ^ 64 - 1) }
{
    kind_stacks(&node.kind).saturating_add(stacks_among(&node.children))
}

#[cycle(stacks)]
fn stacks_among(nodes: &List<Node>) -> u64
    ensures { result ≡ min (spec_stacks_among (nodes_view nodes.now)) (2 ^ 64 - 1) }
{
    let mut sum = 0u64;
    for node in nodes.as_slice() {
        sum = sum.saturating_add(stacks(node));
    }
    sum
}
