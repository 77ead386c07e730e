// Which kinds and heads are carried.
ghost use Rattle.std.specs.Prelude.{◌≡◌};
ghost use Rattle.cdk_language.specs.Construct.{kind_view, node_view, nodes_view};
ghost use Rattle.cdk_carried.specs.Carried.{is_carried_body, has_carried_head, has_carried_parts as spec_has_carried_parts, have_carried_parts as spec_have_carried_parts, has_no_items};

use cdk_base::{List, Text};
use cdk_language::{Entry, Kind, Node};

fn is_carried_kind(kind: &Kind) -> bool
    ensures { result ≡ is_carried_body (kind_view kind.now) }
{
    match kind {
        Kind::Stage => false,
        Kind::Output(output) => output.export.is_none(),
        Kind::App
        | Kind::Stack { .. }
        | Kind::Group
        | Kind::Resource(_)
        | Kind::Parameter(_)
        | Kind::Condition(_)
        | Kind::Mapping(_)
        | Kind::Lazy(_) => true,
    }
}

#[tactic(auto, using(crate::proofs::Empty::no_items))]
fn has_no_aspects(aspects: &List<Entry>) -> bool
    ensures { result ≡ has_no_items aspects.now }
{
    aspects.is_empty()
}

#[tactic(auto, using(crate::proofs::Empty::no_items))]
fn has_no_depends(depends: &List<Text>) -> bool
    ensures { result ≡ has_no_items depends.now }
{
    depends.is_empty()
}

fn is_carried_head(node: &Node) -> bool
    ensures { result ≡ has_carried_head (node_view node.now) }
{
    has_no_aspects(&node.aspects) && has_no_depends(&node.depends)
}

/// Whether the heads and kinds of a construct, and of those below it, are carried.
#[cycle(constructs)]
pub fn has_carried_parts(node: &Node) -> bool
    ensures { result ≡ spec_has_carried_parts (node_view node.now) }
{
    is_carried_head(node) && is_carried_kind(&node.kind) && have_carried_parts(&node.children)
}

#[cycle(constructs)]
fn have_carried_parts(nodes: &List<Node>) -> bool
    ensures { result ≡ spec_have_carried_parts (nodes_view nodes.now) }
{
    for node in nodes.as_slice() {
        if !has_carried_parts(node) {
            return false;
        }
    }
    true
}
