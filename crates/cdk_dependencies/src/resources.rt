// How many resources there are in each construct.
ghost use Rattle.std.specs.Prelude.{◌≡◌, ◌<◌, length, nat_eq, IfOk};
ghost use Rattle.std.specs.List.{list_any};
ghost use Rattle.cdk_dependencies.specs.Pairs.{is_resource_in, resources_in, scopes_of};
ghost use Rattle.cdk_dependencies.specs.Passes.{AreCounts, CountsOneMore};
ghost use Rattle.cdk_language.specs.Construct.{kind_view};
ghost use Rattle.cdk_tree.specs.Expected.{is_resource as spec_is_resource};
ghost use Rattle.cdk_tree.specs.TreeView.{constructs};

use cdk_language::Kind;
use cdk_tree::{NodeId, Tree};
use std::alloc::{AllocError, Global};

fn is_resource(kind: &Kind) -> bool
    ensures { result ≡ spec_is_resource (kind_view kind.now) }
{
    matches!(kind, Kind::Resource(_))
}

/// One more in a construct and in each scope above it.
fn count_in_scopes(tree: &Tree, at: NodeId, counts: &mut [u64])
    requires within { at < length (constructs tree.now) }
    requires one_each { length counts.old ≡ length (constructs tree.now) }
    ensures { CountsOneMore (λ t. list_any (nat_eq t) (scopes_of (constructs tree.now) at)) counts.old counts.new }
{
    let mut next = Some(at);
    while let Some(scope) = next {
        let place = scope.number();
        counts[place] = counts[place].saturating_add(1);
        next = tree.parent(scope);
    }
}

/// One more in a construct and in each scope above it, where the construct is a resource.
fn count_resource(tree: &Tree, at: NodeId, counts: &mut [u64])
    requires within { at < length (constructs tree.now) }
    requires one_each { length counts.old ≡ length (constructs tree.now) }
    ensures { CountsOneMore (λ t. is_resource_in (constructs tree.now) t at) counts.old counts.new }
{
    if is_resource(&tree.node(at).kind) {
        count_in_scopes(tree, at, counts);
    }
}

/// Of each construct, in walk order, how many resources there are in it, itself counted. A count that doesn't fit 64 bits
/// is told as the greatest number that does. The error is want of memory.
pub fn resource_counts(alloc: Global, tree: &Tree) -> Result<Vec<u64>, AllocError>
    ensures { IfOk result (λ counts. AreCounts (resources_in (constructs tree.now)) (constructs tree.now) counts.items) }
{
    let mut counts = vec![in alloc; 0; tree.len()]?;
    for number in 0..tree.len() {
        let Some(at) = tree.id(number) else {
            unreachable!()
        };
        count_resource(tree, at, &mut counts);
    }
    Ok(counts)
}
