// How many pairs dependency entries make with each construct.
ghost use Rattle.std.specs.Prelude.{◌≡◌, ◌<◌, ◌≤◌, length, min, slice_index, IfOk, IfSome};
ghost use Rattle.std.specs.Option.{option_map_or};
ghost use Rattle.cdk_dependencies.specs.Counts.{most, pair_counts_of};
ghost use Rattle.cdk_dependencies.specs.Pairs.{entry_pairs as spec_entry_pairs, resources_at as spec_resources_at, resources_in};
ghost use Rattle.cdk_dependencies.specs.Passes.{AreCounts};
ghost use Rattle.cdk_tree.specs.Placed.{construct_at};
ghost use Rattle.cdk_tree.specs.TreeView.{constructs};

use crate::resources::resource_counts;
use cdk_tree::{NodeId, Tree};
use std::alloc::{AllocError, Global};

/// How many resources there are in the construct at a path. 0 where there is none.
fn resources_at(tree: &Tree, resources: &[u64], path: &str) -> u64
    requires { AreCounts (resources_in (constructs tree.now)) (constructs tree.now) resources.now }
    ensures { result ≡ min (spec_resources_at (constructs tree.now) path.now) most }
{
    match tree.find(path) {
        Some(target) => resources[target.number()],
        None => 0,
    }
}

/// How many pairs the entries of a construct make with one resource in it.
fn entry_pairs(tree: &Tree, resources: &[u64], at: NodeId) -> u64
    requires within { at < length (constructs tree.now) }
    requires counted { AreCounts (resources_in (constructs tree.now)) (constructs tree.now) resources.now }
    ensures { result ≡ min (spec_entry_pairs (constructs tree.now) at) most }
{
    let mut sum = 0u64;
    for path in tree.node(at).depends.as_slice() {
        sum = sum.saturating_add(resources_at(tree, resources, path.as_str()));
    }
    sum
}

/// The count of a construct's scope, which comes before the construct. 0 at the root.
fn count_above(tree: &Tree, counts: &[u64], at: NodeId) -> u64
    requires within { at < length (constructs tree.now) }
    requires counted { at ≤ length counts.now }
    ensures value { result ≡ option_map_or (slice_index counts.now) (construct_at (constructs tree.now) at).parent 0 }
    ensures below { IfSome (construct_at (constructs tree.now) at).parent (λ m. m < at) }
{
    match tree.parent(at) {
        Some(scope) => counts[scope.number()],
        None => 0,
    }
}

/// Of each construct of a tree, in walk order, how many pairs it is the first of: for each entry of `dependsOn` of the
/// construct and of the scopes above it, the resources in the entry's target, the target itself counted (AWS CDK's
/// dependencies between constructs). A count that doesn't fit 64 bits is told as the greatest number that does.
///
/// Resources in each construct are counted once, and each construct's entries once: it takes as many steps as there are
/// constructs and entries, and for each resource as many as it has scopes. The error is want of memory.
pub fn pair_counts(alloc: Global, tree: &Tree) -> Result<Vec<u64>, AllocError>
    ensures { IfOk result (λ counts. counts.items ≡ pair_counts_of (constructs tree.now)) }
{
    let resources = resource_counts(alloc, tree)?;
    let mut counts = Vec::new(alloc);
    for number in 0..tree.len() {
        let Some(at) = tree.id(number) else {
            unreachable!()
        };
        let own = entry_pairs(tree, &resources, at);
        let above = count_above(tree, &counts, at);
        counts.push(own.saturating_add(above))?;
    }
    Ok(counts)
}
