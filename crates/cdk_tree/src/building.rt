ghost use Rattle.cdk_language.specs.Construct.{app_view};
ghost use Rattle.cdk_tree.specs.TreeView.{Builds};

use crate::tree::Tree;
use cdk_base::Fault;
use cdk_language::App;
use std::alloc::Global;

/// The tree of an application. Where something is wrong with the ids and places of its constructs, the first of it in
/// walk order, at one construct the lowest number, with the construct's path as its place:
///
/// - `BadId`: an id isn't 1 to 400 printable ASCII characters without `/`.
/// - `SameId`: a child of the same scope that stands before has the id.
/// - `BadPlace`: a stage or stack stands in a stack, an element (resource, parameter, condition, mapping, output) outside
///   every stack, or a construct more than ten levels below the root.
pub fn build(alloc: Global, app: App) -> Result<Tree, Fault>
    ensures { Builds result (app_view app) }
{
    Tree::of(alloc, app)
}
