// Applications by what a pass over their tree tells.
ghost use Rattle.std.specs.Prelude.{IfOk};
ghost use Rattle.cdk_expansion.specs.Clean.{TreeIsClean};
ghost use Rattle.cdk_tree.specs.TreeView.{constructs};

use crate::faults::{NO_FAULT, error_text, fault_text, found_text};
use crate::rendering::Rendering;
use crate::{lazies, tokens};
use cdk_base::Fault;
use cdk_doc::read_app;
use cdk_tally::{Group, Trouble};
use cdk_targets::check_targets;
use cdk_tokens::mark;
use cdk_tree::{Tree, build};
use std::alloc::{AllocError, Global};

/// A pass over the tree of an application, which is a group of rows. Where reading or building finds a fault, it is told.
#[derive(Clone, Copy)]
pub enum Pass {
    /// None: only reading and building.
    Reading,
    /// The first wrong target.
    Targets,
    /// The key and owner of each token and the marked values, or the fault that keeps them from being made.
    Marking,
    /// The lazies in their order, or the first lazy or condition that reaches itself.
    Ordering,
    /// The first construct that is too large or too deep.
    Sizing,
    /// The template JSON of one construct. A row's document has the construct's path and a tab before it.
    Rendering,
    /// What is kept of lazies where one construct is rendered, whose path stands likewise.
    Keeping,
}

/// The tree of a document's application, whose expressions are clean.
pub fn tree_of(alloc: Global, document: &[u8]) -> Result<Tree, Fault>
    ensures { IfOk result (λ tree. TreeIsClean (constructs tree)) }
{
    let app = match read_app(alloc, document) {
        Ok(app) => app,
        Err(fault) => return Err(fault),
    };
    build(alloc, app)
}

fn target_text(alloc: Global, tree: &Tree) -> Result<String, AllocError> {
    match check_targets(tree) {
        Ok(()) => String::from_str(alloc, NO_FAULT),
        Err(found) => found_text(alloc, tree, found),
    }
}

impl Pass {
    // What is told of the tokens: all of them, or the lazies' order.
    fn told_of_marks(self, alloc: Global, tree: &Tree) -> Result<String, AllocError> {
        match mark(alloc, tree) {
            Ok((marked, table)) => match self {
                Pass::Ordering => lazies::told(alloc, tree, &marked, &table),
                _ => tokens::told(alloc, tree, &marked, &table),
            },
            Err(error) => error_text(alloc, tree, error),
        }
    }

    fn told_of_tree(self, alloc: Global, tree: &Tree, path: &str) -> Result<String, AllocError>
        requires { TreeIsClean (constructs tree.now) }
    {
        match self {
            Pass::Reading => String::from_str(alloc, NO_FAULT),
            Pass::Targets => target_text(alloc, tree),
            Pass::Marking | Pass::Ordering => self.told_of_marks(alloc, tree),
            Pass::Sizing => Rendering::Check.told(alloc, tree, path),
            Pass::Rendering => Rendering::Json.told(alloc, tree, path),
            Pass::Keeping => Rendering::Results.told(alloc, tree, path),
        }
    }

    /// What is told of a document's application, and of the construct at the path where the pass is about one.
    pub fn told_at(self, alloc: Global, document: &str, path: &str) -> Result<String, AllocError> {
        match tree_of(alloc, document.as_bytes()) {
            Ok(tree) => {
                let told = self.told_of_tree(alloc, &tree, path);
                drop(tree);
                told
            }
            Err(fault) => fault_text(alloc, fault),
        }
    }
}

impl Group for Pass {
    fn name(&self) -> &'static str {
        match self {
            Pass::Reading => "documents",
            Pass::Targets => "trees",
            Pass::Marking => "tokens",
            Pass::Ordering => "lazies",
            Pass::Sizing => "sizes",
            Pass::Rendering => "rendering",
            Pass::Keeping => "kept",
        }
    }

    fn told(&self, alloc: Global, row: &str) -> Result<String, Trouble> {
        let (path, document) = row.split_once('\t').unwrap_or(("", row));
        Ok(self.told_at(alloc, document, path)?)
    }
}
