// The names of a tree's constructs, and what is wrong with them.
ghost use Rattle.cdk_tree.specs.TreeView.{constructs};
ghost use Rattle.cdk_stacks.specs.Claims.{name_findings};
ghost use Rattle.cdk_stacks.specs.Made.{AreNamed, AreNamesOf, FindsFirst};

use crate::made::Names;
use crate::taken::Taken;
use cdk_tree::{Found, PassError, Tree};
use std::alloc::Global;

fn check(alloc: Global, tree: &Tree, names: &Names) -> Result<(), PassError>
    requires { AreNamesOf names.now (constructs tree.now) }
    ensures { FindsFirst result (name_findings (constructs tree.now)) }
{
    let Ok(mut taken) = Taken::new(alloc) else {
        return Err(PassError::Memory);
    };
    for number in 0..tree.len() {
        let Some(at) = tree.id(number) else {
            unreachable!()
        };
        if let Some(code) = taken.wrong_name(tree, names, at) {
            return Err(PassError::Fault(Found { code, at }));
        }
        let Ok(()) = taken.put_names(tree, names, at) else {
            return Err(PassError::Memory);
        };
    }
    Ok(())
}

/// The names of a tree's constructs, or the first thing that is wrong with them in walk order, at one construct the lowest
/// number:
///
/// - `BadName`: a logical name, the name of a stage or stack or an artifact id is absent or of wrong form.
/// - `SameName`: a construct before has the logical name in the stack, the stack name in the application, or the
///   artifact id in the assembly, or it is `Tree` in the root assembly, which is the tree file's.
///
/// `Memory` where none is found. Sources: CloudFormation's quotas and AWS CDK's checks; that stack names differ in the
/// whole application is own.
pub fn names(alloc: Global, tree: &Tree) -> Result<Names, PassError>
    ensures { AreNamed result (constructs tree.now) }
{
    let Ok(names) = Names::of(alloc, tree) else {
        return Err(PassError::Memory);
    };
    match check(alloc, tree, &names) {
        Ok(()) => Ok(names),
        Err(error) => Err(error),
    }
}
