// The law between the assembly of an application and its construct tree.
ghost use Rattle.cdk_tree_meaning.specs.Law.{TreesKeepMeaning};

use cdk_premises::{conditions_are_free, values_fit};

/// Where a directory has the manifest and the templates of an application of one stack in which no pass finds anything, it is
/// read as the application's stacks, and under all values they come to what its construct tree means: each resource once and
/// made as it is meant to be, each of its properties with its meaning, each output once with the text that its value means, and
/// nothing else (own; the values are CloudFormation's).
pub fn trees_keep_meaning()
    ensures { TreesKeepMeaning }
{
    values_fit();
    conditions_are_free();
}
