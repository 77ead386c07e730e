// What the crates above may rely on: each function stands for the law in its contract, and does nothing.
ghost use Rattle.cdk_stacks.specs.Laws.{ArtifactIdsDiffer, ElementsHaveLogicalNames, LogicalNamesDiffer, NoArtifactIsTree, StackNamesDiffer, StacksHaveNames};

/// The law that each element has a logical name of the right form where nothing is wrong with names.
pub fn elements_have_logical_names()
    ensures { ElementsHaveLogicalNames }
{}

/// The law that the logical names of a stack's elements differ where nothing is wrong with names.
pub fn logical_names_differ()
    ensures { LogicalNamesDiffer }
{}

/// The law that each stack has a name of the right form where nothing is wrong with names.
pub fn stacks_have_names()
    ensures { StacksHaveNames }
{}

/// The law that the names of stacks differ where nothing is wrong with names.
pub fn stack_names_differ()
    ensures { StackNamesDiffer }
{}

/// The law that the artifact ids of an assembly differ where nothing is wrong with names.
pub fn artifact_ids_differ()
    ensures { ArtifactIdsDiffer }
{}

/// The law that no stack or stage has the artifact id `Tree` in the root assembly where nothing is wrong with names.
pub fn no_artifact_is_tree()
    ensures { NoArtifactIsTree }
{}
