// What the crates above may rely on: the function stands for the law in its contract, and does nothing.
ghost use Rattle.cdk_manifest.specs.TreeFileLaws.{TreeFilesAreWhole};

/// The law that the tree file is canonical and shallow where nothing is wrong with places and the values of resources are.
pub fn tree_files_are_whole()
    ensures { TreeFilesAreWhole }
{}
