// What the crates above may rely on: each function stands for the law in its contract, and does nothing.
ghost use Rattle.cdk_synthesis.specs.Headline.{FilesAreNamed, FilesKeepMeaning};

use cdk_tree_meaning::trees_keep_meaning;

/// The law that, where the files of an application without fault stand under a directory, they are read as an assembly
/// that comes to what the application's construct tree means, under all values, and that no marker begins in a template.
pub fn files_keep_meaning()
    ensures { FilesKeepMeaning }
{
    trees_keep_meaning();
}

/// The law that no two files of an assembly have one name, and that the manifest is the last.
pub fn files_are_named()
    ensures { FilesAreNamed }
{}
