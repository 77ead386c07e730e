//! That the tree of an application is clean that was read without a finding: laws over the definitions of its reading and of its tree.

// What the crates above may rely on: each function stands for the law in its contract, and does nothing.
ghost use Rattle.cdk_premises.specs.CleanLaws.{ApplicationsAreClean, TreesAreClean, TreesStayClean};

/// The law that in an application that is read without a finding each construct is clean for itself: its expressions hold no
/// marker's beginning, whole numbers of 64 bits, and no array or object as a piece of a Concat, and its context and the
/// defaults of its Contexts are no null.
pub fn applications_are_clean()
    ensures { ApplicationsAreClean }
{}

/// The law that the tree of such an application is clean: what each Context finds is a literal that it may find, too.
pub fn trees_are_clean()
    ensures { TreesAreClean }
{}

/// The law that its tree stays clean with settings in which nothing is found.
pub fn trees_stay_clean()
    ensures { TreesStayClean }
{}
