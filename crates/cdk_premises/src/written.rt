//! What an application is like that was read, and one that is carried so far: laws over the definitions of its reading and of
//! its tree.

// What the crates above may rely on: each function stands for the law in its contract, and does nothing.
ghost use Rattle.cdk_premises.specs.WrittenLaws.{CarriedConstructsAreOneStack, RootsAreRoots};

/// The law that the constructs of an application that is carried so far are one stack, which stands in no stage and depends on
/// nothing.
pub fn carried_constructs_are_one_stack()
    ensures { CarriedConstructsAreOneStack }
{}

/// The law that the first construct of an application that was read is the root, which is no element.
pub fn roots_are_roots()
    ensures { RootsAreRoots }
{}
