// What the crates above may rely on: each function stands for the law in its contract, and does nothing.
ghost use Rattle.cdk_markers.specs.Cut.{CutsExist};
ghost use Rattle.cdk_markers.specs.ListKey.{ListKeysAreExact};
ghost use Rattle.cdk_markers.specs.Pieces.{CutsAreUnique};

/// The law that each text has a cut.
pub fn cuts_exist()
    ensures { CutsExist }
{}

/// The law that two cuts of one text are equal.
pub fn cuts_are_unique()
    ensures { CutsAreUnique }
{}

/// The law that a value has the key of a list marker exactly where it is that marker.
pub fn list_keys_are_exact()
    ensures { ListKeysAreExact }
{}
