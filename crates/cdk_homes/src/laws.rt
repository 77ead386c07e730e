// What the crates above may rely on: the function stands for the laws in its contract, and does nothing.
ghost use Rattle.cdk_homes.specs.Laws.{OthersKeepTheirs, PutIsSpelled};

/// The law that a pair of a target and a consumer has its spelling once it is put, and that every other pair keeps the
/// spelling that it had, or none.
pub fn put_changes_one_pair()
    ensures put { PutIsSpelled }
    ensures others { OthersKeepTheirs }
{}
