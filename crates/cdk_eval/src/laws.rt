// What holds of the definitions.
ghost use Rattle.cdk_eval.specs.Conditions.{BoundSuffices, LoopsAreFound, NamesAreOpened};
ghost use Rattle.cdk_eval.specs.Manifest.{CyclesAreFound, OrderKeepsDependencies, OrderIsWhole};

/// The law that a template's conditions need no more openings, one inside another, than there are conditions.
pub fn condition_bound_suffices()
    ensures { BoundSuffices }
{}

/// The law that a condition which reaches itself by a way of any length is a loop.
pub fn condition_loops_are_found()
    ensures { LoopsAreFound }
{}

/// The law that a condition which doesn't reach itself has the truth of its form under the truths of all names.
pub fn condition_names_are_opened()
    ensures { NamesAreOpened }
{}

/// The law that a stack of a manifest which reaches itself by a way of any length is in a cycle.
pub fn cycles_are_found()
    ensures { CyclesAreFound }
{}

/// The law that in the evaluation order each stack stands after those that it depends on.
pub fn order_keeps_dependencies()
    ensures { OrderKeepsDependencies }
{}

/// The law that the evaluation order of a manifest without a cycle has each of its stacks.
pub fn order_is_whole()
    ensures { OrderIsWhole }
{}
