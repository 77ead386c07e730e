// What is relied on of the bounded search: the function stands for the law in its contract, and does nothing.
ghost use Rattle.cdk_graphs.specs.Loops.{LoopsAreFound};

/// The law that a number reaches itself exactly where the bounded search finds it.
pub fn loops_are_found()
    ensures { LoopsAreFound }
{}
