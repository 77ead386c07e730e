// What the crates above may rely on: the function stands for the laws in its contract, and does nothing.
ghost use Rattle.cdk_local_homes.specs.Laws.{LocalHomesRender, LocalHomesRenderConditions};

/// The law that marked values and conditions have, with the homes of the one stack, the template JSON in which every
/// construct is spelled by its logical name.
pub fn local_homes_render()
    ensures values { LocalHomesRender }
    ensures conditions { LocalHomesRenderConditions }
{}
