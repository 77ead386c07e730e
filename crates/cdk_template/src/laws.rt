// What the crates above may rely on: each function stands for the law in its contract, and does nothing.
ghost use Rattle.cdk_template.specs.Laws.{TemplatesAreUnmarked, TemplatesAreWhole};

/// The law that the template of a stack reads back from its text and misses nothing of its form: where its values read back and
/// aren't too deep, and names are right.
pub fn templates_are_whole()
    ensures { TemplatesAreWhole }
{}

/// The law that no text and no key of a stack's template has the beginning of a marker, where the check for markers finds none.
pub fn templates_are_unmarked()
    ensures { TemplatesAreUnmarked }
{}
