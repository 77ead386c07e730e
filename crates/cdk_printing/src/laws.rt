// What holds of the definitions.
ghost use Rattle.cdk_printing.specs.Count.{NoLineIsForged};
ghost use Rattle.cdk_printing.specs.Printable.{OutcomesArePrintable};

/// The law that what an assembly comes to is printable, whatever its templates and the values from outside: no
/// evaluation gives a float.
pub fn outcomes_are_printable()
    ensures { OutcomesArePrintable }
{}

/// The law that a report's text has a line feed for each stack, resource, printed property and output and no other,
/// whatever stands in its names, keys and values.
pub fn no_line_is_forged()
    ensures { NoLineIsForged }
{}
