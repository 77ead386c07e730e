// What the crates above may rely on: each function stands for the law in its contract, and does nothing.
ghost use Rattle.cdk_expansion.specs.Bounds.{LaziesSuffice, OrdersSuffice, PlacesSuffice};
ghost use Rattle.cdk_expansion.specs.Laws.{MarkingKeepsForms, MarkingKeepsOperands, SoundIsRight};
ghost use Rattle.cdk_expansion.specs.MarkerForms.{OperandsHaveRightMarkers, ValuesHaveRightMarkers};

/// The law that in an application that was read without a finding, with right targets and contexts, every expression is
/// right: its contexts are found, the pieces of its Concats are texts, and no run of literals makes a marker.
pub fn sound_is_right()
    ensures { SoundIsRight }
{}

/// The law that the marked value of a construct has the plain form of the expression that it was marked from.
pub fn marking_keeps_forms()
    ensures { MarkingKeepsForms }
{}

/// The law that a marked operand of a condition has the plain form of the expression that it was marked from.
pub fn marking_keeps_operands()
    ensures { MarkingKeepsOperands }
{}

/// The law that in the marked values of constructs each marker is that of a token of its kind, and a list's stands alone.
pub fn values_have_right_markers()
    ensures { ValuesHaveRightMarkers }
{}

/// The law that the same holds in the marked operands of conditions.
pub fn operands_have_right_markers()
    ensures { OperandsHaveRightMarkers }
{}

/// The law that for a lazy its place in an order of lazies, counted from 1, is how often lazies have to be opened.
pub fn places_suffice()
    ensures { PlacesSuffice }
{}

/// The law that for a value whose lazies all stand in an order its length is.
pub fn orders_suffice()
    ensures { OrdersSuffice }
{}

/// The law that where no lazy reaches itself the number of lazies is.
pub fn lazies_suffice()
    ensures { LaziesSuffice }
{}
