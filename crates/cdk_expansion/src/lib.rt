//! Laws: the plain form of a marked value is that of the expression that it was marked from.
#![tactic(auto)]

mod laws;

pub use laws::{
    lazies_suffice, marking_keeps_forms, marking_keeps_operands, operands_have_right_markers,
    orders_suffice, places_suffice, sound_is_right, values_have_right_markers,
};
