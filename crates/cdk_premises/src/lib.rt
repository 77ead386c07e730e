//! What the laws on rendered templates ask of a tree, from how it was read and checked: that it is one stack, clean, well formed, mentions
//! what is there, has its lazies in order, and that what is rendered of it are its own expressions, no deeper than there is room.
#![tactic(auto)]

mod clean;
mod formed;
mod mentions;
mod rendered;
mod suited;
mod written;

pub use clean::{applications_are_clean, trees_are_clean, trees_stay_clean};
pub use formed::{
    applications_are_formed, conditions_are_canonical, conditions_are_well,
    conditions_have_one_member, forms_are_canonical, forms_are_well, mappings_are_well,
    properties_are_objects, trees_are_formed, trees_stay_formed,
};
pub use mentions::{
    applications_are_rooted, conditions_are_closed, conditions_are_free,
    elements_stand_in_the_stack, guards_are_conditions, operands_are_read_plain,
    operands_mention_theirs, values_mention_theirs,
};
pub use rendered::{
    condition_forms_are_own, condition_renderings_are_own, conditions_fit, forms_need_no_more,
    rendered_fits, renderings_are_own, values_fit,
};
pub use suited::{lazy_orders_are_ready, lazy_orders_suit};
pub use written::{carried_constructs_are_one_stack, roots_are_roots};
