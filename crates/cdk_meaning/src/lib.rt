//! What a construct tree's expressions mean, and the laws that rendering them keeps that meaning. Each law is the contract of a
//! function with an empty body.
#![tactic(auto)]

mod laws;

pub use laws::{
    agreement_is_seen, assemblies_keep_meaning, conditions_keep_truth, cutting_undoes_joining,
    imports_stand, literals_are_rendered, literals_stand, outputs_keep_meaning,
    rendered_condition_is_canonical, rendered_is_canonical, rendering_keeps_meaning,
    resources_keep_meaning, sections_hold, stacks_follow, stacks_keep_meaning, truth_is_fixed,
};
