//! Definitions alone: plain expressions, with no marker, context or lazy in them, and how a template renders them.
#![tactic(auto)]
