//! Definitions alone: a stack's constructs by kind, what each is to the expressions that mention it, how one stack spells its own
//! constructs, and applications of one stack.
#![tactic(auto)]
