//! That the assembly of an application comes to what its construct tree means: a law over the definitions of both.
#![tactic(auto)]

mod laws;

pub use laws::trees_keep_meaning;
