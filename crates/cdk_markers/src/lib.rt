//! The markers of tokens inside texts: which text is a token's key, and how a text that holds markers is cut.
#![tactic(auto)]

mod cutting;
mod key;
mod laws;
mod lists;
mod spelling;
mod texts;

pub use cutting::{Piece, Pieces};
pub use key::is_key;
pub use laws::{cuts_are_unique, cuts_exist, list_keys_are_exact};
pub use lists::list_key;
pub use spelling::{list_marker, text_marker};
pub use texts::pieces;
