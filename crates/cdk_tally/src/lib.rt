//! What worked cases share: groups of rows, what came of the cases, and files of the folder `data/`.
#![tactic(auto)]

mod data;
mod group;
mod printing;
mod tally;
mod texts;
mod trouble;

pub use data::text_of_file;
pub use group::{Group, try_group};
pub use printing::print;
pub use tally::Tally;
pub use texts::{push_between, push_text, texts_of};
pub use trouble::Trouble;
