//! Orders: the table of all machine instructions and the decoder of a word.
#![tactic(auto)]

mod order;
mod row;

pub use order::{Basic, Extracode};
pub use row::{Row, Takes};
