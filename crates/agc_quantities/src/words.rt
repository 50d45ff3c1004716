//! Text of quantities: the heading and the rows of a table, of samples or of lists, and what is wrong with a file. What it reads it prints; no
//! contract says how.
mod decimal;
mod fault;
mod list_row;
mod row;

pub use fault::{push_fault, push_list_fault};
pub use list_row::{push_list_heading, push_list_row};
pub use row::{push_heading, push_row, push_value};
