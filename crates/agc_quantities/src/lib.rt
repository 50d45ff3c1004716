//! Quantities of a program: a file that names them, their words in the states of a run or in what goes down, and their
//! values as text; and keys that go up.
#![tactic(auto)]

mod fault;
mod field;
mod line;
mod lists;
mod quantities;
mod quantity;
mod sample;
mod sampler;
mod scale;
mod sent;
mod sent_list;
mod uplink;
mod words;

pub use fault::{LineFault, QuantitiesFault};
pub use lists::{MOST_IN_LISTS, read_lists};
pub use quantities::{FILE_BYTES, MOST_COLUMNS, read_quantities};
pub use quantity::{Kind, Quantity};
pub use sample::{CellWord, Sample};
pub use sampler::{Plan, Sampler, Schedule};
pub use scale::Scale;
pub use sent::{Pair, pairs_in};
pub use sent_list::{SentList, SentQuantity, list_at};
pub use uplink::{UplinkTimes, key_sent, uplink_text};
pub use words::{
    push_fault, push_heading, push_list_fault, push_list_heading, push_list_row, push_row,
    push_value,
};
