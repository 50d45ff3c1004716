//! The edge of every program: bounded reading, progress on a terminal, and exit statuses.
#![tactic(auto)]

mod input;
mod mark;
mod output;
mod progress;
mod status;
mod streams;
#[cfg(test)]
mod tests;
mod ticker;

pub use input::{InputFile, KEY_BYTES, ROPE_BYTES, ReadError, ReadFault, TEXT_BYTES, read_limited};
pub use mark::{next_mark, report_at};
pub use output::write_in_full;
pub use progress::{NoProgress, Progress};
pub use status::{OK, REFUSED, USAGE, WRITE_FAILED, status_of};
pub use streams::hold_closed_streams;
pub use ticker::{ProgressLine, Ticker};
