//! The lines of a program's source beside what a run prints: read from the listing that `agc-study weave --write-listing`
//! writes, compared with the rope that runs, and put behind each printed line that has a place.
#![tactic(auto)]

mod fault;
mod listing;
mod printed_place;
mod source_lines;
mod source_text;
mod source_writer;

pub use fault::{Apart, SourceLinesFault};
pub use printed_place::PrintedLine;
pub use source_lines::{SourceLines, read_source_lines};
pub use source_text::push_with_sources;
pub use source_writer::SourceWriter;
