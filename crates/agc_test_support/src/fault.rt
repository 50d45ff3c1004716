//! Why a listing is rejected.
use thiserror::Error;

/// The fault of a listing: its first malformed line, or else that it is empty.
#[derive(Clone, Copy, Debug, PartialEq, Eq, Error)]
pub enum ListingFault {
    /// The line with this number, counted from 1, is malformed.
    #[error("line {line} of the listing is malformed")]
    Line { line: usize },
    /// No line contains a word.
    #[error("the listing has no word")]
    Empty,
    /// Out of memory for the file.
    #[error("out of memory for the rope file")]
    Memory,
}
