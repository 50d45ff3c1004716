//! Why a script is refused.
use thiserror::Error;

/// What is wrong with a line. If a line has several faults, the first in this list is reported.
#[derive(Clone, Copy, Debug, Error, PartialEq, Eq)]
pub enum FaultKind {
    /// More than 120 bytes.
    #[error("the line has more than 120 bytes")]
    LineTooLong,
    /// A byte of 200 octal or above.
    #[error("a byte is not ASCII")]
    NotAscii,
    /// A cycle is not 1 to 13 decimal digits, or beyond 1,000,000,000,000.
    #[error("a cycle is not a number up to 1000000000000")]
    BadCycle,
    /// The line starts at a lower cycle than the event line before it.
    #[error("the cycle is less than that of the line before")]
    OutOfOrder,
    /// An unknown command, name, direction or kind, or a wrong number of words.
    #[error("no such command, or not its words")]
    UnknownWord,
    /// A number is not 1 to 6 digits of its base.
    #[error("a number is not 1 to 6 digits of its base")]
    BadNumber,
    /// A number is outside its range.
    #[error("a number is out of range")]
    OutOfRange,
    /// With this line there would be more than 65,536 events.
    #[error("there are more than 65536 events")]
    TooMany,
    /// Out of memory at this line.
    #[error("out of memory")]
    Memory,
}

/// A refused script: its first faulty line, counted from 1, and what is wrong there. A merge has no
/// lines and reports line 0.
#[derive(Clone, Copy, Debug, Error, PartialEq, Eq)]
#[error("line {line}: {kind}")]
pub struct ScriptFault {
    pub line: usize,
    pub kind: FaultKind,
}
