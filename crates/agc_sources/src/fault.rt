//! Why there are no source lines.
use std::alloc::AllocError;
use std::fmt;

/// The words of a bank.
const BANK_SIZE: u32 = 0o2000;

/// The first place at which a listing and a rope have different words of fifteen bits.
#[derive(Clone, Copy, Debug, PartialEq, Eq)]
pub struct Apart {
    /// 2000 octal times the bank, plus the offset.
    pub place: u32,
    pub listed: u16,
    pub in_rope: u16,
}

/// Why a file is no listing of the rope that runs.
#[derive(Clone, Copy, Debug, PartialEq, Eq)]
pub enum SourceLinesFault {
    /// The listing cannot be opened or read, or has more than 16,777,216 bytes.
    CannotRead,
    /// A line, counted from 1, is not as `weave --write-listing` writes it.
    Line(usize),
    /// A line, counted from 1, has a place that a line before it has.
    Again(usize),
    /// No line has a place and a word.
    Empty,
    /// The listing has another word than the rope.
    OtherRope(Apart),
    /// Out of memory.
    Memory,
}

impl From<AllocError> for SourceLinesFault {
    fn from(_: AllocError) -> SourceLinesFault {
        SourceLinesFault::Memory
    }
}

impl fmt::Display for SourceLinesFault {
    fn fmt<W: fmt::Write>(&self, out: &mut fmt::Formatter<W>) -> fmt::Result {
        match *self {
            SourceLinesFault::CannotRead => out.write_str("cannot read listing"),
            SourceLinesFault::Line(number) => {
                write!(
                    out,
                    "listing: line {number} is not as weave --write-listing writes it"
                )
            }
            SourceLinesFault::Again(number) => {
                write!(
                    out,
                    "listing: line {number} has the place of an earlier line once more"
                )
            }
            SourceLinesFault::Empty => out.write_str("listing: no line has a place and a word"),
            SourceLinesFault::OtherRope(
                Apart {
                    place,
                    listed,
                    in_rope,
                },
            ) => {
                let (bank, address) = (
                    place / BANK_SIZE,
                    window_of(place).saturating_add(place % BANK_SIZE),
                );
                write!(
                    out,
                    "listing: it is not of this rope: at {bank:02o},{address:04o} it has {listed:05o}, and the rope {in_rope:05o}"
                )
            }
            SourceLinesFault::Memory => out.write_str("memory"),
        }
    }
}

/// Returns the address at which listings show the first word of a place's bank.
fn window_of(place: u32) -> u32 {
    match place / BANK_SIZE {
        2 => 0o4000,
        3 => 0o6000,
        _ => 0o2000,
    }
}
