//! Why a file for notes is refused.
use agc_sources::SourceLinesFault;
use std::alloc::AllocError;
use std::fmt;

/// Why a line of a file of verbs and nouns is refused.
#[derive(Clone, Copy, Debug, PartialEq, Eq)]
pub enum NounFault {
    UnknownWord,
    BadNumber,
    Again,
    NoMeaning,
    BadPart,
    Memory,
}

impl From<AllocError> for NounFault {
    fn from(_: AllocError) -> NounFault {
        NounFault::Memory
    }
}

/// Returns what is wrong with a line of a file of verbs and nouns.
fn sentence_of(fault: NounFault) -> &'static str {
    match fault {
        NounFault::UnknownWord => "a line begins with verb or noun",
        NounFault::BadNumber => "a verb or noun has two digits",
        NounFault::Again => "an earlier line has this verb or noun",
        NounFault::NoMeaning => "the verb or noun has no meaning",
        NounFault::BadPart =>
            "each part of a noun is R1 NAME = WORTH UNIT, or = octal, or = min sec; R2 and R3 too",
        NounFault::Memory => "memory",
    }
}

/// Why there are no notes.
#[derive(Clone, Copy, Debug, PartialEq, Eq)]
pub enum NotesFault {
    /// The listing is refused.
    Listing(SourceLinesFault),
    /// The file of quantities cannot be opened or read, or is too long.
    CannotReadQuantities,
    /// The file of verbs and nouns cannot be opened or read, or is too long.
    CannotReadNouns,
    /// A line of the file of verbs and nouns, counted from 1, is refused.
    NounLine(usize, NounFault),
    /// Out of memory.
    Memory,
}

impl From<AllocError> for NotesFault {
    fn from(_: AllocError) -> NotesFault {
        NotesFault::Memory
    }
}

impl fmt::Display for NotesFault {
    fn fmt<W: fmt::Write>(&self, out: &mut fmt::Formatter<W>) -> fmt::Result {
        match *self {
            NotesFault::Listing(fault) => write!(out, "{fault}"),
            NotesFault::CannotReadQuantities => out.write_str("cannot read quantities"),
            NotesFault::CannotReadNouns => out.write_str("cannot read nouns"),
            NotesFault::NounLine(line, fault) => {
                write!(out, "nouns line {line}: ")?;
                out.write_str(sentence_of(fault))
            }
            NotesFault::Memory => out.write_str("memory"),
        }
    }
}
