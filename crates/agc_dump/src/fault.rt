//! Why a text is no text of a rope's words.
use crate::radix::Radix;
use std::alloc::AllocError;
use std::fmt;

/// Why a text of numbers is refused.
#[derive(Clone, Copy, Debug, PartialEq, Eq)]
pub enum DumpFault {
    /// No line has a word.
    Empty,
    /// A line is at fault at a column; both count from 1.
    Line {
        line: usize,
        column: usize,
        fault: DumpLineFault,
    },
    /// Out of memory.
    Memory,
}

/// What is wrong with a line.
#[derive(Clone, Copy, Debug, PartialEq, Eq)]
pub enum DumpLineFault {
    /// A character that is no digit of the radix, blank, colon or comma.
    Character(Radix),
    /// `*`, with which od and hexdump stand for repeated lines.
    Repeated,
    /// A carriage return that no line feed follows.
    Return,
    /// A number that is no word.
    NoWord(Radix),
    /// A word that is written in another way than those before it.
    OtherShape,
    /// A colon or a comma behind the address.
    Mark,
    /// What stands before a comma or a colon is no address.
    NoAddress,
    /// An address whose place has a word, or comes before a word of an earlier line.
    GoesBack,
    /// An address or a word past the last place of the memory.
    PastEnd,
    /// An address that may count words or bytes.
    UnknownUnit,
    /// An address that counts bytes and is odd.
    OddAddress,
}

impl From<AllocError> for DumpFault {
    fn from(_: AllocError) -> DumpFault {
        DumpFault::Memory
    }
}

impl fmt::Display for DumpFault {
    fn fmt<W: fmt::Write>(&self, out: &mut fmt::Formatter<W>) -> fmt::Result {
        match *self {
            DumpFault::Empty => out.write_str("text: no line has a word"),
            DumpFault::Memory => out.write_str("memory"),
            DumpFault::Line {
                line,
                column,
                fault,
            } => {
                let what = text_of(fault);
                write!(out, "text line {line}, column {column}: {what}")
            }
        }
    }
}

/// Returns what is wrong with a line, in words.
fn text_of(fault: DumpLineFault) -> &'static str {
    match fault {
        DumpLineFault::Character(Radix::Octal) => {
            "no octal digit, blank, colon or comma; # or ; begins a comment"
        }
        DumpLineFault::Character(Radix::Hex) => {
            "no hexadecimal digit, blank, colon or comma; # or ; begins a comment"
        }
        DumpLineFault::Repeated => {
            "* stands for lines that od or hexdump left out: make the text again with -v"
        }
        DumpLineFault::Return => {
            "a carriage return without a line feed: end each line with a line feed"
        }
        DumpLineFault::NoWord(Radix::Octal) => {
            "no word: five octal digits, perhaps a parity bit behind them, or six up to 177777"
        }
        DumpLineFault::NoWord(Radix::Hex) => {
            "no word: four hexadecimal digits, or up to 7FFF and a parity bit behind them"
        }
        DumpLineFault::OtherShape => "the words before this one are written in another way",
        DumpLineFault::Mark => "a colon or comma stands only in the address that begins a line",
        DumpLineFault::NoAddress => {
            "no address: BB,AAAA in fixed memory, or a number with a colon"
        }
        DumpLineFault::GoesBack => {
            "this address is before the end of the words above; addresses ascend in the order of --form"
        }
        DumpLineFault::PastEnd => "past the last place of fixed memory, 36864 words",
        DumpLineFault::UnknownUnit => {
            "no line shows whether addresses count words or bytes: write BB,AAAA"
        }
        DumpLineFault::OddAddress => "the addresses count bytes, and this one is odd",
    }
}
