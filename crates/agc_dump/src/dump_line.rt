//! Takes a line of a text of numbers apart: its address, and what follows.
use crate::fault::{DumpFault, DumpLineFault};
use crate::radix::{Radix, digit_of, is_mark, number_of};
use agc_listing::{first_comma, read_place};
use agc_word::next_word;

/// The address with which a line begins.
#[derive(Clone, Copy, Debug, PartialEq, Eq)]
pub(crate) enum Address {
    /// A place of the rope: 2000 octal times its bank, plus the offset.
    Place(usize),
    /// The number of words or bytes before the line.
    Number(u32),
}

/// A line without its comment.
#[derive(Clone, Copy, Debug, PartialEq, Eq)]
pub(crate) struct DumpLine<'a> {
    /// Counts from 1.
    pub(crate) number: usize,
    pub(crate) text: &'a [u8],
    pub(crate) address: Option<Address>,
    /// What stands behind the address: the end of `text`.
    pub(crate) rest: &'a [u8],
}

impl DumpLine<'_> {
    /// Returns a fault at what is left of the line: `end` is the end of its text.
    pub(crate) fn fault_at(self, end: &[u8], fault: DumpLineFault) -> DumpFault {
        let before = self.text.len().saturating_sub(end.len());
        DumpFault::Line {
            line: self.number,
            column: before.saturating_add(1),
            fault,
        }
    }

    /// Returns a fault at the first word of the line.
    pub(crate) fn fault_at_start(self, fault: DumpLineFault) -> DumpFault {
        self.fault_at(from_word(self.text), fault)
    }
}

/// Takes a line apart, or returns its first fault.
pub(crate) fn dump_line(
    radix: Radix,
    number: usize,
    line: &[u8],
) -> Result<DumpLine<'_>, DumpFault> {
    let text = without_comment(line);
    let whole = DumpLine {
        number,
        text,
        address: None,
        rest: text,
    };
    if let Some(end) = from_other_character(radix, text) {
        return Err(whole.fault_at(end, character_fault(radix, end)));
    }
    let Some((first, rest)) = next_word(text) else {
        return Ok(whole);
    };
    let (digits, rest) = if let Some((digits, rest)) = split_at_colon(from_word(text)) {
        (digits, rest)
    } else if first_comma(first).is_some() || is_offset(radix, first) {
        (first, rest)
    } else {
        return Ok(whole);
    };
    match address_of(radix, digits) {
        Some(address) => Ok(DumpLine {
            number,
            text,
            address: Some(address),
            rest,
        }),
        None => Err(whole.fault_at_start(DumpLineFault::NoAddress)),
    }
}

/// Returns a line up to the first `#` or `;`.
fn without_comment(line: &[u8]) -> &[u8] {
    let end = line.iter().position(|byte| matches!(*byte, b'#' | b';'));
    match end {
        Some(end) => line.get(..end).unwrap_or(line),
        None => line,
    }
}

/// Returns a text from the first byte on that may not stand in a line.
fn from_other_character(radix: Radix, text: &[u8]) -> Option<&[u8]> {
    let at = text
        .iter()
        .position(|byte| digit_of(radix, *byte).is_none() && !is_mark(*byte))?;
    text.get(at..)
}

/// Returns the fault of a text that begins with a byte that may not stand in a line.
fn character_fault(radix: Radix, text: &[u8]) -> DumpLineFault {
    match text {
        [b'*', ..] => DumpLineFault::Repeated,
        [b'\r', ..] => DumpLineFault::Return,
        _ => DumpLineFault::Character(radix),
    }
}

/// Returns a text from its first word on.
pub(crate) fn from_word(text: &[u8]) -> &[u8] {
    let at = text.iter().position(|byte| !matches!(*byte, b' ' | b'\t'));
    match at {
        Some(at) => text.get(at..).unwrap_or(text),
        None => text,
    }
}

/// Returns what stands before a colon in the first word, and behind it.
fn split_at_colon(text: &[u8]) -> Option<(&[u8], &[u8])> {
    let at = text
        .iter()
        .position(|byte| matches!(*byte, b':' | b' ' | b'\t'))?;
    match text.split_at_checked(at) {
        Some((digits, [b':', rest @ ..])) => Some((digits, rest)),
        _ => None,
    }
}

/// Returns whether a number at the start of a line is an address without a colon, since it has too many digits for a word.
fn is_offset(radix: Radix, digits: &[u8]) -> bool {
    match radix {
        Radix::Octal => digits.len() > 6,
        Radix::Hex => digits.len() == 6 || digits.len() == 7,
    }
}

/// Returns the address of its digits.
fn address_of(radix: Radix, digits: &[u8]) -> Option<Address> {
    if digits.is_empty() {
        None
    } else if first_comma(digits).is_some() {
        Some(Address::Place(read_place(digits)?))
    } else {
        Some(Address::Number(number_of(radix, digits)))
    }
}
