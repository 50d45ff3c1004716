//! Where a printed line has its place.
use crate::listing::split_at_blank;
use agc_listing::{Location, location_named};
use agc_word::read_octal;

/// The places of one bank.
const BANK_SIZE: u32 = 0o2000;

/// The form of the lines that a subcommand prints.
#[derive(Clone, Copy, Debug, PartialEq, Eq)]
pub enum PrintedLine {
    /// `CYCLE PLACE ..`
    Trace,
    /// `.. word PLACE ..`, `.. routine PLACE ..`
    Profile,
    /// The same, behind two blanks, or `< ` or `> ` if the runs differ there.
    Compare,
    /// Those of a console: the same as of a trace, or `next PLACE ..`, `where PLACE ..`, `service interrupted PLACE ..`.
    Console,
    /// `.. LOC ADDRESS BANKSET BANKS ..`, `CYCLE LST2 N ADDRESS BANKS ..`
    Jobs,
}

impl PrintedLine {
    /// Returns the place in the rope that a line has: 2000 octal times the bank, plus the offset.
    pub fn place_in(self, line: &[u8]) -> Option<u32> {
        match self {
            PrintedLine::Trace => traced_place(line),
            PrintedLine::Profile => counted_place(line),
            PrintedLine::Jobs => place_of_job(line),
            PrintedLine::Console => place_in_answer(line),
            PrintedLine::Compare => traced_place(line.get(2..)?),
        }
    }

    /// Returns whether a line is of the second run of two.
    pub(crate) fn is_of_second(self, line: &[u8]) -> bool {
        self == PrintedLine::Compare && line.starts_with(b"> ")
    }
}

/// Returns the place of a line that begins with a cycle and a place.
fn traced_place(line: &[u8]) -> Option<u32> {
    let (cycle, rest) = split_at_blank(line)?;
    if !is_number(cycle) {
        return None;
    }
    fixed_place(first_word(rest))
}

/// Returns the place of a line of a console's answer.
fn place_in_answer(line: &[u8]) -> Option<u32> {
    let beginnings: [&[u8]; 3] = [b"next ", b"where ", b"service interrupted "];
    for beginning in beginnings {
        if let Some(rest) = line.strip_prefix(beginning) {
            return fixed_place(first_word(rest));
        }
    }
    traced_place(line)
}

/// Returns the place behind `word` or `routine`.
fn counted_place(line: &[u8]) -> Option<u32> {
    let rest = match behind(line, b" word ") {
        Some(rest) => rest,
        None => behind(line, b" routine ")?,
    };
    fixed_place(first_word(rest))
}

/// Returns the place at which a job goes on, or a task begins.
fn place_of_job(line: &[u8]) -> Option<u32> {
    if let Some(rest) = behind(line, b" LOC ") {
        let (address, rest) = split_at_blank(rest)?;
        let banks = rest.strip_prefix(b"BANKSET ")?;
        return place_in_banks(address, first_word(banks));
    }
    let rest = behind(line, b" LST2 ")?;
    let (_, rest) = split_at_blank(rest)?;
    let (address, banks) = split_at_blank(rest)?;
    place_in_banks(address, first_word(banks))
}

/// Returns the place that an address names in these banks: FB in bits 15 to 11, the superbank in bit 7.
fn place_in_banks(address: &[u8], banks: &[u8]) -> Option<u32> {
    let address = read_octal(5, address)? as u32;
    let banks = read_octal(5, banks)? as u32;
    match address {
        0o2000..0o4000 => {
            let bank = banks >> 10 & 0o37;
            let bank = if bank >= 0o30 && banks >> 6 & 1 == 1 {
                bank + 0o10
            } else {
                bank
            };
            Some(bank * BANK_SIZE + (address & 0o1777))
        }
        0o4000..0o10000 => Some(address),
        _ => None,
    }
}

/// Returns the place in the rope that a text names.
fn fixed_place(text: &[u8]) -> Option<u32> {
    match location_named(text)? {
        Location::Fixed(place) => Some(place),
        Location::Erasable(_) => None,
    }
}

fn first_word(text: &[u8]) -> &[u8] {
    match split_at_blank(text) {
        Some((word, _)) => word,
        None => text,
    }
}

fn is_number(text: &[u8]) -> bool {
    !text.is_empty() && text.iter().all(|byte| byte.is_ascii_digit())
}

/// Returns what stands behind a part of a line.
fn behind<'a>(line: &'a [u8], part: &[u8]) -> Option<&'a [u8]> {
    for at in 0..line.len() {
        if let Some(rest) = line.get(at..)?.strip_prefix(part) {
            return Some(rest);
        }
    }
    None
}
