//! Finds the lines of a typed listing that are in doubt: their text is not their word's, or lines before them are missing.
use agc_listing::{
    Operand, PlacedWord, offset_parsed, operand_in, push_file_bytes, push_order, push_rope_place,
    read_line, words_of,
};
use agc_order::{Basic, Extracode, Row};
use agc_store::place::FIXED_WORDS;
use agc_vocabulary::{Alias, basic_named, code_of, extracode_named};
use agc_word::{Narrow, read_octal, without_return};
use std::alloc::{AllocError, Global};

/// The most doubts that a report shows.
const MOST: usize = 20;

/// Returns the end of the report on a text without a fault: a line for each doubt about one of its lines of places and
/// words, up to twenty, and how many more there are. Fails if out of memory.
pub(crate) fn doubts(alloc: Global, file: &[u8]) -> Result<String, AllocError> {
    let mut text = String::new(alloc);
    let mut count = 0usize;
    let mut before = None;
    for (number, line) in (1..usize::MAX).zip(file.split(|b| *b == b'\n')) {
        let line = without_return(line);
        match read_line(line) {
            Ok(Some(parsed)) => {
                let place = parsed.place;
                let doubt = doubts_about(alloc, number, line, before, parsed)?;
                if !doubt.is_empty() {
                    count = count.saturating_add(1);
                }
                if count <= MOST {
                    text.push_str(doubt.as_str())?;
                }
                before = Some(place);
            }
            Ok(None) => {}
            Err(_) => before = None,
        }
    }
    report_of(alloc, count, &text)
}

/// Returns the end of the report with these lines.
fn report_of(alloc: Global, count: usize, lines: &String) -> Result<String, AllocError> {
    let mut text = String::new(alloc);
    if count == 0 {
        text.push_str("\n")?;
        return Ok(text);
    }
    text.push_str(", but see these lines:\n")?;
    text.push_str(lines.as_str())?;
    if count > MOST {
        let more = count.saturating_sub(MOST);
        writeln!(text, "    and {more} more")?;
    }
    Ok(text)
}

/// Returns the doubts about a line that comes after one with a word at a place.
fn doubts_about(
    alloc: Global,
    number: usize,
    line: &[u8],
    before: Option<usize>,
    parsed: PlacedWord,
) -> Result<String, AllocError> {
    let mut text = String::new(alloc);
    if let Some(before) = before {
        push_gap(&mut text, number, before, parsed.place)?;
    }
    let words = words_of(alloc, code_of(line))?;
    if let Some(written) = words.as_slice().get(2) {
        let operand = operand_of(words.as_slice());
        push_mismatch(&mut text, number, parsed.word, written, operand)?;
    }
    Ok(text)
}

/// Returns the operand of a line of a place, a word and an order; none if an offset follows it.
fn operand_of<'a>(words: &[&'a [u8]]) -> Option<&'a [u8]> {
    let operand = words.get(3)?;
    match words.get(4) {
        Some(next) if offset_parsed(next).is_some() => None,
        _ => Some(*operand),
    }
}

/// Appends which places of a bank have no line, between two lines of the listing.
fn push_gap(
    text: &mut String,
    number: usize,
    before: usize,
    place: usize,
) -> Result<(), AllocError> {
    let first = before.saturating_add(1);
    if place <= first || place / 0o2000 != before / 0o2000 {
        return Ok(());
    }
    let last = place.saturating_sub(1);
    write!(text, "    line {number}: no line before it has ")?;
    push_place(text, first)?;
    if first != last {
        text.push_str(" to ")?;
        push_place(text, last)?;
    }
    text.push_str("\n")
}

/// Appends a place of the rope.
fn push_place(text: &mut String, place: usize) -> Result<(), AllocError> {
    if place < FIXED_WORDS as usize {
        push_rope_place(text, place)
    } else {
        Ok(())
    }
}

/// Appends that a word is another order than its line's text says, if it is.
fn push_mismatch(
    text: &mut String,
    number: usize,
    word: Narrow,
    written: &[u8],
    operand: Option<&[u8]>,
) -> Result<(), AllocError> {
    if is_data(written) {
        return push_other_data(text, number, word, written, operand);
    }
    let alias = Alias::from_name(written);
    let name = match alias {
        Some(alias) => alias.order().as_bytes(),
        None => written,
    };
    let extracode = match (basic_named(name), extracode_named(name)) {
        (None, None) => return Ok(()),
        (None, Some(_)) => true,
        _ => false,
    };
    let operand = match alias {
        Some(alias) if alias.operand().is_some() => own_operand(alias),
        _ => operand,
    };
    if is_said(word, name, operand.and_then(|digits| read_octal(4, digits))) {
        return Ok(());
    }
    write!(text, "    line {number}: the word {word} is ")?;
    push_order(text, extracode, word)?;
    push_written(text, written, operand)
}

/// Returns the operand of an alias that has one of its own, but not that of NOOP, which depends on the place.
fn own_operand(alias: Alias) -> Option<&'static [u8]> {
    match alias.operand() {
        Some("+1") | None => None,
        Some(digits) => Some(digits.as_bytes()),
    }
}

/// Returns whether a word is the order with a mnemonic, and with this operand if it is a number: as a basic order, as an
/// extracode, or as TC, which RELINT, INHINT and EXTEND are too.
fn is_said(word: Narrow, name: &[u8], operand: Option<u64>) -> bool {
    has_order(Basic::named_by(word).row(), word, name, operand)
        || has_order(Extracode::named_by(word).row(), word, name, operand)
        || is_transfer(word, name, operand)
}

/// Returns whether a word is TC to an address.
fn is_transfer(word: Narrow, name: &[u8], operand: Option<u64>) -> bool {
    let bits = u64::from(word.bits());
    let is_address = match operand {
        Some(address) => address == bits,
        None => true,
    };
    name == "TC".as_bytes() && bits < 0o10000 && is_address
}

/// Returns whether a row has this mnemonic, and the word this operand.
fn has_order(row: Row, word: Narrow, name: &[u8], operand: Option<u64>) -> bool {
    if row.mnemonic.as_bytes() != name {
        return false;
    }
    match (operand_in(row.takes, word), operand) {
        (Operand::Address(address), Some(number)) => u64::from(address) == number,
        (Operand::Channel(channel), Some(number)) => u64::from(channel) == number,
        _ => true,
    }
}

/// Returns whether a text is a directive for a word in octal.
fn is_data(written: &[u8]) -> bool {
    written == "OCT".as_bytes() || written == "OCTAL".as_bytes()
}

/// Appends that a word is another one than its line's text says in octal, if it is.
fn push_other_data(
    text: &mut String,
    number: usize,
    word: Narrow,
    written: &[u8],
    operand: Option<&[u8]>,
) -> Result<(), AllocError> {
    match operand.and_then(|digits| read_octal(5, digits)) {
        Some(bits) if bits != u64::from(word.bits()) => {
            write!(text, "    line {number}: the word is {word}")?;
            push_written(text, written, operand)
        }
        _ => Ok(()),
    }
}

/// Appends what the text of a line says in place of its word.
fn push_written(
    text: &mut String,
    written: &[u8],
    operand: Option<&[u8]>,
) -> Result<(), AllocError> {
    text.push_str(", not ")?;
    push_file_bytes(text, written)?;
    if let Some(operand) = operand {
        text.push_str(" ")?;
        push_file_bytes(text, operand)?;
    }
    text.push_str("\n")
}
