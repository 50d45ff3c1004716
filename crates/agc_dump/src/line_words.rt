//! Reads the words of a line.
use crate::dump_line::{DumpLine, from_word};
use crate::fault::{DumpFault, DumpLineFault};
use crate::radix::{Radix, digit_of, number_of};
use agc_store::place::FIXED_WORDS;
use agc_word::next_word;

/// How the words of a text are written.
#[derive(Clone, Copy, Debug, PartialEq, Eq)]
pub(crate) enum Shape {
    /// The fifteen bits of a word.
    Word,
    /// The fifteen bits of a word, and its parity bit behind a blank.
    WordAndParity,
    /// The sixteen bits of a file's word.
    Bits,
}

/// Appends the words of a line, each as sixteen bits of a file, and returns their shape. `shape` is that of the words before, if
/// there are any.
pub(crate) fn push_line_words(
    radix: Radix,
    line: DumpLine<'_>,
    shape: Option<Shape>,
    words: &mut Vec<u16>,
) -> Result<Option<Shape>, DumpFault> {
    let mut shape = shape;
    let mut rest = line.rest;
    for _ in 0..line.rest.len() {
        let Some((digits, after)) = next_word(rest) else {
            break;
        };
        let start = from_word(rest);
        let (parity, after) = parity_behind(after);
        let found = match shape_of(radix, digits, parity) {
            Some(found) => found,
            None => return Err(line.fault_at(start, no_word(radix, digits))),
        };
        if shape.is_some() && shape != Some(found) {
            return Err(line.fault_at(start, DumpLineFault::OtherShape));
        }
        push_number(radix, digits, found, parity, words)?;
        if words.len() > FIXED_WORDS as usize {
            return Err(line.fault_at(start, DumpLineFault::PastEnd));
        }
        shape = Some(found);
        rest = after;
    }
    Ok(shape)
}

/// Returns the parity bit that is the next word of a line, if it is one, and what stands behind it.
fn parity_behind(text: &[u8]) -> (Option<u16>, &[u8]) {
    match next_word(text) {
        Some(([b'0'], rest)) => (Some(0), rest),
        Some(([b'1'], rest)) => (Some(1), rest),
        _ => (None, text),
    }
}

/// Returns the shape of a word, or `None` if it is none. A run of hexadecimal digits has a word for each four.
fn shape_of(radix: Radix, digits: &[u8], parity: Option<u16>) -> Option<Shape> {
    if digits.iter().any(|byte| digit_of(radix, *byte).is_none()) {
        return None;
    }
    let (count, number) = (digits.len(), number_of(radix, digits));
    match (radix, parity) {
        (Radix::Octal, None) if count == 5 => Some(Shape::Word),
        (Radix::Octal, Some(_)) if count == 5 => Some(Shape::WordAndParity),
        (Radix::Octal, None) if count == 6 && number <= 0o177777 => Some(Shape::Bits),
        (Radix::Hex, Some(_)) if count == 4 && number <= 0x7FFF => Some(Shape::WordAndParity),
        (Radix::Hex, None) if count >= 4 && count % 4 == 0 => Some(Shape::Bits),
        _ => None,
    }
}

/// Returns the fault of what is no word.
fn no_word(radix: Radix, digits: &[u8]) -> DumpLineFault {
    if digits.iter().any(|byte| matches!(*byte, b':' | b',')) {
        DumpLineFault::Mark
    } else {
        DumpLineFault::NoWord(radix)
    }
}

/// Appends the word, or the words, of a number.
fn push_number(
    radix: Radix,
    digits: &[u8],
    shape: Shape,
    parity: Option<u16>,
    words: &mut Vec<u16>,
) -> Result<(), DumpFault> {
    if shape != Shape::Bits {
        let word = number_of(radix, digits).min(0o77777) as u16;
        return push_bits(words, word << 1 | parity.unwrap_or(0));
    }
    let size = match radix {
        Radix::Octal => 6,
        Radix::Hex => 4,
    };
    for each in digits.chunks(size) {
        push_bits(words, number_of(radix, each).min(0xFFFF) as u16)?;
    }
    Ok(())
}

fn push_bits(words: &mut Vec<u16>, bits: u16) -> Result<(), DumpFault> {
    match words.push(bits) {
        Ok(()) => Ok(()),
        Err(_) => Err(DumpFault::Memory),
    }
}
