//! Writes the words of a rope file as a text of numbers.
use crate::radix::Radix;
use agc_listing::push_rope_place;
use agc_store::place::{FIXED_BANK_SIZE, FIXED_WORDS};
use agc_store::{RopeForm, index_in_file};
use std::alloc::AllocError;

/// The words of a line.
const LINE: usize = 8;

/// Where the words of a file are, and what their last bits are.
#[derive(Clone, Copy, Debug, PartialEq, Eq)]
pub struct DumpLayout<'a> {
    /// The order of the banks of a rope.
    pub order: RopeForm,
    /// If the file has some banks one after the other, these banks, else none.
    pub banks: &'a [u8],
    /// Whether the last bit of a word is its parity bit.
    pub has_parity: bool,
}

/// Appends the words of a rope file: a line for eight words, with the address of the first, `BB,AAAA:`, before them. An octal word
/// has five digits, and its last bit behind it if that is a parity bit, or is 1 in any word; a hexadecimal word is sixteen bits.
/// Lines in which all bits are 0 are left out. Fails if out of memory.
pub fn push_dump(
    text: &mut String,
    radix: Radix,
    layout: DumpLayout<'_>,
    words: &[u16],
) -> Result<(), AllocError> {
    let shows_last = layout.has_parity || words.iter().any(|word| *word % 2 == 1);
    let mut first = 0usize;
    for line in words.chunks(LINE) {
        if line.iter().any(|word| *word != 0) {
            push_address(text, layout, first)?;
            for word in line {
                push_word(text, radix, shows_last, *word)?;
            }
            text.push_str("\n")?;
        }
        first = first.saturating_add(LINE);
    }
    Ok(())
}

/// Appends the address of a word of the file, with a colon.
fn push_address(text: &mut String, layout: DumpLayout<'_>, index: usize) -> Result<(), AllocError> {
    let place = place_of_word(layout, index);
    if place < FIXED_WORDS as usize {
        push_rope_place(text, place)?;
    }
    text.push_str(":")
}

/// Returns the place in the rope of a word of the file.
fn place_of_word(layout: DumpLayout<'_>, index: usize) -> usize {
    let size = FIXED_BANK_SIZE as usize;
    if !layout.banks.is_empty() {
        let bank = layout.banks.get(index / size).copied().unwrap_or(0);
        size.saturating_mul(usize::from(bank))
            .saturating_add(index % size)
    } else if index < FIXED_WORDS as usize {
        index_in_file(layout.order, index)
    } else {
        index
    }
}

/// Appends a word behind a blank.
fn push_word(
    text: &mut String,
    radix: Radix,
    shows_last: bool,
    word: u16,
) -> Result<(), AllocError> {
    let (high, last) = (word / 2, word % 2);
    match radix {
        Radix::Hex => write!(text, " {word:04x}"),
        Radix::Octal if shows_last => write!(text, " {high:05o} {last}"),
        Radix::Octal => write!(text, " {high:05o}"),
    }
}
