//! Parses one line of a rope's text: a place and its word, or nothing.
ghost use Rattle.std.specs.Prelude.{◌≡◌, ◌<◌, ◌^◌, length, position, IfOk, IfSome};
ghost use Rattle.std.specs.List.{list_any};
ghost use Rattle.agc_store.specs.Places.{fixed_words};
ghost use Rattle.agc_word.specs.Text.{words_of};
ghost use Rattle.agc_listing.specs.Line.{
  is_comma,
  is_hash,
  is_no_text,
  line_named,
  octal_exactly,
  place_alone,
  place_checked,
  place_in_bank,
  place_named,
  word_named,
  words_named,
};

use crate::fault::LineFault;
use crate::listed::listed_address;
use agc_store::place::{FIXED_BANK_SIZE, FIXED_FIXED, FIXED_WORDS};
use agc_word::{Narrow, next_word, read_octal};

/// A word and its place in the rope: 2000 octal times its bank, plus its offset; below 36,864.
#[derive(Clone, Copy, Debug, PartialEq, Eq)]
pub struct PlacedWord {
    pub place: usize,
    pub word: Narrow,
}

/// Parses a line of a rope's text as `weave` reads it, or returns its first fault.
#[tactic(auto, unfolding(crate::specs::Line::line_named))]
pub fn read_line(line: &[u8]) -> Result<Option<PlacedWord>, LineFault>
    ensures line { result ≡ line_named line.now }
    ensures range { IfOk result (λ parsed. IfSome parsed (λ named. named.place < fixed_words)) }
{
    if has_other_byte(line) {
        return Err(LineFault::NotText);
    }
    read_words(line)
}

/// Returns whether a line contains a byte that is not text.
pub fn has_other_byte(line: &[u8]) -> bool
    ensures { result ≡ list_any is_no_text line.now }
{
    line.iter().any(|b| is_no_text(*b))
}

/// Returns whether a byte is not text: neither a tab nor printable ASCII.
pub fn is_no_text(byte: u8) -> bool
    ensures { result ≡ is_no_text byte }
{
    byte != b'\t' && (byte < 0x20 || byte >= 0x7F)
}

#[tactic(auto, unfolding(crate::specs::Line::words_named))]
fn read_words(line: &[u8]) -> Result<Option<PlacedWord>, LineFault>
    ensures words { result ≡ words_named (words_of line.now) }
    ensures range { IfOk result (λ parsed. IfSome parsed (λ named. named.place < fixed_words)) }
{
    let Some((first, words)) = next_word(line) else {
        return Ok(None);
    };
    if is_hash(first) {
        return Ok(None);
    }
    match read_place(first) {
        Some(place) => read_word(place, words),
        None => Err(LineFault::BadAddress),
    }
}

/// Returns whether a word begins a comment.
fn is_hash(word: &[u8]) -> bool
    ensures { result ≡ is_hash word.now }
{
    matches!(word, [b'#', ..])
}

/// Parses a place in the rope: `bb,oooo`, or `oooo` from 4000 to 7777.
#[tactic(auto, unfolding(crate::specs::Line::place_named))]
pub fn read_place(text: &[u8]) -> Option<usize>
    ensures place { result ≡ place_named text.now }
    ensures range { IfSome result (λ place. place < fixed_words) }
{
    match first_comma(text) {
        Some(at) => place_in_bank(
            octal_exactly(2, &text[..at]),
            octal_exactly(4, &text[at + 1..]),
        ),
        None => place_alone(octal_exactly(4, text)),
    }
}

/// Returns the position of the first comma in a text.
pub fn first_comma(text: &[u8]) -> Option<usize>
    ensures place { result ≡ position is_comma text.now }
    ensures bound { IfSome result (λ at. at < length text.now) }
{
    text.iter().position(|b| *b == b',')
}

/// Parses exactly `width` octal digits.
#[tactic(auto, unfolding(crate::specs::Line::octal_exactly))]
fn octal_exactly(width: usize, text: &[u8]) -> Option<u64>
    requires { width < 6 }
    ensures number { result ≡ octal_exactly width text.now }
    ensures range { IfSome result (λ number. number < 8 ^ width) }
{
    if text.len() != width {
        return None;
    }
    read_octal(width, text)
}

fn place_in_bank(bank: Option<u64>, address: Option<u64>) -> Option<usize>
    requires bank { IfSome bank (λ bank. bank < 8 ^ 2) }
    requires address { IfSome address (λ address. address < 8 ^ 4) }
    ensures place { result ≡ place_in_bank bank address }
    ensures range { IfSome result (λ place. place < fixed_words) }
{
    let (bank, address) = (bank?, address?);
    let size = u64::from(FIXED_BANK_SIZE);
    place_checked((size * bank + address % size) as usize, address)
}

/// Returns a place if it is in the rope and has this address.
fn place_checked(place: usize, address: u64) -> Option<usize>
    ensures place { result ≡ place_checked place address }
    ensures range { IfSome result (λ place. place < fixed_words) }
{
    if place < FIXED_WORDS as usize && u64::from(listed_address(place)) == address {
        Some(place)
    } else {
        None
    }
}

fn place_alone(address: Option<u64>) -> Option<usize>
    requires { IfSome address (λ address. address < 8 ^ 4) }
    ensures place { result ≡ place_alone address }
    ensures range { IfSome result (λ place. place < fixed_words) }
{
    let address = address?;
    if address >= u64::from(FIXED_FIXED) {
        Some(address as usize)
    } else {
        None
    }
}

/// Parses the next word as the word at a place.
#[tactic(auto, unfolding(crate::specs::Line::word_named))]
fn read_word(place: usize, words: &[u8]) -> Result<Option<PlacedWord>, LineFault>
    requires { place < fixed_words }
    ensures word { result ≡ word_named place (words_of words.now) }
    ensures range { IfOk result (λ parsed. IfSome parsed (λ named. named.place < fixed_words)) }
{
    let Some((word, _)) = next_word(words) else {
        return Err(LineFault::BadWord);
    };
    match octal_exactly(5, word) {
        Some(bits) => Ok(Some(PlacedWord {
            place,
            word: Narrow::with_bits(bits as u16),
        })),
        None => Err(LineFault::BadWord),
    }
}
