//! Converts a rope file between readings: the order of the banks, the place of the parity bit, the order of the bytes.
ghost use Rattle.std.specs.Prelude.{◌≡◌, ℕ, ◌<◌, ◌≤◌, ◌^◌, List, All, IfOk, length};
ghost use Rattle.agc_store.specs.Places.{fixed_words};
ghost use Rattle.agc_mend.specs.Reading.{
  ComesBack,
  IsConverted,
  bits_for,
  bytes_in_order,
  carried_over,
  converted,
  converted_at,
  length_for,
  padded_for,
  without_parity,
  word_at,
  word_meant,
};
ghost use Rattle.agc_mend.specs.declared.reading.Reading.{Reading};

use crate::parity::{with_right_parity, word_at};
use agc_store::place::FIXED_BANK_SIZE;
use agc_store::{RopeForm, index_in_file};
use std::alloc::{AllocError, Global};

/// The parity bit of a file's words.
#[derive(Clone, Copy, Debug, PartialEq, Eq)]
pub enum ParityBit {
    /// The first fifteen bits are the rope's word, and the last one is unused.
    Unused,
    /// The parity bit is the last bit.
    Last,
    /// The parity bit is the first bit.
    First,
}

/// One way to read the words of a rope file.
#[derive(Clone, Copy, Debug, PartialEq, Eq)]
pub struct Reading {
    /// The form whose order of banks the file has: 02, 03, 00, 01, 04 and so on, or 00, 01, 02 and so on.
    pub order: RopeForm,
    pub parity: ParityBit,
    /// Whether the lower byte of each word comes first.
    pub is_swapped: bool,
}

/// Converts the words of a file to another reading. Each place has the same fifteen bits afterwards. The parity bits
/// are made right if only the other reading uses them, set to 0 if only this one does, and else left unchanged. If the
/// order of the banks changes, the file has four banks at least. Fails if out of memory.
pub fn convert(
    alloc: Global,
    before: Reading,
    after: Reading,
    words: &[u16],
) -> Result<Vec<u16>, AllocError>
    requires { length words.now ≤ fixed_words }
    ensures converted { IfOk result (λ new. new.items ≡ converted before after words.now) }
    ensures rope { IfOk result (λ new. IsConverted before after words.now new.items) }
{
    let new = converted(alloc, before, after, words)?;
    Ok(new)
}

#[tactic(auto, unfolding(crate::specs::Reading::converted))]
fn converted(
    alloc: Global,
    before: Reading,
    after: Reading,
    words: &[u16],
) -> Result<Vec<u16>, AllocError>
    requires { length words.now ≤ fixed_words }
    ensures { IfOk result (λ new. new.items ≡ converted before after words.now) }
{
    (0..length_for(before.order, after.order, words.len()))
        .map(|index| converted_at(before, after, words, index))
        .collect(alloc)
}

/// Returns the number of words in the other reading.
fn length_for(before: RopeForm, after: RopeForm, len: usize) -> usize
    requires { len ≤ fixed_words }
    ensures count { result ≡ length_for before after len }
    ensures range { result ≤ fixed_words }
{
    match (before, after) {
        (RopeForm::Classic, RopeForm::Classic) | (RopeForm::Parity, RopeForm::Parity) => len,
        _ => len.max(4 * FIXED_BANK_SIZE as usize),
    }
}

/// Returns the sixteen bits at an index of the file in the other reading.
#[tactic(auto, unfolding(crate::specs::Reading::converted_at, crate::specs::Reading::word_at))]
fn converted_at(before: Reading, after: Reading, words: &[u16], index: usize) -> u16
    requires { index < fixed_words }
    ensures { result ≡ converted_at before after words.now index }
{
    let place = index_in_file(after.order, index);
    let bits = word_at(words, index_in_file(before.order, place));
    let word = carried_over(before.parity, after.parity, word_meant(before, bits));
    bits_for(after, word)
}

/// Returns the word that sixteen bits mean in a reading: fifteen bits, then the parity bit.
#[tactic(auto, unfolding(crate::specs::Reading::word_meant))]
pub(crate) fn word_meant(reading: Reading, bits: u16) -> u16
    ensures { result ≡ word_meant reading bits }
{
    let bits = bytes_in_order(reading.is_swapped, bits);
    match reading.parity {
        ParityBit::First => 2 * (bits % 0o100000) + bits / 0o100000,
        ParityBit::Unused | ParityBit::Last => bits,
    }
}

/// Returns the sixteen bits that a reading has for a word.
#[tactic(auto, unfolding(crate::specs::Reading::bits_for))]
fn bits_for(reading: Reading, word: u16) -> u16
    ensures { result ≡ bits_for reading word }
{
    let bits = match reading.parity {
        ParityBit::First => 0o100000 * (word % 2) + word / 2,
        ParityBit::Unused | ParityBit::Last => word,
    };
    bytes_in_order(reading.is_swapped, bits)
}

/// Returns sixteen bits, with their two bytes exchanged if they are swapped.
fn bytes_in_order(is_swapped: bool, bits: u16) -> u16
    ensures { result ≡ bytes_in_order is_swapped bits }
{
    if is_swapped {
        256 * (bits % 256) + bits / 256
    } else {
        bits
    }
}

/// Returns a word with the parity bit that the other reading has for it.
#[tactic(auto, unfolding(crate::specs::Reading::carried_over))]
fn carried_over(before: ParityBit, after: ParityBit, word: u16) -> u16
    ensures { result ≡ carried_over before after word }
{
    match (before, after) {
        (ParityBit::Unused, ParityBit::Unused) => word,
        (ParityBit::Unused, ParityBit::Last | ParityBit::First) => with_right_parity(word),
        (ParityBit::Last | ParityBit::First, ParityBit::Unused) => without_parity(word),
        _ => word,
    }
}

/// Returns a word with the parity bit 0; the parity bit of +0 stays.
#[tactic(auto, unfolding(crate::specs::Reading::without_parity))]
fn without_parity(word: u16) -> u16
    ensures { result ≡ without_parity word }
{
    if word / 2 == 0 { word } else { 2 * (word / 2) }
}

/// Converting there and back gives the same words, with zeros after them up to four banks if the order of the banks
/// changed.
pub fn converting_there_and_back()
    ensures { (before after : Reading) (words : List ℕ) → length words ≤ fixed_words
        → All (λ bits. bits < 2 ^ 16) words
        → All (λ bits. ComesBack before.parity after.parity (word_meant before bits)) words
        → converted after before (converted before after words)
        ≡ padded_for before.order after.order words }
{}
