//! Rope files: their two forms, and why a file is refused.
#![tactic(auto, unfolding(crate::specs::RopeFile::file_word, crate::specs::RopeFile::file_bank, crate::specs::RopeFile::file_index, crate::specs::RopeFile::rope_word_at, crate::specs::RopeFile::is_bad_parity, crate::specs::RopeFile::first_bad, crate::specs::RopeFile::parity_fault, crate::specs::RopeFile::rope_fault_of))]

ghost use Rattle.std.specs.Prelude.{◌≡◌, ℕ, ◌<◌, ◌≤◌, ◌*◌, ◌/◌, ◌%◌, length, IfSome, IfNone};
ghost use Rattle.agc_store.specs.Places.{fixed_words};
ghost use Rattle.agc_store.specs.RopeFile.{file_word, file_index, rope_word_at, is_bad_parity, first_bad, parity_fault, rope_fault_of};

use crate::place::{FIXED_BANK_SIZE, FIXED_WORDS, bank_of, offset_of};
use agc_word::Narrow;
use byteorder::{BigEndian, ByteOrder};
use thiserror::Error;

/// The layout of a rope file: the classic bank order 02, 03, 00, 01, 04 to 43 octal with bit 1 of
/// each word unused, or the plain order with odd parity in bit 1.
#[derive(Clone, Copy, Debug, PartialEq, Eq)]
pub enum RopeForm {
    Classic,
    Parity,
}

/// Why a rope file is refused. The faults are checked in this order, `Memory` last.
#[derive(Clone, Copy, Debug, PartialEq, Eq, Error)]
pub enum RopeFault {
    /// The file has no bytes.
    #[error("the rope is empty")]
    Empty,
    /// The file ends in the middle of a word.
    #[error("the rope has an odd number of bytes")]
    OddLength,
    /// The file has more than 73,728 bytes.
    #[error("the rope has more than 36 banks")]
    TooLong,
    /// The first word with an even number of one bits, by its bank and offset.
    #[error("the parity of bank {bank:o}, offset {offset:o} is wrong")]
    Parity { bank: u8, offset: u16 },
    /// Memory ran out for the words.
    #[error("no memory for the rope")]
    Memory,
}

/// Returns the fault of a file, or `None` if it is a rope.
pub(crate) fn fault(form: RopeForm, bytes: &[u8]) -> Option<RopeFault>
    ensures fault { result ≡ rope_fault_of form bytes.now }
    ensures even { IfNone result (length bytes.now % 2 ≡ 0) }
{
    if bytes.is_empty() {
        return Some(RopeFault::Empty);
    }
    if bytes.len() % 2 == 1 {
        return Some(RopeFault::OddLength);
    }
    if bytes.len() > 2 * FIXED_WORDS as usize {
        return Some(RopeFault::TooLong);
    }
    find_parity_fault(form, bytes)
}

/// Returns the first word with wrong parity in a file of at most 36 banks.
fn find_parity_fault(form: RopeForm, bytes: &[u8]) -> Option<RopeFault>
    requires even { length bytes.now % 2 ≡ 0 }
    requires banks { length bytes.now ≤ 2 * fixed_words }
    ensures { result ≡ parity_fault form bytes.now }
{
    match form {
        RopeForm::Classic => None,
        RopeForm::Parity => match find_bad(bytes) {
            Some(index) => Some(RopeFault::Parity {
                bank: bank_of(index as u32),
                offset: offset_of(index as u32),
            }),
            None => None,
        },
    }
}

/// Returns the number of the first word whose parity is wrong.
fn find_bad(bytes: &[u8]) -> Option<usize>
    requires { length bytes.now % 2 ≡ 0 }
    ensures first { result ≡ first_bad bytes.now }
    ensures range { IfSome result (λ index. index < length bytes.now / 2) }
{
    (0..bytes.len() / 2).find(|index| is_even(number_at(bytes, *index)))
}

/// Returns whether a word of 16 bits has even parity. 0 is accepted, because it marks a place without a word.
fn is_even(word: u16) -> bool
    ensures { result ≡ is_bad_parity word }
{
    word != 0 && word.count_ones() % 2 == 0
}

/// Returns the 16 bits of a word of a file, 0 past its end.
fn number_at(bytes: &[u8], index: usize) -> u16
    requires { length bytes.now % 2 ≡ 0 }
    ensures { result ≡ file_word bytes.now index }
{
    if index < bytes.len() / 2 {
        BigEndian::read_u16(&bytes[2 * index..])
    } else {
        0
    }
}

/// Returns the index in the file of the word at a place.
pub fn index_in_file(form: RopeForm, place: usize) -> usize
    requires { place < fixed_words }
    ensures index { result ≡ file_index form place }
    ensures range { result < fixed_words }
{
    let bank = place / FIXED_BANK_SIZE as usize;
    let bank_in_file = match form {
        RopeForm::Classic => match bank {
            0 | 1 => bank + 2,
            2 | 3 => bank - 2,
            _ => bank,
        },
        RopeForm::Parity => bank,
    };
    FIXED_BANK_SIZE as usize * bank_in_file + place % FIXED_BANK_SIZE as usize
}

/// Returns the rope word at a place.
pub(crate) fn woven_word(form: RopeForm, bytes: &[u8], place: usize) -> Narrow
    requires even { length bytes.now % 2 ≡ 0 }
    requires place { place < fixed_words }
    ensures { result ≡ rope_word_at form bytes.now place }
{
    Narrow::with_bits(number_at(bytes, index_in_file(form, place)) / 2)
}
