//! Takes banks out of a rope file, and puts banks into one.
ghost use Rattle.std.specs.Prelude.{◌≡◌, ◌<◌, ◌≤◌, IfOk, IfSome, get_or, length};
ghost use Rattle.agc_store.specs.Places.{fixed_banks, fixed_words};
ghost use Rattle.agc_mend.specs.Banks.{
  fits_in,
  is_lacking,
  lacks_bank,
  length_with,
  place_in_list,
  with_banks,
  word_in_bank,
  word_of_banks,
  word_with_banks,
  words_of_banks,
};

use crate::parity::word_at;
use agc_store::place::{FIXED_BANK_SIZE, FIXED_BANKS, FIXED_WORDS};
use agc_store::{RopeForm, index_in_file};
use std::alloc::{AllocError, Global};

/// In a list of banks, a bank without words.
pub const NO_BANK: u8 = FIXED_BANKS;

/// Returns the words of these banks of a rope file, one bank after the other in the order of the list. Fails if out of memory.
#[tactic(auto, unfolding(crate::specs::Banks::words_of_banks))]
pub fn words_of_banks(
    alloc: Global,
    order: RopeForm,
    banks: &[u8],
    words: &[u16],
) -> Result<Vec<u16>, AllocError>
    requires { length banks.now ≤ fixed_banks }
    ensures { IfOk result (λ new. new.items ≡ words_of_banks order banks.now words.now) }
{
    (0..FIXED_BANK_SIZE as usize * banks.len())
        .map(|index| word_of_banks(order, banks, words, index))
        .collect(alloc)
}

/// Returns the word at an index of that list of words.
#[tactic(auto, unfolding(crate::specs::Banks::word_of_banks))]
fn word_of_banks(order: RopeForm, banks: &[u8], words: &[u16], index: usize) -> u16
    ensures { result ≡ word_of_banks order banks.now words.now index }
{
    let size = FIXED_BANK_SIZE as usize;
    word_in_bank(order, words, bank_at(banks, index / size), index % size)
}

/// Returns a bank of a list; past its end, a bank without words.
fn bank_at(banks: &[u8], at: usize) -> u8
    ensures { result ≡ get_or banks.now at fixed_banks }
{
    banks.get(at).copied().unwrap_or(NO_BANK)
}

/// Returns the word at an offset of a bank of a rope file; 0 if there is no such bank.
fn word_in_bank(order: RopeForm, words: &[u16], bank: u8, offset: usize) -> u16
    requires { offset < 1024 }
    ensures { result ≡ word_in_bank order words.now bank offset }
{
    if bank < FIXED_BANKS {
        let place = FIXED_BANK_SIZE as usize * usize::from(bank) + offset;
        word_at(words, index_in_file(order, place))
    } else {
        0
    }
}

/// Returns the words of a rope file with those of `put` in these banks, in the order of the list. The words of all other
/// banks stay. A file that is too short for the banks becomes one of 36 banks. Fails if out of memory.
#[tactic(auto, unfolding(crate::specs::Banks::with_banks))]
pub fn with_banks(
    alloc: Global,
    order: RopeForm,
    banks: &[u8],
    put: &[u16],
    words: &[u16],
) -> Result<Vec<u16>, AllocError>
    requires words { length words.now ≤ fixed_words }
    requires banks { length banks.now ≤ fixed_banks }
    ensures { IfOk result (λ new. new.items ≡ with_banks order banks.now put.now words.now) }
{
    (0..length_with(order, banks, words.len()))
        .map(|index| word_with_banks(order, banks, put, words, index))
        .collect(alloc)
}

/// Returns the word at an index of that file.
#[tactic(auto, unfolding(crate::specs::Banks::word_with_banks))]
fn word_with_banks(order: RopeForm, banks: &[u8], put: &[u16], words: &[u16], index: usize) -> u16
    requires index { index < fixed_words }
    requires banks { length banks.now ≤ fixed_banks }
    ensures { result ≡ word_with_banks order banks.now put.now words.now index }
{
    let size = FIXED_BANK_SIZE as usize;
    let place = index_in_file(order, index);
    match place_in_list(banks, place / size) {
        Some(at) => word_at(put, size * at + place % size),
        None => word_at(words, index),
    }
}

/// Returns the index of a bank in a list.
#[tactic(auto, unfolding(crate::specs::Banks::place_in_list))]
fn place_in_list(banks: &[u8], bank: usize) -> Option<usize>
    ensures place { result ≡ place_in_list banks.now bank }
    ensures range { IfSome result (λ at. at < length banks.now) }
{
    (0..banks.len()).find(|at| usize::from(bank_at(banks, *at)) == bank)
}

/// Returns the length of a file of this length with these banks.
#[tactic(auto, unfolding(crate::specs::Banks::length_with))]
fn length_with(order: RopeForm, banks: &[u8], len: usize) -> usize
    requires { len ≤ fixed_words }
    ensures length { result ≡ length_with order banks.now len }
    ensures range { result ≤ fixed_words }
{
    if lacks_bank(order, banks, len) {
        FIXED_WORDS as usize
    } else {
        len
    }
}

/// Returns whether a file of this length lacks one of these banks.
#[tactic(auto, unfolding(crate::specs::Banks::lacks_bank))]
fn lacks_bank(order: RopeForm, banks: &[u8], len: usize) -> bool
    ensures { result ≡ lacks_bank order banks.now len }
{
    (0..banks.len()).any(|at| is_lacking(order, bank_at(banks, at), len))
}

/// Returns whether a bank is not in the words of a file of this length.
fn is_lacking(order: RopeForm, bank: u8, len: usize) -> bool
    ensures { result ≡ is_lacking order bank len }
{
    !fits_in(order, bank, len)
}

/// Returns whether a bank is in the words of a file of this length.
fn fits_in(order: RopeForm, bank: u8, len: usize) -> bool
    ensures { result ≡ fits_in order bank len }
{
    bank < FIXED_BANKS
        && index_in_file(order, FIXED_BANK_SIZE as usize * usize::from(bank))
            + FIXED_BANK_SIZE as usize
            <= len
}
