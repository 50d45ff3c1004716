//! Finds the words of a rope file whose parity is wrong, and makes their parity bits right.
ghost use Rattle.std.specs.Prelude.{◌≡◌, ℕ, ◌<◌, ◌≤◌, ◌*◌, ◌/◌, ◌%◌, IfOk, None, length, map, get_or};
ghost use Rattle.agc_store.specs.Places.{fixed_words};
ghost use Rattle.agc_store.specs.RopeFile.{file_word, is_bad_parity, rope_fault_of, rope_words};
ghost use Rattle.agc_mend.specs.FileWords.{file_of_words, file_words};
ghost use Rattle.agc_mend.specs.Parity.{bad_words, damaged_words, with_right_parities, with_right_parity};

use crate::rope_bytes::{file_of_words, file_words};
use agc_store::{Rope, RopeForm, Store};
use std::alloc::{AllocError, Global};

/// A word whose parity is wrong: an even number of its sixteen bits are one, and it is not 0.
#[derive(Clone, Copy, Debug, PartialEq, Eq)]
pub struct BadWord {
    /// Its position among the words of the file. In the form with parity this is its place in the rope: 2000 octal
    /// times its bank, plus its offset.
    pub place: usize,
    /// Its sixteen bits: the fifteen of the rope's word, then the parity bit.
    pub word: u16,
}

/// Returns the words whose parity is wrong, in their order. Fails if out of memory.
#[tactic(auto, unfolding(crate::specs::Parity::bad_words))]
pub fn bad_words(alloc: Global, words: &[u16]) -> Result<Vec<BadWord>, AllocError>
    ensures { IfOk result (λ bad. bad.items ≡ bad_words words.now) }
{
    (0..words.len())
        .filter(|place| is_bad_parity(word_at(words, *place)))
        .map(|place| BadWord {
            place,
            word: word_at(words, place),
        })
        .collect(alloc)
}

/// Returns a word, 0 past the last one.
pub fn word_at(words: &[u16], index: usize) -> u16
    ensures { result ≡ get_or words.now index 0 }
{
    words.get(index).copied().unwrap_or(0)
}

/// Returns whether the parity of a word is wrong. 0 is accepted, because it marks a place without a word.
#[tactic(auto, unfolding(agc_store::specs::RopeFile::is_bad_parity))]
pub fn is_bad_parity(word: u16) -> bool
    ensures { result ≡ is_bad_parity word }
{
    word != 0 && word.count_ones() % 2 == 0
}

/// Returns a word with the parity bit that makes its parity right.
#[tactic(auto, unfolding(crate::specs::Parity::with_right_parity))]
pub(crate) fn with_right_parity(word: u16) -> u16
    ensures { result ≡ with_right_parity word }
{
    if !is_bad_parity(word) {
        word
    } else if word % 2 == 0 {
        word + 1
    } else {
        word - 1
    }
}

/// Returns a damaged rope file in the form with parity with all parity bits made right, so that it can be read. Fails
/// if out of memory.
pub fn right_parity(alloc: Global, file: &[u8]) -> Result<Vec<u8>, AllocError>
    requires { length file.now % 2 ≡ 0 }
    ensures file { IfOk result (λ right. right.items
        ≡ file_of_words (with_right_parities (file_words file.now))) }

    // Only parity bits change, and the reader of ropes accepts the file.
    ensures long { IfOk result (λ right. length right.items ≡ length file.now) }
    ensures bits { IfOk result (λ right. (index : ℕ)
        → file_word right.items index / 2 ≡ file_word file.now index / 2) }
    ensures accepted { IfOk result (λ right. 0 < length file.now → length file.now ≤ 2 * fixed_words
        → rope_fault_of RopeForm.Parity right.items ≡ None) }
{
    let right = right_file(alloc, file)?;
    Ok(right)
}

fn right_file(alloc: Global, file: &[u8]) -> Result<Vec<u8>, AllocError>
    ensures { IfOk result (λ right. right.items
        ≡ file_of_words (with_right_parities (file_words file.now))) }
{
    let words = file_words(alloc, file)?;
    let words = right_words(alloc, words.as_slice())?;
    file_of_words(alloc, words.as_slice())
}

/// Returns words with their parity bits made right. Fails if out of memory.
#[tactic(auto, unfolding(crate::specs::Parity::with_right_parities))]
pub fn right_words(alloc: Global, words: &[u16]) -> Result<Vec<u16>, AllocError>
    ensures { IfOk result (λ right. right.items ≡ with_right_parities words.now) }
{
    words
        .iter()
        .map(|word| with_right_parity(*word))
        .collect(alloc)
}

/// Returns the memory with a rope file whose parity bits are made right. Fails if out of memory.
pub fn damaged_store(alloc: Global, form: RopeForm, file: &[u8]) -> Result<Store, AllocError>
    requires { length file.now % 2 ≡ 0 }
    ensures { IfOk result (λ store. store.fixed ≡ damaged_words form file.now) }
{
    match form {
        RopeForm::Classic => store_of_file(alloc, form, file),
        RopeForm::Parity => {
            let right = right_parity(alloc, file)?;
            store_of_file(alloc, form, right.as_slice())
        }
    }
}

#[tactic(auto, unfolding(agc_store::specs::Cells::start_memory))]
fn store_of_file(alloc: Global, form: RopeForm, file: &[u8]) -> Result<Store, AllocError>
    ensures { IfOk result (λ store. store.fixed ≡ rope_words form file.now) }
{
    match Rope::read_as(alloc, form, file) {
        Ok(rope) => Ok(Store::new(rope)),
        Err(_) => Err(AllocError),
    }
}
