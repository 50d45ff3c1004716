//! Puts the words of some modules of a rope into their banks.
ghost use Rattle.std.specs.Prelude.{◌≡◌, ◌+◌, ◌*◌, ◌<◌, ◌≤◌, IfOk, IfSome, length};
ghost use Rattle.agc_store.specs.Places.{fixed_bank_size, fixed_words};
ghost use Rattle.agc_mend.specs.Modules.{least_length, word_in_banks, words_in_banks};

use crate::parity::word_at;
use agc_store::place::{FIXED_BANK_SIZE, FIXED_WORDS};
use agc_store::{RopeForm, index_in_file};
use std::alloc::{AllocError, Global};

/// Returns whether a file of this many bytes may be some modules of a rope, whose first bank is not known: it has whole
/// banks, but not all 36.
pub fn may_be_modules(bytes: usize) -> bool {
    bytes % (2 * FIXED_BANK_SIZE as usize) == 0 && bytes < 2 * FIXED_WORDS as usize
}

/// Returns the words of a rope file whose banks from `first` on are these words, and whose other words are 0; `None` if
/// they are too many. Fails if out of memory.
pub fn words_in_banks(
    alloc: Global,
    order: RopeForm,
    first: u8,
    words: &[u16],
) -> Result<Option<Vec<u16>>, AllocError>
    ensures words { IfOk result (λ placed. IfSome placed (λ new. new.items
        ≡ words_in_banks order first words.now)) }
    ensures range { IfOk result (λ placed. IfSome placed (λ new. length new.items ≤ fixed_words)) }
{
    let start = usize::from(first) * FIXED_BANK_SIZE as usize;
    if words.len() > FIXED_WORDS as usize || start > FIXED_WORDS as usize - words.len() {
        return Ok(None);
    }
    let placed = placed_words(alloc, order, first, words)?;
    Ok(Some(placed))
}

#[tactic(auto, unfolding(crate::specs::Modules::words_in_banks))]
fn placed_words(
    alloc: Global,
    order: RopeForm,
    first: u8,
    words: &[u16],
) -> Result<Vec<u16>, AllocError>
    requires { fixed_bank_size * first + length words.now ≤ fixed_words }
    ensures words { IfOk result (λ new. new.items ≡ words_in_banks order first words.now) }
    ensures range { IfOk result (λ new. length new.items ≤ fixed_words) }
{
    let start = FIXED_BANK_SIZE as usize * usize::from(first);
    (0..least_length(order).max(start + words.len()))
        .map(|index| word_in_banks(order, start, words, index))
        .collect(alloc)
}

/// Returns the least length of a file: in the classic order of banks it has the first four of them.
fn least_length(order: RopeForm) -> usize
    ensures length { result ≡ least_length order }
    ensures range { result ≤ fixed_words }
{
    match order {
        RopeForm::Classic => 4 * FIXED_BANK_SIZE as usize,
        RopeForm::Parity => 0,
    }
}

/// Returns the word at an index of that file.
fn word_in_banks(order: RopeForm, start: usize, words: &[u16], index: usize) -> u16
    requires { index < fixed_words }
    ensures { result ≡ word_in_banks order start words.now index }
{
    let place = index_in_file(order, index);
    if place < start {
        0
    } else {
        word_at(words, place - start)
    }
}
