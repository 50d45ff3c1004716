//! Finds bits that are stuck in part of a rope, and repairs the words of such a column by their parity.
ghost use Rattle.std.specs.Prelude.{◌≡◌, ◌<◌, ◌≤◌, ◌+◌, IfOk, IfSome, length};
ghost use Rattle.agc_store.specs.Places.{fixed_words};
ghost use Rattle.agc_mend.specs.Columns.{
  bit_at,
  column_at,
  column_in,
  column_of,
  column_repairs,
  columns_of,
  explain_most,
  first_same,
  fresh_in,
  fresh_wrong_in,
  has_bit,
  has_column,
  is_fresh,
  is_in_column,
  is_same_in,
  repair_in_column,
  same_bits,
  used_in,
  wrong_in,
};

use crate::parity::{is_bad_parity, word_at};
use crate::repair::{Repair, Sureness, word_repaired};
use agc_store::place::{FIXED_BANK_SIZE, FIXED_WORDS};
use agc_word::Narrow;
use std::alloc::{AllocError, Global};

/// The words of half a bank.
pub const HALF_BANK: usize = 0o1000;

/// The half banks of a rope.
pub const HALF_BANKS: usize = 72;

/// The words of a module: six banks.
pub const MODULE: usize = 6 * FIXED_BANK_SIZE as usize;

/// Returns the bit that is stuck among `count` places from `start` on: at least sixteen words differ from the word before
/// them, at least eight of these have wrong parity, and exactly one of the sixteen bits is the same in all words. 0 is no word.
#[tactic(auto, unfolding(crate::specs::Columns::column_in))]
pub fn column_in(words: &[u16], start: usize, count: usize) -> Option<u32>
    requires { start + count ≤ fixed_words }
    ensures column { result ≡ column_in words.now start count }
    ensures range { IfSome result (λ bit. bit < 16) }
{
    if has_column(words, start, count) {
        first_same(words, start, count)
    } else {
        None
    }
}

/// Returns whether a bit is stuck among these places.
#[tactic(auto, unfolding(crate::specs::Columns::has_column))]
fn has_column(words: &[u16], start: usize, count: usize) -> bool
    requires { start + count ≤ fixed_words }
    ensures { result ≡ has_column words.now start count }
{
    16 <= fresh_in(words, start, count)
        && 8 <= fresh_wrong_in(words, start, count)
        && same_bits(words, start, count) == 1
}

/// Returns the first bit that is the same in all words of these places.
#[tactic(auto, unfolding(crate::specs::Columns::first_same))]
fn first_same(words: &[u16], start: usize, count: usize) -> Option<u32>
    requires { start + count ≤ fixed_words }
    ensures bit { result ≡ first_same words.now start count }
    ensures range { IfSome result (λ bit. bit < 16) }
{
    (0..16u32).find(|bit| is_same_in(words, start, count, *bit))
}

/// Returns how many of these places have words other than the word before them: a word that fills unused places counts once.
#[tactic(auto, unfolding(crate::specs::Columns::fresh_in))]
fn fresh_in(words: &[u16], start: usize, count: usize) -> usize
    requires { start + count ≤ fixed_words }
    ensures { result ≡ fresh_in words.now start count }
{
    (start..start + count)
        .filter(|place| word_at(words, *place) != 0 && is_fresh(words, *place))
        .count()
}

/// Returns how many of these have wrong parity.
#[tactic(auto, unfolding(crate::specs::Columns::fresh_wrong_in))]
fn fresh_wrong_in(words: &[u16], start: usize, count: usize) -> usize
    requires { start + count ≤ fixed_words }
    ensures { result ≡ fresh_wrong_in words.now start count }
{
    (start..start + count)
        .filter(|place| is_bad_parity(word_at(words, *place)) && is_fresh(words, *place))
        .count()
}

/// Returns whether a word is not the same as the word before it.
#[tactic(auto, unfolding(crate::specs::Columns::is_fresh))]
fn is_fresh(words: &[u16], place: usize) -> bool
    ensures { result ≡ is_fresh words.now place }
{
    place == 0 || word_at(words, place - 1) != word_at(words, place)
}

/// Returns how many of these places have words.
#[tactic(auto, unfolding(crate::specs::Columns::used_in))]
pub fn used_in(words: &[u16], start: usize, count: usize) -> usize
    requires { start + count ≤ fixed_words }
    ensures { result ≡ used_in words.now start count }
{
    (start..start + count)
        .filter(|place| word_at(words, *place) != 0)
        .count()
}

/// Returns how many of these places have words with wrong parity.
#[tactic(auto, unfolding(crate::specs::Columns::wrong_in))]
pub fn wrong_in(words: &[u16], start: usize, count: usize) -> usize
    requires { start + count ≤ fixed_words }
    ensures { result ≡ wrong_in words.now start count }
{
    (start..start + count)
        .filter(|place| is_bad_parity(word_at(words, *place)))
        .count()
}

/// Returns how many of the sixteen bits are the same in all words of these places.
#[tactic(auto, unfolding(crate::specs::Columns::same_bits))]
fn same_bits(words: &[u16], start: usize, count: usize) -> usize
    requires { start + count ≤ fixed_words }
    ensures { result ≡ same_bits words.now start count }
{
    (0..16u32)
        .filter(|bit| is_same_in(words, start, count, *bit))
        .count()
}

/// Returns whether a bit is the same in all words of these places.
#[tactic(auto, unfolding(crate::specs::Columns::is_same_in))]
fn is_same_in(words: &[u16], start: usize, count: usize, bit: u32) -> bool
    requires range { start + count ≤ fixed_words }
    requires bit { bit < 16 }
    ensures { result ≡ is_same_in words.now start count bit }
{
    !has_bit(words, start, count, bit, 0) || !has_bit(words, start, count, bit, 1)
}

/// Returns whether a bit has a value in a word of these places.
#[tactic(auto, unfolding(crate::specs::Columns::has_bit))]
fn has_bit(words: &[u16], start: usize, count: usize, bit: u32, value: u16) -> bool
    requires range { start + count ≤ fixed_words }
    requires bit { bit < 16 }
    ensures { result ≡ has_bit words.now start count bit value }
{
    (start..start + count).any(|place| word_at(words, place) != 0
        && bit_at(word_at(words, place), bit) == value)
}

/// Returns a bit of a word: bit 0 is the parity bit.
fn bit_at(word: u16, bit: u32) -> u16
    requires { bit < 16 }
    ensures { result ≡ bit_at word bit }
{
    word >> bit & 1
}

/// Returns the bit that is stuck in each half bank, if one is: in the whole rope, else in its module, else in its bank, else
/// in itself. Fails if out of memory.
#[tactic(auto, unfolding(crate::specs::Columns::columns_of))]
pub fn columns_of(alloc: Global, words: &[u16]) -> Result<Vec<Option<u32>>, AllocError>
    ensures { IfOk result (λ columns. columns.items ≡ columns_of words.now) }
{
    (0..HALF_BANKS)
        .map(|half| column_at(words, half))
        .collect(alloc)
}

/// Returns the bit that is stuck in a half bank, or in a larger part of the rope around it.
#[tactic(auto, unfolding(crate::specs::Columns::column_at))]
fn column_at(words: &[u16], half: usize) -> Option<u32>
    requires { half < 72 }
    ensures { result ≡ column_at words.now half }
{
    let bank = FIXED_BANK_SIZE as usize;
    let whole = column_in(words, 0, FIXED_WORDS as usize);
    if whole.is_some() {
        return whole;
    }
    let module = column_in(words, MODULE * (half / 12), MODULE);
    if module.is_some() {
        return module;
    }
    let in_bank = column_in(words, bank * (half / 2), bank);
    if in_bank.is_some() {
        return in_bank;
    }
    column_in(words, HALF_BANK * half, HALF_BANK)
}

/// Returns the repairs of the words with wrong parity that are in a stuck column: that bit of each is turned. All other words
/// stay. Fails if out of memory.
#[tactic(auto, unfolding(crate::specs::Columns::column_repairs))]
pub fn column_repairs(alloc: Global, words: &[u16]) -> Result<Vec<Repair>, AllocError>
    requires { length words.now ≤ fixed_words }
    ensures { IfOk result (λ repairs. repairs.items ≡ column_repairs words.now) }
{
    let columns = columns_of(alloc, words)?;
    (0..words.len())
        .filter(|place| is_in_column(words, columns.as_slice(), *place))
        .map(|place| repair_in_column(words, columns.as_slice(), place))
        .collect(alloc)
}

/// Returns whether a word has wrong parity and is in a stuck column.
#[tactic(auto, unfolding(crate::specs::Columns::is_in_column))]
fn is_in_column(words: &[u16], columns: &[Option<u32>], place: usize) -> bool
    ensures { result ≡ is_in_column words.now columns.now place }
{
    is_bad_parity(word_at(words, place)) && column_of(columns, place).is_some()
}

/// Returns the bit that is stuck at a place, if one is.
pub fn column_of(columns: &[Option<u32>], place: usize) -> Option<u32>
    ensures column { result ≡ column_of columns.now place }
    ensures range { IfSome result (λ bit. bit < 16) }
{
    match columns.get(place / HALF_BANK).copied() {
        Some(Some(bit)) if bit < 16 => Some(bit),
        _ => None,
    }
}

/// Returns the repair of a word by the bit that is stuck at its place.
#[tactic(auto, unfolding(crate::specs::Columns::repair_in_column))]
fn repair_in_column(words: &[u16], columns: &[Option<u32>], place: usize) -> Repair
    ensures { result ≡ repair_in_column words.now columns.now place }
{
    let word = word_at(words, place);
    Repair {
        place,
        word: match column_of(columns, place) {
            Some(bit) => word_repaired(word, bit),
            None => Narrow::with_bits(word / 2),
        },
        is_legal: false,
        plausibility: 0,
        sureness: Sureness::Stuck,
    }
}

/// Returns whether stuck bits may be suspected: of the words with wrong parity in the whole rope, more than half are in stuck
/// columns. Few words can have a bit that is the same in all of them by chance.
pub fn explain_most(explained: usize, wrong: usize) -> bool
    ensures { result ≡ explain_most explained wrong }
{
    explained > wrong / 2
}
