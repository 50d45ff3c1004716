//! The sums of a rope's banks as flight ropes have them: two words TC SELF and a check word end each bank.
ghost use Rattle.std.specs.Prelude.{◌≡◌, ◌<◌, ◌+◌, ◌++◌, ◌%◌, length, IfOk, IfSome, OnOk, option_map, true};
ghost use Rattle.agc_store.specs.Places.{fixed_banks, fixed_words};
ghost use Rattle.agc_mend.specs.BankSum.{sum_of_bank};
ghost use Rattle.agc_mend.specs.Parity.{damaged_words};
ghost use Rattle.agc_woven.specs.Sums.{
  are_right,
  checked_bank,
  checked_banks,
  filled_bank,
  filled_banks,
  filled_from,
  full_bank,
  full_banks,
  has_line,
  is_full,
  is_right,
  right_sum,
  self_word,
  start_behind,
  sum_start,
  summed_file,
  used_file,
  used_word,
  used_words,
  with_used,
};

use agc_listing::{PlacedWord, listed_address};
use agc_mend::{
    BankSum, SumFit, check_word, damaged_store, file_of_words, file_words, put_word, sum_in_bank,
};
use agc_store::place::{FIXED_BANK_SIZE, FIXED_BANKS, FIXED_WORDS, place_of};
use agc_store::{RopeForm, Store};
use agc_word::Narrow;
use std::alloc::{AllocError, Global};

/// A rope file whose banks end with sums.
#[derive(Drop)]
pub struct SummedRope {
    pub file: Vec<u8>,
    /// The banks with words that have no room for the three words of a sum.
    pub full: Vec<u8>,
}

/// Why a rope has no sums.
#[derive(Clone, Copy, Debug, PartialEq, Eq)]
pub enum SumsFault {
    /// Out of memory.
    Memory,
    /// A bank has another sum after all. The proofs do not rule this out; nothing is known that leads here.
    WrongSum,
}

impl From<AllocError> for SumsFault {
    fn from(_error: AllocError) -> SumsFault {
        SumsFault::Memory
    }
}

/// Puts three words into each bank with room for them: TC SELF twice, and the word that makes the sum of the bank its
/// number. `used` is a rope file that says where: behind its last word in the bank that is not +0. So a bank of `file` may
/// end with words +0 that are used. No file is returned unless each of these sums is right.
pub fn with_sums(
    alloc: Global,
    form: RopeForm,
    file: &[u8],
    used: &[u8],
) -> Result<SummedRope, SumsFault>
    requires file { length file.now % 2 ≡ 0 }
    requires used { length used.now % 2 ≡ 0 }
    ensures file { IfOk result (λ summed. summed.file.items ≡ summed_file form (damaged_words form used.now) file.now) }
    ensures right { IfOk result (λ summed. are_right fixed_banks (damaged_words form used.now) (damaged_words form summed.file.items) ≡ true) }
    ensures full { IfOk result (λ summed. summed.full.items ≡ full_banks fixed_banks (damaged_words form used.now)) }
{
    let store = damaged_store(alloc, form, used)?;
    let summed = summed_file(alloc, form, file, &store)?;
    let after = damaged_store(alloc, form, summed.as_slice())?;
    if !are_right(&store, &after) {
        return Err(SumsFault::WrongSum);
    }
    let full = full_banks(alloc, &store)?;
    Ok(SummedRope { file: summed, full })
}

#[tactic(auto, unfolding(crate::specs::Sums::summed_file))]
fn summed_file(
    alloc: Global,
    form: RopeForm,
    file: &[u8],
    store: &Store,
) -> Result<Vec<u8>, AllocError>
    requires { length file.now % 2 ≡ 0 }
    ensures file { IfOk result (λ summed. summed.items ≡ summed_file form store.now.fixed file.now) }
    ensures even { IfOk result (λ summed. length summed.items % 2 ≡ 0) }
{
    let words = file_words(alloc, file)?;
    let filled = filled_banks(form, words, store)?;
    let filled_file = file_of_words(alloc, filled.as_slice())?;
    let filled_store = damaged_store(alloc, form, filled_file.as_slice())?;
    let summed = checked_banks(form, filled, store, &filled_store)?;
    file_of_words(alloc, summed.as_slice())
}

/// Returns a rope file with +1 at exactly the places that lines of the source fill, and with its other words as they are.
/// `lines` has for each place the number of its line, or 0.
pub fn used_file(
    alloc: Global,
    form: RopeForm,
    file: &[u8],
    lines: &[usize],
) -> Result<Vec<u8>, AllocError>
    requires { length file.now % 2 ≡ 0 }
    ensures file { IfOk result (λ used. used.items ≡ used_file form file.now lines.now) }
    ensures even { IfOk result (λ used. length used.items % 2 ≡ 0) }
{
    let words = file_words(alloc, file)?;
    let used = used_words(form, words, lines)?;
    file_of_words(alloc, used.as_slice())
}

/// Puts +1 at each place that a line fills.
#[tactic(auto, using(crate::proofs::Banks::used_none, crate::proofs::Banks::used_more))]
fn used_words(form: RopeForm, words: Vec<u16>, lines: &[usize]) -> Result<Vec<u16>, AllocError>
    ensures { IfOk result (λ used. used.items ≡ used_words fixed_words form words.items lines.now) }
{
    let mut used = words;
    for place in 0..FIXED_WORDS as usize {
        put_used(&mut used, form, lines, place)?;
    }
    Ok(used)
}

fn put_used(
    words: &mut Vec<u16>,
    form: RopeForm,
    lines: &[usize],
    place: usize,
) -> Result<(), AllocError>
    requires { place < fixed_words }
    ensures { OnOk result (words.new.items ≡ with_used form words.old.items lines.now place) }
{
    if has_line(lines, place) {
        put_word(words, form, &used_word(place))?;
    }
    Ok(())
}

fn has_line(lines: &[usize], place: usize) -> bool
    ensures { result ≡ has_line lines.now place }
{
    match lines.get(place) {
        Some(number) => 0 < *number,
        None => false,
    }
}

fn used_word(place: usize) -> PlacedWord
    ensures { result ≡ used_word place }
{
    PlacedWord {
        place,
        word: Narrow::with_bits(1),
    }
}

/// Puts three words TC SELF behind the last word of each bank with room for them.
#[tactic(auto, using(crate::proofs::Banks::filled_none, crate::proofs::Banks::filled_more))]
fn filled_banks(form: RopeForm, words: Vec<u16>, store: &Store) -> Result<Vec<u16>, AllocError>
    ensures { IfOk result (λ filled. filled.items ≡ filled_banks fixed_banks form words.items store.now.fixed) }
{
    let mut filled = words;
    for bank in 0..FIXED_BANKS {
        fill_bank(&mut filled, form, store, bank)?;
    }
    Ok(filled)
}

fn fill_bank(
    words: &mut Vec<u16>,
    form: RopeForm,
    store: &Store,
    bank: u8,
) -> Result<(), AllocError>
    requires { bank < fixed_banks }
    ensures { OnOk result (words.new.items ≡ filled_bank form words.old.items store.now.fixed bank) }
{
    if let Some(start) = sum_start(store, bank) {
        put_word(words, form, &self_word(start))?;
        put_word(words, form, &self_word(start + 1))?;
        put_word(words, form, &self_word(start + 2))?;
    }
    Ok(())
}

/// Returns the place behind the last word of a bank that is not +0, if three words have room there.
#[tactic(auto, unfolding(crate::specs::Sums::sum_start))]
fn sum_start(store: &Store, bank: u8) -> Option<usize>
    requires { bank < fixed_banks }
    ensures start { result ≡ sum_start store.now.fixed bank }
    ensures range { IfSome result (λ start. start + 2 < fixed_words) }
{
    let sum = sum_in_bank(store, bank)?;
    if sum.last + 3 < FIXED_BANK_SIZE {
        Some(place_of(sum.bank, sum.last) as usize + 1)
    } else {
        None
    }
}

/// Returns TC with its own address.
fn self_word(place: usize) -> PlacedWord
    requires { place < fixed_words }
    ensures { result ≡ self_word place }
{
    PlacedWord {
        place,
        word: Narrow::with_bits(listed_address(place)),
    }
}

/// Puts the check word in place of the third of these words.
#[tactic(auto, using(crate::proofs::Banks::checked_none, crate::proofs::Banks::checked_more))]
fn checked_banks(
    form: RopeForm,
    words: Vec<u16>,
    store: &Store,
    filled: &Store,
) -> Result<Vec<u16>, AllocError>
    ensures { IfOk result (λ checked. checked.items ≡ checked_banks fixed_banks form words.items store.now.fixed filled.now.fixed) }
{
    let mut checked = words;
    for bank in 0..FIXED_BANKS {
        check_bank(&mut checked, form, store, filled, bank)?;
    }
    Ok(checked)
}

fn check_bank(
    words: &mut Vec<u16>,
    form: RopeForm,
    store: &Store,
    filled: &Store,
    bank: u8,
) -> Result<(), AllocError>
    requires { bank < fixed_banks }
    ensures { OnOk result (words.new.items ≡ checked_bank form words.old.items store.now.fixed filled.now.fixed bank) }
{
    match (sum_start(store, bank), check_word(filled, bank)) {
        (Some(_), Some(named)) => put_word(words, form, &named),
        _ => Ok(()),
    }
}

/// Returns whether each bank that got a sum has the right one.
#[tactic(auto, using(crate::proofs::Banks::right_none, crate::proofs::Banks::right_more))]
fn are_right(store: &Store, after: &Store) -> bool
    ensures { result ≡ are_right fixed_banks store.now.fixed after.now.fixed }
{
    let mut right = true;
    for bank in 0..FIXED_BANKS {
        right = right && is_right(store, after, bank);
    }
    right
}

fn is_right(store: &Store, after: &Store, bank: u8) -> bool
    requires { bank < fixed_banks }
    ensures { result ≡ is_right store.now.fixed after.now.fixed bank }
{
    sum_start(store, bank).is_none() || right_sum(sum_in_bank(after, bank))
}

fn right_sum(sum: Option<BankSum>) -> bool
    ensures { result ≡ right_sum sum }
{
    match sum {
        Some(sum) => !matches!(sum.fit, SumFit::Neither),
        None => false,
    }
}

/// Returns the banks with words that have no room for a sum.
#[tactic(auto, using(crate::proofs::Banks::full_none, crate::proofs::Banks::full_more))]
fn full_banks(alloc: Global, store: &Store) -> Result<Vec<u8>, AllocError>
    ensures { IfOk result (λ full. full.items ≡ full_banks fixed_banks store.now.fixed) }
{
    let mut full = Vec::new(alloc);
    for bank in 0..FIXED_BANKS {
        push_full(&mut full, store, bank)?;
    }
    Ok(full)
}

/// Appends a bank if it is full.
fn push_full(full: &mut Vec<u8>, store: &Store, bank: u8) -> Result<(), AllocError>
    requires { bank < fixed_banks }
    ensures { OnOk result (full.new.items ≡ full.old.items ++ full_bank (is_full store.now.fixed bank) bank) }
{
    if is_full(store, bank) {
        full.push(bank)?;
    }
    Ok(())
}

fn is_full(store: &Store, bank: u8) -> bool
    requires { bank < fixed_banks }
    ensures { result ≡ is_full store.now.fixed bank }
{
    sum_in_bank(store, bank).is_some() && sum_start(store, bank).is_none()
}
