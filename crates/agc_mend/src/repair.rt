//! Finds the single-bit repairs of words with wrong parity, the most plausible ones first, and says how sure they are.
ghost use Rattle.std.specs.Prelude.{◌≡◌, ◌<◌, ◌≤◌, ◌+◌, ◌*◌, ◌/◌, ◌==◌, IfOk, filter};
ghost use Rattle.agc_store.specs.Places.{fixed_bank_size, fixed_banks, fixed_words};
ghost use Rattle.agc_mend.specs.Legal.{is_legal};
ghost use Rattle.agc_mend.specs.Reached.{is_next_reached};
ghost use Rattle.agc_mend.specs.Repair.{
  are_sums_usual,
  fits,
  fitting_repairs,
  has_other_in_bank,
  is_next_legal,
  is_other_right,
  is_other_used,
  is_shown_by_sum,
  makes_sum_fit,
  most_plausible_first,
  of_plausibility,
  others_right,
  others_used,
  plausibility_of,
  points,
  repairs_of,
  stands_elsewhere,
  sum_with,
  sureness_of,
  word_repaired,
};

use crate::bank_sum::{SumFit, fit_of, sum_of_bank, word_sum};
use crate::legal::{is_extracode_at, is_legal};
use crate::parity::BadWord;
use crate::reached::is_next_reached;
use crate::woven::has_words;
use agc_listing::{leads_on, next_is_extracode};
use agc_store::Store;
use agc_store::place::{FIXED_BANK_SIZE, FIXED_BANKS, FIXED_WORDS, bank_of, offset_of, place_of};
use agc_word::Narrow;
use std::alloc::{AllocError, Global};

/// How sure a repair is.
#[derive(Clone, Copy, Debug, PartialEq, Eq)]
pub enum Sureness {
    /// It is right if no other word of its bank is wrong. It is the only one of the word's sixteen repairs with which the
    /// sum of the bank is right, no other word of the bank has wrong parity, and at least half of the other used banks
    /// have right sums.
    Sure,
    /// With it the sum of the bank is right, which may be an accident.
    Fits,
    /// Its bit is the same in all words with wrong parity, which are many: it is stuck.
    Stuck,
    /// It is legal at its place, and the same word is at another place too.
    Likely,
    /// It is legal at its place.
    Possible,
    /// None of these.
    Unlikely,
}

/// A repair of a bad word by one of its sixteen bits.
#[derive(Clone, Copy, Debug, PartialEq, Eq)]
pub struct Repair {
    pub place: usize,
    pub word: Narrow,
    /// Whether the word is legal at its place as an order.
    pub is_legal: bool,
    /// How plausible the word is at its place. The sum of its bank fits: 8. It is legal there: 4. It is at another
    /// place too: 2. The word after it is legal and can be reached: 1.
    pub plausibility: u8,
    pub sureness: Sureness,
}

/// Returns the sixteen single-bit repairs of a bad word, the most plausible ones first. The store holds the rope that is
/// read with its parity bits made right, and `wrong` is all its words with wrong parity. If the places of the file's words
/// are not known, no repair is sure. Fails if out of memory.
pub fn repairs(
    alloc: Global,
    store: &Store,
    is_placed: bool,
    wrong: &[BadWord],
    bad: BadWord,
) -> Result<Vec<Repair>, AllocError>
    requires { bad.place < fixed_words }
    ensures { IfOk result (λ repairs. repairs.items
        ≡ most_plausible_first 16 (repairs_of store.now.fixed is_placed wrong.now bad)) }
{
    let sixteen = repairs_of(alloc, store, is_placed, wrong, bad)?;
    most_plausible_first(alloc, sixteen.as_slice(), 16)
}

#[tactic(auto, using(crate::proofs::Repaired::ranks_none, crate::proofs::Repaired::ranks_more))]
fn most_plausible_first(
    alloc: Global,
    repairs: &[Repair],
    count: u8,
) -> Result<Vec<Repair>, AllocError>
    requires { count ≤ 16 }
    ensures { IfOk result (λ sorted. sorted.items ≡ most_plausible_first count repairs.now) }
{
    let mut sorted = Vec::new(alloc);
    for below in 0..count {
        let equal = of_plausibility(alloc, repairs, below)?;
        sorted.extend_from_slice(equal.as_slice())?;
    }
    Ok(sorted)
}

fn of_plausibility(alloc: Global, repairs: &[Repair], below: u8) -> Result<Vec<Repair>, AllocError>
    requires { below < 16 }
    ensures { IfOk result (λ equal. equal.items ≡ of_plausibility repairs.now below) }
{
    repairs
        .iter()
        .filter(|repair| u16::from(repair.plausibility) + u16::from(below) == 15)
        .copied()
        .collect(alloc)
}

/// Returns the sixteen repairs of a bad word.
#[tactic(auto, unfolding(crate::specs::Repair::repairs_of, crate::specs::Repair::repair_at))]
fn repairs_of(
    alloc: Global,
    store: &Store,
    is_placed: bool,
    wrong: &[BadWord],
    bad: BadWord,
) -> Result<Vec<Repair>, AllocError>
    requires { bad.place < fixed_words }
    ensures { IfOk result (λ repairs. repairs.items
        ≡ repairs_of store.now.fixed is_placed wrong.now bad) }
{
    let extracode = is_extracode_at(store, bad.place);
    let is_shown = is_shown_by_sum(store, wrong, bad);
    let is_shown = is_placed && is_shown;
    (0..16u32)
        .map(|bit| {
            let word = word_repaired(bad.word, bit);
            let plausibility = plausibility_of(store, bad.place, extracode, word);
            Repair {
                place: bad.place,
                word,
                is_legal: is_legal(store, bad.place, extracode, word),
                plausibility,
                sureness: sureness_of(is_shown, plausibility),
            }
        })
        .collect(alloc)
}

/// Returns how sure a repair is.
#[tactic(auto, unfolding(crate::specs::Repair::sureness_of))]
fn sureness_of(is_shown: bool, plausibility: u8) -> Sureness
    ensures { result ≡ sureness_of is_shown plausibility }
{
    if plausibility >= 8 {
        if is_shown {
            Sureness::Sure
        } else {
            Sureness::Fits
        }
    } else if plausibility >= 6 {
        Sureness::Likely
    } else if plausibility >= 4 {
        Sureness::Possible
    } else {
        Sureness::Unlikely
    }
}

/// Returns whether the sum of a bank shows the right repair of a bad word, if no other word of the bank is wrong.
#[tactic(auto, unfolding(crate::specs::Repair::is_shown_by_sum))]
fn is_shown_by_sum(store: &Store, wrong: &[BadWord], bad: BadWord) -> bool
    requires { bad.place < fixed_words }
    ensures { result ≡ is_shown_by_sum store.now.fixed wrong.now bad }
{
    fitting_repairs(store, bad) == 1
        && !has_other_in_bank(wrong, bad)
        && are_sums_usual(store, bad.place / FIXED_BANK_SIZE as usize)
}

/// Returns how many of a word's sixteen repairs make the sum of its bank right.
#[tactic(auto, unfolding(crate::specs::Repair::fitting_repairs))]
fn fitting_repairs(store: &Store, bad: BadWord) -> usize
    requires { bad.place < fixed_words }
    ensures { result ≡ fitting_repairs store.now.fixed bad }
{
    (0..16u32)
        .filter(|bit| makes_sum_fit(store, bad.place, word_repaired(bad.word, *bit)))
        .count()
}

/// Returns whether one of these words is another word of the same bank.
#[tactic(auto, unfolding(crate::specs::Repair::has_other_in_bank))]
fn has_other_in_bank(wrong: &[BadWord], bad: BadWord) -> bool
    ensures { result ≡ has_other_in_bank wrong.now bad }
{
    let size = FIXED_BANK_SIZE as usize;
    wrong.iter().any(|other| other.place / size == bad.place / size && other.place != bad.place)
}

/// Returns whether at least half of the other used banks have right sums, and one of them at least.
#[tactic(auto, unfolding(crate::specs::Repair::are_sums_usual))]
fn are_sums_usual(store: &Store, bank: usize) -> bool
    ensures { result ≡ are_sums_usual store.now.fixed bank }
{
    let (used, right) = (others_used(store, bank), others_right(store, bank));
    0 < right && used <= 2 * right
}

#[tactic(auto, unfolding(crate::specs::Repair::others_used))]
fn others_used(store: &Store, bank: usize) -> usize
    ensures { result ≡ others_used store.now.fixed bank }
{
    (0..usize::from(FIXED_BANKS))
        .filter(|other| is_other_used(store, bank, *other))
        .count()
}

#[tactic(auto, unfolding(crate::specs::Repair::others_right))]
fn others_right(store: &Store, bank: usize) -> usize
    ensures count { result ≡ others_right store.now.fixed bank }
    ensures range { result ≤ fixed_banks }
{
    (0..usize::from(FIXED_BANKS))
        .filter(|other| is_other_right(store, bank, *other))
        .count()
}

/// Returns whether a bank is another one, and has a word that is not +0.
#[tactic(auto, unfolding(crate::specs::Repair::is_other_used))]
fn is_other_used(store: &Store, bank: usize, other: usize) -> bool
    requires { other < fixed_banks }
    ensures { result ≡ is_other_used store.now.fixed bank other }
{
    other != bank && has_words(store, other)
}

/// Returns whether a bank is another one, has a word that is not +0, and its sum is right.
#[tactic(auto, unfolding(crate::specs::Repair::is_other_right))]
fn is_other_right(store: &Store, bank: usize, other: usize) -> bool
    requires { other < fixed_banks }
    ensures { result ≡ is_other_right store.now.fixed bank other }
{
    is_other_used(store, bank, other) && fits(fit_of(other as u8, sum_of_bank(store, other as u8)))
}

/// Returns the fifteen bits of a word of which one of its sixteen bits is flipped.
pub fn word_repaired(word: u16, bit: u32) -> Narrow
    requires { bit < 16 }
    ensures { result ≡ word_repaired word bit }
{
    Narrow::with_bits((word ^ 1 << bit) / 2)
}

/// Returns how plausible a word is at a place, from 0 to 15.
#[tactic(auto, unfolding(crate::specs::Repair::plausibility_of))]
fn plausibility_of(store: &Store, place: usize, extracode: bool, word: Narrow) -> u8
    requires { place < fixed_words }
    ensures { result ≡ plausibility_of store.now.fixed place extracode word }
{
    points(8, makes_sum_fit(store, place, word))
        + points(4, is_legal(store, place, extracode, word))
        + points(
            2,
            stands_elsewhere(store, place, word, FIXED_WORDS as usize),
        )
        + points(
            1,
            is_next_legal(store, place, extracode, word)
                && is_next_reached(store, place, extracode, word),
        )
}

fn points(count: u8, is_given: bool) -> u8
    ensures points { result ≡ points count is_given }
    ensures range { result ≤ count }
{
    if is_given { count } else { 0 }
}

/// Returns whether the sum of the bank fits with this word at a place.
#[tactic(auto, unfolding(crate::specs::Repair::makes_sum_fit))]
pub(crate) fn makes_sum_fit(store: &Store, place: usize, word: Narrow) -> bool
    requires { place < fixed_words }
    ensures { result ≡ makes_sum_fit store.now.fixed place word }
{
    let bank = bank_of(place as u32);
    let sum = sum_with(store, bank, offset_of(place as u32), word, FIXED_BANK_SIZE);
    fits(fit_of(bank, sum))
}

fn fits(fit: SumFit) -> bool
    ensures { result ≡ fits fit }
{
    !matches!(fit, SumFit::Neither)
}

/// Returns the sum of the first words of a bank, with this word at an offset.
#[tactic(auto, using(crate::proofs::Repaired::sum_none, crate::proofs::Repaired::sum_more))]
fn sum_with(store: &Store, bank: u8, offset: u16, word: Narrow, count: u16) -> Narrow
    requires bank { bank < fixed_banks }
    requires count { count ≤ fixed_bank_size }
    ensures { result ≡ sum_with count store.now.fixed bank offset word }
{
    let mut sum = Narrow::PLUS_ZERO;
    for at in 0..count {
        let next = if at == offset {
            word
        } else {
            store.fixed_at(place_of(bank, at) as usize)
        };
        sum = word_sum(sum, next);
    }
    sum
}

/// Returns whether the same word is at another place, among the first ones.
#[tactic(auto, unfolding(crate::specs::Repair::stands_elsewhere))]
fn stands_elsewhere(store: &Store, place: usize, word: Narrow, count: usize) -> bool
    requires { count ≤ fixed_words }
    ensures { result ≡ stands_elsewhere count store.now.fixed place word }
{
    (0..count).any(|at| at != place && store.fixed_at(at).bits() == word.bits())
}

/// Returns whether the word after a place, if there is one, is legal after this word.
#[tactic(auto, unfolding(crate::specs::Repair::is_next_legal))]
fn is_next_legal(store: &Store, place: usize, extracode: bool, word: Narrow) -> bool
    requires { place < fixed_words }
    ensures { result ≡ is_next_legal store.now.fixed place extracode word }
{
    let after = place + 1;
    let next = leads_on(next_is_extracode(extracode, word), after);
    after < FIXED_WORDS as usize && is_legal(store, after, next, store.fixed_at(after))
}
