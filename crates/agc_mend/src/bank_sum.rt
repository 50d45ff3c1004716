//! Adds the words of a bank, as the flight programs check their banks.
ghost use Rattle.std.specs.Prelude.{◌≡◌, ℕ, ◌<◌, ◌≤◌, ◌^◌, IfSome};
ghost use Rattle.agc_word.specs.Number.{Number, value};
ghost use Rattle.agc_store.specs.Places.{fixed_bank_size, fixed_banks};
ghost use Rattle.agc_mend.specs.BankSum.{
  bank_number,
  bank_sum,
  bank_word,
  fit_of,
  last_used,
  sum_of_bank,
  sum_of_first,
  word_missing,
  word_sum,
};

use agc_store::Store;
use agc_store::place::{FIXED_BANK_SIZE, place_of};
use agc_word::Narrow;

/// How the sum of a bank's words fits the bank.
#[derive(Clone, Copy, Debug, PartialEq, Eq)]
pub enum SumFit {
    /// The sum is the bank's number, as the checks of the flight programs want it.
    Number,
    /// The sum is the complement of the bank's number, which they accept too.
    Complement,
    /// The sum is neither.
    Neither,
}

/// The sum of a bank's words, and the last words that would make it fit.
#[derive(Clone, Copy, Debug, PartialEq, Eq)]
pub struct BankSum {
    pub bank: u8,
    /// The ones' complement sum of all words of the bank.
    pub sum: Narrow,
    pub fit: SumFit,
    /// The offset of the last word that is not +0. The words after it add nothing.
    pub last: u16,
    /// The word there that makes the sum the bank's number.
    pub for_number: Narrow,
    /// The word there that makes the sum the complement of the bank's number.
    pub for_complement: Narrow,
}

/// Returns the sum of the words of a bank, 00 to 43 octal; `None` if all of them are +0.
#[tactic(auto, unfolding(crate::specs::BankSum::sum_of_bank, crate::specs::BankSum::sum_at))]
pub fn sum_in_bank(store: &Store, bank: u8) -> Option<BankSum>
    requires { bank < fixed_banks }
    ensures sum { result ≡ sum_of_bank store.now.fixed bank }
    ensures range { IfSome result (λ sum. (sum.bank ≡ bank) × (sum.last < fixed_bank_size)) }
{
    let last = last_used(store, bank, FIXED_BANK_SIZE)?;
    let before = sum_of_first(store, bank, last);
    let sum = sum_of_bank(store, bank);
    Some(BankSum {
        bank,
        sum,
        fit: fit_of(bank, sum),
        last,
        for_number: word_missing(before, Narrow::signed(false, u16::from(bank))),
        for_complement: word_missing(before, Narrow::signed(true, u16::from(bank))),
    })
}

#[tactic(auto, unfolding(crate::specs::BankSum::bank_sum))]
pub(crate) fn sum_of_bank(store: &Store, bank: u8) -> Narrow
    requires { bank < fixed_banks }
    ensures { result ≡ bank_sum store.now.fixed bank }
{
    sum_of_first(store, bank, FIXED_BANK_SIZE)
}

/// Returns the sum of the first words of a bank.
#[tactic(auto, using(crate::proofs::Sums::sum_none, crate::proofs::Sums::sum_more))]
fn sum_of_first(store: &Store, bank: u8, count: u16) -> Narrow
    requires bank { bank < fixed_banks }
    requires count { count ≤ fixed_bank_size }
    ensures { result ≡ sum_of_first count store.now.fixed bank }
{
    let mut sum = Narrow::PLUS_ZERO;
    for offset in 0..count {
        sum = word_sum(sum, store.fixed_at(place_of(bank, offset) as usize));
    }
    sum
}

/// Returns the offset of the last word that is not +0, among the first words of a bank.
#[tactic(auto, using(crate::proofs::Sums::used_none, crate::proofs::Sums::used_more))]
fn last_used(store: &Store, bank: u8, count: u16) -> Option<u16>
    requires bank { bank < fixed_banks }
    requires count { count ≤ fixed_bank_size }
    ensures last { result ≡ last_used count store.now.fixed bank }
    ensures range { IfSome result (λ offset. offset < count) }
{
    let mut last = None;
    for offset in 0..count {
        if store.fixed_at(place_of(bank, offset) as usize).bits() != 0 {
            last = Some(offset);
        }
    }
    last
}

/// Returns the ones' complement sum of two words, with end-around carry.
#[tactic(auto, unfolding(crate::specs::BankSum::word_sum))]
pub fn word_sum(x: Narrow, y: Narrow) -> Narrow
    ensures { result ≡ word_sum x y }
{
    let sum = x.bits() + y.bits();
    let carried = if sum > 0o77777 { sum - 0o77777 } else { sum };
    Narrow::with_bits(carried)
}

pub fn fit_of(bank: u8, sum: Narrow) -> SumFit
    ensures { result ≡ fit_of bank sum }
{
    if sum.magnitude() != u16::from(bank) {
        SumFit::Neither
    } else if sum.is_minus() && bank != 0 {
        SumFit::Complement
    } else {
        SumFit::Number
    }
}

/// Returns the word that, added to a sum, makes it a wanted number.
#[tactic(auto, unfolding(crate::specs::BankSum::word_missing, agc_word::specs::Arithmetic::complement_of))]
fn word_missing(sum: Narrow, wanted: Narrow) -> Narrow
    ensures { result ≡ word_missing sum wanted }
{
    word_sum(wanted, Narrow::signed(!sum.is_minus(), sum.magnitude()))
}

/// The missing word does what it is for: with it the sum stands for the wanted number.
pub fn the_missing_word_makes_the_sum()
    ensures { (sum wanted : Number) → sum.magnitude < 2 ^ 14 → wanted.magnitude < 2 ^ 14
        → value (word_sum sum (word_missing sum wanted)) ≡ value wanted }
{}
