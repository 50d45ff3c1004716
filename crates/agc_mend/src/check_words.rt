//! The word that makes the sum of a bank right, at the place of the bank's last word.
ghost use Rattle.std.specs.Prelude.{◌≡◌, ℕ, ◌<◌, ◌+◌, ◌*◌, ◌^◌, List, IfSome, true};
ghost use Rattle.agc_word.specs.Number.{Number};
ghost use Rattle.agc_store.specs.Memory.{fixed_at};
ghost use Rattle.agc_store.specs.Places.{fixed_bank_size, fixed_banks, fixed_words};
ghost use Rattle.agc_mend.specs.BankSum.{sum_of_bank};
ghost use Rattle.agc_mend.specs.CheckWord.{check_word};
ghost use Rattle.agc_mend.specs.Repair.{makes_sum_fit};

use crate::bank_sum::sum_in_bank;
use agc_listing::PlacedWord;
use agc_store::Store;
use agc_store::place::place_of;

/// Returns the word that makes the sum of a bank its number, in place of the bank's last word that is not +0. `None` if
/// all words of the bank are +0.
#[tactic(auto, unfolding(crate::specs::CheckWord::check_word))]
pub fn check_word(store: &Store, bank: u8) -> Option<PlacedWord>
    requires { bank < fixed_banks }
    ensures word { result ≡ check_word store.now.fixed bank }
    ensures range { IfSome result (λ named. named.place < fixed_words) }
{
    let sum = sum_in_bank(store, bank)?;
    Some(PlacedWord {
        place: place_of(sum.bank, sum.last) as usize,
        word: sum.for_number,
    })
}

/// Each of the two words that are said to make the sum of a bank right does so in place of the bank's last word.
pub fn check_words_make_sums_right()
    ensures { (words : List Number) (bank : ℕ) → bank < fixed_banks
        → ((place : ℕ) → (fixed_at place words).magnitude < 2 ^ 14)
        → IfSome (sum_of_bank words bank) (λ sum.
        (makes_sum_fit words (fixed_bank_size * bank + sum.last) sum.for_number ≡ true)
        × (makes_sum_fit words (fixed_bank_size * bank + sum.last) sum.for_complement ≡ true)) }
{}
