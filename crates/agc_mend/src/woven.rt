//! Which places and banks of a rope have words.
ghost use Rattle.std.specs.Prelude.{◌≡◌, ◌<◌};
ghost use Rattle.agc_store.specs.Places.{fixed_banks, fixed_words};
ghost use Rattle.agc_mend.specs.Woven.{has_words, is_woven_at};

use agc_store::Store;
use agc_store::place::FIXED_BANK_SIZE;

/// Returns whether a bank has a word that is not +0.
#[tactic(auto, unfolding(crate::specs::Woven::has_words))]
pub fn has_words(store: &Store, bank: usize) -> bool
    requires { bank < fixed_banks }
    ensures { result ≡ has_words store.now.fixed bank }
{
    let size = usize::from(FIXED_BANK_SIZE);
    (0..size).any(|offset| is_woven_at(store, size * bank + offset))
}

/// Returns whether the word at a place, 2000 octal times its bank plus its offset, is not +0.
#[tactic(auto, unfolding(crate::specs::Woven::is_woven_at))]
pub fn is_woven_at(store: &Store, place: usize) -> bool
    requires { place < fixed_words }
    ensures { result ≡ is_woven_at store.now.fixed place }
{
    store.fixed_at(place).bits() != 0
}
