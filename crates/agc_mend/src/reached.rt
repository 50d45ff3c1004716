//! Decides whether the word after a place can be reached, if a word stands at the place.
ghost use Rattle.std.specs.Prelude.{◌≡◌, ◌<◌, ◌≤◌};
ghost use Rattle.agc_store.specs.Places.{fixed_words};
ghost use Rattle.agc_listing.specs.Order.{FitsPrint};
ghost use Rattle.agc_mend.specs.Reached.{ends_code, is_led_to, is_next_reached, is_operand, leads_to};

use crate::woven::is_woven_at;
use agc_listing::{Location, Operand, operand_in, sure_location};
use agc_order::Basic;
use agc_store::Store;
use agc_store::place::FIXED_WORDS;
use agc_word::Narrow;

/// Returns whether the word after a place, if there is one, can be reached, if this word stands at the place: control goes
/// on to it, or another word leads to it; or it is unused, or perhaps one of a table of jumps.
#[tactic(auto, unfolding(crate::specs::Reached::is_next_reached))]
pub(crate) fn is_next_reached(store: &Store, place: usize, extracode: bool, word: Narrow) -> bool
    requires { place < fixed_words }
    ensures { result ≡ is_next_reached store.now.fixed place extracode word }
{
    let after = place + 1;
    !ends_code(extracode, word)
        || after >= FIXED_WORDS as usize
        || !is_woven_at(store, after)
        || ends_code(false, store.fixed_at(after))
        || is_led_to(store, place, FIXED_WORDS as usize)
}

/// Returns whether control does not go on to the word after this one: TCF, RESUME and TC Q, which is 2.
#[tactic(auto, unfolding(crate::specs::Reached::ends_code))]
fn ends_code(extracode: bool, word: Narrow) -> bool
    ensures { result ≡ ends_code extracode word }
{
    let is_jump = matches!(Basic::named_by(word), Basic::Tcf | Basic::Resume);
    !extracode && (is_jump || word.bits() == 2)
}

/// Returns whether one of the first words, but not the one at a place, leads to the place after it.
#[tactic(auto, unfolding(crate::specs::Reached::is_led_to))]
fn is_led_to(store: &Store, place: usize, count: usize) -> bool
    requires { (place < fixed_words) × (count ≤ fixed_words) }
    ensures { result ≡ is_led_to count store.now.fixed place }
{
    (0..count).any(|here| here != place && leads_to(store, place + 1, here))
}

/// Returns whether the word at a place, read as a basic order, names another place, or is a CCS that may skip to it.
#[tactic(auto, unfolding(crate::specs::Reached::leads_to))]
fn leads_to(store: &Store, place: usize, here: usize) -> bool
    requires { here < fixed_words }
    ensures { result ≡ leads_to store.now.fixed place here }
{
    let word = store.fixed_at(here);
    let order = Basic::named_by(word);
    is_operand(place, here, operand_in(order.row().takes, word))
        || matches!(order, Basic::Ccs) && here < place && place <= here + 4
}

/// Returns whether the operand of the order at a place is another place.
fn is_operand(place: usize, here: usize, operand: Operand) -> bool
    requires { (here < fixed_words) × FitsPrint operand }
    ensures { result ≡ is_operand place here operand }
{
    let Operand::Address(address) = operand else {
        return false;
    };
    matches!(sure_location(here, address), Some(Location::Fixed(other)) if other as usize == place)
}
