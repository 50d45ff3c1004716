//! Decides whether a word can be meant as an order at a place.
ghost use Rattle.std.specs.Prelude.{◌≡◌, ◌<◌};
ghost use Rattle.agc_store.specs.Places.{fixed_words};
ghost use Rattle.agc_listing.specs.List.{is_extracode_at};
ghost use Rattle.agc_listing.specs.Order.{FitsPrint};
ghost use Rattle.agc_mend.specs.Legal.{can_have, is_legal, names_word};

use crate::woven::is_woven_at;
use agc_listing::{Location, Operand, leads_on, next_is_extracode, operand_in, sure_location};
use agc_order::{Basic, Extracode};
use agc_store::Store;
use agc_word::Narrow;

/// Returns whether a word is legal at a place, as a basic order or as an extracode: it is not EDRUPT, its channel
/// exists, and the place in fixed memory that it names has a word that is not +0.
#[tactic(auto, unfolding(crate::specs::Legal::is_legal))]
pub fn is_legal(store: &Store, here: usize, extracode: bool, word: Narrow) -> bool
    requires { here < fixed_words }
    ensures { result ≡ is_legal store.now.fixed here extracode word }
{
    if extracode {
        let order = Extracode::named_by(word);
        !matches!(order, Extracode::Edrupt)
            && can_have(store, here, operand_in(order.row().takes, word))
    } else {
        can_have(
            store,
            here,
            operand_in(Basic::named_by(word).row().takes, word),
        )
    }
}

/// Returns whether an order at a place can have an operand.
fn can_have(store: &Store, here: usize, operand: Operand) -> bool
    requires here { here < fixed_words }
    requires operand { FitsPrint operand }
    ensures { result ≡ can_have store.now.fixed here operand }
{
    match operand {
        Operand::Nothing => true,
        Operand::Address(address) => names_word(store, here, address),
        Operand::Channel(channel) => 0o01 <= channel && channel <= 0o35,
    }
}

/// Returns whether an address names a word, for an order at a place. A cell always counts, and so does an address that
/// an unknown bank decides.
#[tactic(auto, unfolding(crate::specs::Legal::names_word))]
fn names_word(store: &Store, here: usize, address: u16) -> bool
    requires here { here < fixed_words }
    requires address { address < 0o10000 }
    ensures { result ≡ names_word store.now.fixed here address }
{
    match sure_location(here, address) {
        Some(Location::Fixed(place)) => is_woven_at(store, place as usize),
        _ => true,
    }
}

/// Returns whether the word at a place is an extracode: the words before it lead to one.
#[tactic(auto, using(agc_listing::proofs::RopeLines::extracode_first, agc_listing::proofs::RopeLines::extracode_next))]
pub fn is_extracode_at(store: &Store, place: usize) -> bool
    requires { place < fixed_words }
    ensures { result ≡ is_extracode_at store.now.fixed place }
{
    let mut extracode = false;
    for at in 0..place {
        let leads = next_is_extracode(extracode, store.fixed_at(at));
        extracode = leads_on(leads, at + 1);
    }
    extracode
}
