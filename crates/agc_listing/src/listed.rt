//! Prints a rope as text: a line for each word.
ghost use Rattle.std.specs.Prelude.{◌≡◌, ◌<◌, ◌≤◌, ◌++◌, ◌&&◌, not, IfOk, OnOk, string_bytes};
ghost use Rattle.agc_word.specs.Number.{pattern_of};
ghost use Rattle.agc_store.specs.Places.{fixed_words};
ghost use Rattle.agc_listing.specs.Place.{IsInPrint, place_text};
ghost use Rattle.agc_listing.specs.List.{
  starts_run,
  is_in_selected_bank,
  line_text,
  listed_address,
  listed_lines,
  listed_place,
  rope_text,
  text_listed,
};

use crate::order::{next_is_extracode, push_order};
use crate::place::{Place, push_place};
use agc_store::Store;
use agc_store::place::{
    FIXED_BANK_SIZE, FIXED_FIXED, FIXED_WINDOW, FIXED_WORDS, bank_of, offset_of,
};
use agc_word::Narrow;
use std::alloc::{AllocError, Global};

/// The start of bank 03, which follows bank 02 in memory.
const AFTER_BANK_02: usize = 0o6000;

/// Prints the rope in a store: a line `bb,oooo wwwww MNEMONIC operand` for each word that is not
/// +0, in the order of the banks, for all banks or for one, 00 to 43 octal. A word after EXTEND, or
/// after INDEX as an extracode, is printed as an extracode. From the text of all banks `weave`
/// builds a rope with the same words. Fails if out of memory.
#[tactic(auto, unfolding(crate::specs::List::rope_text))]
pub fn list(alloc: Global, store: &Store, bank: Option<u8>) -> Result<String, AllocError>
    ensures { IfOk result (λ text. string_bytes text ≡ rope_text bank store.now.fixed) }
{
    let mut text = String::new(alloc);
    push_words(&mut text, store, bank, FIXED_WORDS as usize)?;
    Ok(text)
}

/// Appends the lines of the words at the first `count` places.
fn push_words(
    text: &mut String,
    store: &Store,
    bank: Option<u8>,
    count: usize,
) -> Result<(), AllocError>
    requires { count ≤ fixed_words }
    ensures { OnOk result (string_bytes text.new
        ≡ string_bytes text.old ++ listed_lines count bank store.now.fixed) }
{
    let mut leads = false;
    for place in 0..count {
        let word = store.fixed_at(place);
        let extracode = leads_on(leads, place);
        push_listed(text, bank, place, extracode, word)?;
        leads = next_is_extracode(extracode, word);
    }
    Ok(())
}

/// Returns whether the word at a place is an extracode: the word before it leads to one, and no run
/// starts here.
pub fn leads_on(leads: bool, place: usize) -> bool
    ensures { result ≡ (leads && not (starts_run place)) }
{
    leads && !starts_run(place)
}

/// Appends the line of a word, if it has one.
fn push_listed(
    text: &mut String,
    bank: Option<u8>,
    place: usize,
    extracode: bool,
    word: Narrow,
) -> Result<(), AllocError>
    requires { place < fixed_words }
    ensures { OnOk result (string_bytes text.new
        ≡ string_bytes text.old ++ text_listed bank place extracode word) }
{
    if word.bits() != 0 && is_in_selected_bank(bank, place) {
        push_word(text, place, extracode, word)?;
    }
    Ok(())
}

/// Returns whether a place of the rope, 0 to 107777 octal, starts a bank to which the word before it does not lead.
/// Bank 03 does not count: it follows bank 02 in memory, so an order may lead from one into the other.
#[tactic(auto, unfolding(crate::specs::List::starts_run))]
pub fn starts_run(place: usize) -> bool
    ensures { result ≡ starts_run place }
{
    place % FIXED_BANK_SIZE as usize == 0 && place != AFTER_BANK_02
}

/// Returns whether a place of the rope is in the selected bank; without one, every place is.
pub fn is_in_selected_bank(bank: Option<u8>, place: usize) -> bool
    ensures { result ≡ is_in_selected_bank bank place }
{
    match bank {
        Some(bank) => place / FIXED_BANK_SIZE as usize == usize::from(bank),
        None => true,
    }
}

/// Appends the line of a word.
#[tactic(auto, unfolding(crate::specs::List::line_text))]
fn push_word(
    text: &mut String,
    place: usize,
    extracode: bool,
    word: Narrow,
) -> Result<(), AllocError>
    requires { place < fixed_words }
    ensures { OnOk result (string_bytes text.new
        ≡ string_bytes text.old ++ line_text place extracode word) }
{
    push_place(text, rope_place(place))?;
    write!(text, " {word} ")?;
    push_order(text, extracode, word)?;
    text.push_str("\n")
}

/// Returns a place of the rope as listings name it.
pub fn rope_place(place: usize) -> Place
    requires { place < fixed_words }
    ensures place { result ≡ listed_place place }
    ensures range { IsInPrint result }
{
    Place::Fixed {
        bank: bank_of(place as u32),
        address: listed_address(place),
    }
}

/// Appends a place of the rope as listings name it; nothing if the place is past the rope. Fails if out of memory.
pub fn push_rope_place(text: &mut String, place: usize) -> Result<(), AllocError>
    ensures rope { OnOk result (place < fixed_words
        → string_bytes text.new ≡ string_bytes text.old ++ place_text (listed_place place)) }
    ensures past { OnOk result (fixed_words ≤ place → string_bytes text.new ≡ string_bytes text.old) }
{
    if place < FIXED_WORDS as usize {
        push_place(text, rope_place(place))?;
    }
    Ok(())
}

/// Returns the address under which a listing names a place: 4000 to 7777 octal for banks 02 and 03,
/// 2000 to 3777 for all others.
#[tactic(auto, unfolding(crate::specs::List::listed_address))]
pub fn listed_address(place: usize) -> u16
    requires { place < fixed_words }
    ensures address { result ≡ listed_address place }
    ensures range { result < 0o10000 }
{
    if FIXED_FIXED as usize <= place && place < 0o10000 {
        place as u16
    } else {
        FIXED_WINDOW + offset_of(place as u32)
    }
}
