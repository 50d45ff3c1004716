//! Resolves a word to a location, by symbols too.
ghost use Rattle.std.specs.Prelude.{◌≡◌, ◌<◌, ◌≤◌, IfSome, length, position};
ghost use Rattle.agc_symbols.specs.Register.{own_location};
ghost use Rattle.agc_symbols.specs.Lookup.{
  called_in,
  location_by,
  moved,
  number_by,
  place_called,
  place_of_name,
  resolve,
};
ghost use Rattle.agc_listing.specs.Location.{IsWithin};
ghost use Rattle.agc_listing.specs.Number.{is_sign};

use crate::place_name::PlaceName;
use crate::register::Register;
use crate::symbol_table::SymbolTable;
use agc_listing::{Location, Signed, location_named, offset_named};
use agc_store::place::{ERASABLE_CELLS, FIXED_WORDS};

/// An offset of zero words.
const NO_STEP: Signed = Signed {
    minus: false,
    magnitude: 0,
};

/// Resolves a word to a location: as `location_named` reads it or, if it does not and there is a symbol table, as the
/// first symbol with this name, or as a decimal number of words after or before one: `LOOP`, `LOOP+3`, `LOOP-3`; or else
/// as a name of the computer's own, such as `TIME4`. `None` if the word is none of these, or the location is not in
/// memory.
#[tactic(auto, unfolding(crate::specs::Lookup::resolve))]
pub fn resolve(names: &Option<SymbolTable>, word: &[u8]) -> Option<Location>
    ensures place { result ≡ resolve names.now word.now }
    ensures range { IfSome result IsWithin }
{
    match location_named(word) {
        Some(at) => Some(at),
        None => match called_in(names, word) {
            Some(at) => Some(at),
            None => own_location(word),
        },
    }
}

/// Resolves a word by the symbols, if there are any.
fn called_in(names: &Option<SymbolTable>, word: &[u8]) -> Option<Location>
    ensures place { result ≡ called_in names.now word.now }
    ensures range { IfSome result IsWithin }
{
    match names {
        Some(names) => place_called(names, word),
        None => None,
    }
}

/// Returns the cell with this name of the computer's own.
#[tactic(auto, unfolding(crate::specs::Register::own_location))]
fn own_location(word: &[u8]) -> Option<Location>
    ensures place { result ≡ own_location word.now }
    ensures range { IfSome result IsWithin }
{
    let register = Register::from_name(word)?;
    Some(Location::Erasable(register.cell()))
}

/// Resolves a name, or a name followed by a number.
#[tactic(auto, unfolding(crate::specs::Lookup::place_called))]
fn place_called(names: &SymbolTable, word: &[u8]) -> Option<Location>
    ensures place { result ≡ place_called names.now word.now }
    ensures range { IfSome result IsWithin }
{
    let whole = moved(Some(NO_STEP), place_of_name(names.names(), word));
    match (whole, first_sign(word)) {
        (Some(at), _) => Some(at),
        (None, Some(sign)) => {
            let name = place_of_name(names.names(), &word[..sign]);
            moved(offset_named(&word[sign..]), name)
        }
        (None, None) => None,
    }
}

/// Returns the location of the first symbol with this name.
#[tactic(auto, unfolding(crate::specs::Lookup::place_of_name))]
fn place_of_name(names: &[PlaceName], word: &[u8]) -> Option<Location>
    ensures { result ≡ place_of_name names.now word.now }
{
    let named = names.iter().find(|named| named.name().as_bytes() == word)?;
    Some(named.place())
}

fn first_sign(word: &[u8]) -> Option<usize>
    ensures sign { result ≡ position is_sign word.now }
    ensures bound { IfSome result (λ at. at < length word.now) }
{
    word.iter().position(|b| *b == b'+' || *b == b'-')
}

/// Returns the location offset by this many words.
fn moved(by: Option<Signed>, at: Option<Location>) -> Option<Location>
    requires { IfSome by (λ by. by.magnitude < 100000) }
    ensures place { result ≡ moved by at }
    ensures range { IfSome result IsWithin }
{
    location_by(by?, at?)
}

/// Returns the location this many words after or before another one, if it is in memory.
fn location_by(by: Signed, at: Location) -> Option<Location>
    requires { by.magnitude < 100000 }
    ensures place { result ≡ location_by by at }
    ensures range { IfSome result IsWithin }
{
    match at {
        Location::Fixed(place) => match number_by(by, place) {
            Some(place) if place < u64::from(FIXED_WORDS) => Some(Location::Fixed(place as u32)),
            _ => None,
        },
        Location::Erasable(cell) => match number_by(by, cell) {
            Some(cell) if cell < u64::from(ERASABLE_CELLS) => Some(Location::Erasable(cell as u32)),
            _ => None,
        },
    }
}

/// Adds a signed number to a number.
fn number_by(by: Signed, n: u32) -> Option<u64>
    requires { by.magnitude < 100000 }
    ensures { result ≡ number_by by n }
{
    let n = u64::from(n);
    if by.minus {
        n.checked_sub(by.magnitude)
    } else {
        Some(n + by.magnitude)
    }
}
