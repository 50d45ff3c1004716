//! Operand words: encoded from places and numbers, and decoded as the interpreter takes them.
//!
//! The places are what the source names; a decoded place has the fifteen bits of FB and offset, in which banks 40 to 43
//! count as 30 to 33.
ghost use Rattle.std.specs.Prelude.{◌≡◌, ◌<◌, ◌≤◌, Some, IfOk};
ghost use Rattle.agc_interpretive.specs.Operand.{cadr_of, first_fixed, half_of, has_index, reached};
ghost use Rattle.agc_interpretive.specs.Words.{
  address_in,
  address_of,
  address_word,
  branch_in,
  branch_of,
  branch_word,
  cadr_in,
  cadr_in_fixed,
  cadr_word,
  cell_in,
  cell_of,
  cell_word,
  fixed_address,
  place_at,
  word_with,
};
ghost use Rattle.agc_interpretive.specs.declared.operand.Place.TheVariants as place;

use crate::fault::Fault;
use crate::operand::{FIRST_FIXED, FIXED_WORDS, Index, OperandKind, Place};

/// Returns the fifteen bits of FB and offset for a word of fixed memory.
pub(crate) fn cadr_of(fixed: u16) -> u16
    ensures { result ≡ cadr_of fixed }
{
    if fixed < 0o100000 {
        fixed
    } else {
        fixed - 0o20000
    }
}

/// Returns the half of fixed memory that a word is in: 1 from bank 20 on.
fn half_of(fixed: u16) -> u16
    ensures { result ≡ half_of fixed }
{
    cadr_of(fixed) / 0o40000
}

/// Returns the number of a cell.
pub(crate) fn cell_of(place: Place) -> Result<u16, Fault>
    ensures cell { result ≡ cell_of place }
    ensures range { IfOk result (λ cell. cell < first_fixed) }
{
    match place {
        Place::Erasable(cell) if cell < FIRST_FIXED => Ok(cell),
        Place::Erasable(_) => Err(Fault::OutOfReach),
        Place::Fixed(_) => Err(Fault::ErasableWanted),
    }
}

/// Encodes an address for code at a place of fixed memory: the address plus 1, complemented for X2. Fourteen bits reach
/// erasable memory and the half of fixed memory that the code is in, without banks 00, 01, 20 and 21 and without the
/// last word of a bank. Decoding gives place and index back.
#[tactic(auto, unfolding(crate::specs::Words::address_word, crate::specs::Words::address_in))]
pub fn address_word(here: u16, place: Place, index: Index) -> Result<u16, Fault>
    ensures word { result ≡ address_word here place index }
    ensures back { IfOk result (λ word. address_in here (has_index index) word ≡ Some (reached place, index)) }
    ensures range { IfOk result (λ word. word < 0o100000) }
{
    let address = address_of(here, place)?;
    Ok(index.applied(address + OperandKind::Address.plus_one()))
}

fn address_of(here: u16, place: Place) -> Result<u16, Fault>
    ensures address { result ≡ address_of here place }
    ensures back { IfOk result (λ address. place_at here address ≡ reached place) }
    ensures range { IfOk result (λ address. address < 0o37777) }
{
    match place {
        Place::Erasable(_) => cell_of(place),
        Place::Fixed(fixed) => fixed_address(here, fixed),
    }
}

fn fixed_address(here: u16, fixed: u16) -> Result<u16, Fault>
    ensures address { result ≡ fixed_address here fixed }
    ensures back { IfOk result (λ address. place_at here address ≡ reached (place.Fixed fixed)) }
    ensures range { IfOk result (λ address. address < 0o37777) }
{
    if fixed >= FIXED_WORDS {
        return Err(Fault::OutOfReach);
    }
    if half_of(here) != half_of(fixed) {
        return Err(Fault::OtherHalf);
    }
    let address = cadr_of(fixed) % 0o40000;
    if address < FIRST_FIXED {
        Err(Fault::UnreachedBank)
    } else if fixed % 0o2000 == 0o1777 {
        Err(Fault::LastWord)
    } else {
        Ok(address)
    }
}

/// Decodes an address for code at a place: `None` for a negative word of an operation without `*`, which pops its
/// operand, and for +0.
#[tactic(auto, unfolding(crate::specs::Words::address_in))]
pub fn address_in(here: u16, is_indexed: bool, word: u16) -> Option<(Place, Index)>
    requires { word < 0o100000 }
    ensures { result ≡ address_in here is_indexed word }
{
    let (raised, index) = Index::taken_off(is_indexed, word)?;
    if raised == 0 {
        return None;
    }
    Some((
        place_at(here, raised - OperandKind::Address.plus_one()),
        index,
    ))
}

fn place_at(here: u16, address: u16) -> Place
    requires { address < 0o40000 }
    ensures { result ≡ place_at here address }
{
    if address < FIRST_FIXED {
        Place::Erasable(address)
    } else {
        Place::Fixed(address + 0o40000 * half_of(here))
    }
}

/// Adds to a word what its kind adds, if the sum fits.
fn word_with(added: u16, field: Result<u16, Fault>) -> Result<u16, Fault>
    requires added { added ≤ 1 }
    requires range { IfOk field (λ field. field < 0o100000) }
    ensures word { result ≡ word_with added field }
    ensures range { IfOk result (λ word. word < 0o100000) }
{
    let word = field? + added;
    if word < 0o100000 {
        Ok(word)
    } else {
        Err(Fault::OutOfReach)
    }
}

/// Encodes the place of a branch: its CADR, from bank 02 on, or a cell that has it. Decoding gives it back.
#[tactic(auto, unfolding(crate::specs::Words::branch_word, crate::specs::Words::branch_in))]
pub fn branch_word(place: Place) -> Result<u16, Fault>
    ensures word { result ≡ branch_word place }
    ensures back { IfOk result (λ word. branch_in word ≡ reached place) }
    ensures range { IfOk result (λ word. word < 0o100000) }
{
    word_with(OperandKind::Branch.plus_one(), branch_of(place))
}

fn branch_of(place: Place) -> Result<u16, Fault>
    ensures address { result ≡ branch_of place }
    ensures range { IfOk result (λ address. address < 0o100000) }
{
    match place {
        Place::Erasable(_) => cell_of(place),
        Place::Fixed(fixed) if fixed >= FIXED_WORDS => Err(Fault::OutOfReach),
        Place::Fixed(fixed) if fixed < FIRST_FIXED => Err(Fault::UnreachedBank),
        Place::Fixed(fixed) => Ok(cadr_of(fixed)),
    }
}

/// Decodes the place of a branch.
#[tactic(auto, unfolding(crate::specs::Words::branch_in))]
pub fn branch_in(word: u16) -> Place
    ensures { result ≡ branch_in word }
{
    let address = word.saturating_sub(OperandKind::Branch.plus_one());
    if address < FIRST_FIXED {
        Place::Erasable(address)
    } else {
        Place::Fixed(address)
    }
}

/// Encodes the CADR of a place in any fixed bank. Decoding gives it back.
#[tactic(auto, unfolding(crate::specs::Words::cadr_word, crate::specs::Words::cadr_in))]
pub fn cadr_word(place: Place) -> Result<u16, Fault>
    ensures word { result ≡ cadr_word place }
    ensures back { IfOk result (λ word. cadr_in word ≡ reached place) }
    ensures range { IfOk result (λ word. word < 0o100000) }
{
    word_with(OperandKind::Cadr.plus_one(), cadr_in_fixed(place))
}

fn cadr_in_fixed(place: Place) -> Result<u16, Fault>
    ensures cadr { result ≡ cadr_in_fixed place }
    ensures range { IfOk result (λ cadr. cadr < 0o100000) }
{
    match place {
        Place::Erasable(_) => Err(Fault::FixedWanted),
        Place::Fixed(fixed) if fixed < FIXED_WORDS => Ok(cadr_of(fixed)),
        Place::Fixed(_) => Err(Fault::OutOfReach),
    }
}

/// Decodes a CADR.
#[tactic(auto, unfolding(crate::specs::Words::cadr_in))]
pub fn cadr_in(word: u16) -> Place
    ensures { result ≡ cadr_in word }
{
    Place::Fixed(word.saturating_sub(OperandKind::Cadr.plus_one()))
}

/// Encodes a cell as it is. Decoding gives it back.
#[tactic(auto, unfolding(crate::specs::Words::cell_word, crate::specs::Words::cell_in))]
pub fn cell_word(place: Place) -> Result<u16, Fault>
    ensures word { result ≡ cell_word place }
    ensures back { IfOk result (λ word. cell_in word ≡ reached place) }
    ensures range { IfOk result (λ word. word < 0o100000) }
{
    word_with(OperandKind::Erasable.plus_one(), cell_of(place))
}

/// Decodes a cell.
#[tactic(auto, unfolding(crate::specs::Words::cell_in))]
pub fn cell_in(word: u16) -> Place
    ensures { result ≡ cell_in word }
{
    Place::Erasable(word.saturating_sub(OperandKind::Erasable.plus_one()))
}
