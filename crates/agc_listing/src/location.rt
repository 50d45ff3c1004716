//! Locations in memory: parses them, and converts them to and from addresses and banks.
ghost use Rattle.std.specs.Prelude.{◌≡◌, ◌+◌, ◌*◌, ◌%◌, ◌<◌, ◌≤◌, IfSome};
ghost use Rattle.agc_store.specs.Places.{
  erasable_bank_size,
  erasable_cells,
  erasable_window,
  fixed_bank_size,
  fixed_window,
  fixed_words,
};
ghost use Rattle.agc_store.specs.Memory.{erasable_bank};
ghost use Rattle.agc_listing.specs.Location.{
  IsReadable,
  IsWithin,
  bank_register,
  cell_address,
  cell_alone,
  cell_in_bank,
  cell_named,
  cell_or_place,
  complete_address,
  location_at,
  location_in,
  location_named,
  is_addressable,
  is_fixed_fixed,
  location_of_pseudo_address,
};
ghost use Rattle.agc_word.specs.Numeral.{octal_number};

use crate::line::{first_comma, read_place};
use agc_store::place::{
    ERASABLE_BANK_SIZE, ERASABLE_WINDOW, FIXED_BANK_SIZE, FIXED_FIXED, FIXED_WINDOW, FIXED_WORDS,
    bank_of, offset_of, place_of,
};
use agc_store::{Addr, Store};
use agc_word::read_octal;

/// A location in memory: a word of the rope or a cell.
#[derive(Clone, Copy, Debug, PartialEq, Eq)]
pub enum Location {
    /// A place in the rope: 2000 octal times its bank, plus its offset.
    Fixed(u32),
    /// A cell of erasable memory: 400 octal times its bank, plus its offset.
    Erasable(u32),
}

/// Parses a location: `En,oooo`, an address below 1400, `bb,oooo`, or an address from 4000 on, all octal.
#[tactic(auto, unfolding(crate::specs::Location::location_named))]
pub fn location_named(text: &[u8]) -> Option<Location>
    ensures location { result ≡ location_named text.now }
    ensures range { IfSome result IsWithin }
{
    match text {
        [b'E', rest @ ..] => Some(Location::Erasable(cell_named(rest)?)),
        _ => cell_or_place(text),
    }
}

fn cell_or_place(text: &[u8]) -> Option<Location>
    ensures location { result ≡ cell_or_place (cell_alone (octal_number 4 text.now)) text.now }
    ensures range { IfSome result IsWithin }
{
    match cell_alone(text) {
        Some(cell) => Some(Location::Erasable(cell)),
        None => Some(Location::Fixed(read_place(text)? as u32)),
    }
}

/// Parses the cell that an address without a bank names.
fn cell_alone(text: &[u8]) -> Option<u32>
    ensures cell { result ≡ cell_alone (octal_number 4 text.now) }
    ensures range { IfSome result (λ cell. cell < erasable_window) }
{
    let address = read_octal(4, text)?;
    if address < u64::from(ERASABLE_WINDOW) {
        Some(address as u32)
    } else {
        None
    }
}

/// Parses the cell that a bank and an address name, with a comma between them.
#[tactic(auto, unfolding(crate::specs::Location::cell_named))]
fn cell_named(text: &[u8]) -> Option<u32>
    ensures cell { result ≡ cell_named text.now }
    ensures range { IfSome result (λ cell. cell < erasable_cells) }
{
    let at = first_comma(text)?;
    cell_in_bank(read_octal(1, &text[..at]), read_octal(4, &text[at + 1..]))
}

fn cell_in_bank(bank: Option<u64>, address: Option<u64>) -> Option<u32>
    requires bank { IfSome bank (λ bank. bank < 8) }
    ensures cell { result ≡ cell_in_bank bank address }
    ensures range { IfSome result (λ cell. cell < erasable_cells) }
{
    let (bank, address) = (bank?, address?);
    let size = u64::from(ERASABLE_BANK_SIZE);
    if u64::from(ERASABLE_WINDOW) <= address && address < u64::from(FIXED_WINDOW) {
        Some((size * bank + address % size) as u32)
    } else if address / size == bank {
        Some(address as u32)
    } else {
        None
    }
}

/// Returns the location of the current order: the cell or the word that its bank and its address name.
#[tactic(auto, unfolding(crate::specs::Location::location_at))]
pub fn location_at(bank: u8, address: Addr) -> Location
    ensures { result ≡ location_at bank address }
{
    let address = address.bits();
    match address {
        0..ERASABLE_WINDOW => Location::Erasable(u32::from(address)),
        ERASABLE_WINDOW..FIXED_WINDOW => Location::Erasable(cell_of(bank, address)),
        FIXED_WINDOW..FIXED_FIXED => Location::Fixed(place_of(bank, address % FIXED_BANK_SIZE)),
        _ => Location::Fixed(u32::from(address)),
    }
}

/// Returns the location that an address names in a memory: EB, FB and the superbank select the banks in the two windows.
#[inline(always)]
#[tactic(auto, unfolding(crate::specs::Location::location_in, agc_store::specs::Memory::erasable_place, agc_store::specs::Memory::fixed_place))]
pub fn location_in(store: &Store, address: Addr) -> Location
    ensures location { result ≡ location_in store.now address }
    ensures range { IsReadable result }
{
    let address = address.bits();
    match address {
        0..ERASABLE_WINDOW => Location::Erasable(u32::from(address)),
        ERASABLE_WINDOW..FIXED_WINDOW => {
            Location::Erasable(cell_in_window(store, address - ERASABLE_WINDOW))
        }
        FIXED_WINDOW..FIXED_FIXED => Location::Fixed(place_of(
            store.selected_bank(),
            address - FIXED_WINDOW,
        )),
        _ => Location::Fixed(u32::from(address)),
    }
}

/// Returns the cell at an offset of the bank in EB.
#[inline(always)]
fn cell_in_window(store: &Store, offset: u16) -> u32
    requires { offset < erasable_bank_size }
    ensures cell { result ≡ erasable_bank_size * erasable_bank store.now.erasable + offset }
    ensures range { result < erasable_cells }
{
    u32::from(ERASABLE_BANK_SIZE) * u32::from(store.erasable_bank()) + u32::from(offset)
}

/// Returns the cell that an address in the window names.
fn cell_of(bank: u8, address: u16) -> u32
    ensures { result ≡ erasable_bank_size * bank + address % erasable_bank_size }
{
    u32::from(ERASABLE_BANK_SIZE) * u32::from(bank) + u32::from(address % ERASABLE_BANK_SIZE)
}

/// Returns the address by which an order names a cell: in the window if the cell is in banks 3 to 7.
pub fn cell_address(cell: u32) -> u16
    ensures address { result ≡ cell_address cell }
    ensures range { result < fixed_window }
{
    if cell < u32::from(ERASABLE_WINDOW) {
        cell as u16
    } else {
        ERASABLE_WINDOW + (cell % u32::from(ERASABLE_BANK_SIZE)) as u16
    }
}

/// Returns the bank that FB holds for a place: with the superbank, ten octal less.
fn bank_register(place: u32) -> u16
    requires { place < fixed_words }
    ensures bank { result ≡ bank_register place }
    ensures range { result < 0o40 }
{
    let bank = u16::from(bank_of(place));
    if bank < 0o40 {
        bank
    } else {
        bank % 0o10 + 0o30
    }
}

/// Returns the word that puts a place's bank into BB.
pub fn bank_word(place: u32) -> u16
    requires { place < fixed_words }
    ensures word { result ≡ fixed_bank_size * bank_register place }
    ensures range { result < 0o100000 }
{
    FIXED_BANK_SIZE * bank_register(place)
}

/// Returns the complete address of a place: the bank that FB holds for it, and the offset.
pub fn complete_address(place: u32) -> u16
    requires { place < fixed_words }
    ensures address { result ≡ complete_address place }
    ensures range { result < 0o100000 }
{
    FIXED_BANK_SIZE * bank_register(place) + offset_of(place)
}

/// Returns whether an order at `here` may name a place: one of them is in 4000 to 7777 octal, or both are in the same
/// bank.
pub fn is_addressable(here: u32, place: u32) -> bool
    ensures { result ≡ is_addressable here place }
{
    let size = u32::from(FIXED_BANK_SIZE);
    is_fixed_fixed(place) || is_fixed_fixed(here) || place / size == here / size
}

fn is_fixed_fixed(place: u32) -> bool
    ensures { result ≡ is_fixed_fixed place }
{
    u32::from(FIXED_FIXED) <= place && place < 0o10000
}

/// Returns the location of a number, as listings count all memory: from 0 to 3777 octal the cells, from 4000 to 7777
/// banks 02 and 03, and from 10000 on the banks in their order.
pub fn location_of_pseudo_address(number: u32) -> Option<Location>
    ensures location { result ≡ location_of_pseudo_address number }
    ensures range { IfSome result IsWithin }
{
    if number < u32::from(FIXED_FIXED) {
        Some(Location::Erasable(number))
    } else if number < 0o10000 {
        Some(Location::Fixed(number))
    } else if number - 0o10000 < FIXED_WORDS {
        Some(Location::Fixed(number - 0o10000))
    } else {
        None
    }
}
