//! Finds the place in a line of the tables, and prints its name.
ghost use Rattle.std.specs.Prelude.{◌≡◌, ◌++◌, ◌<◌, IfSome, OnOk, length, string_bytes, take};
ghost use Rattle.std.specs.Str.{bytes_eq};
ghost use Rattle.agc_timeline.specs.LinePlace.{
  after_space,
  bank_in,
  fixed_bank_in,
  line_place,
  name_after,
  name_at,
  place_in,
  place_with,
  word_before,
};

use agc_listing::{Location, location_at};
use agc_store::Addr;
use agc_store::place::FIXED_WINDOW;
use agc_symbols::{SymbolTable, push_named};
use agc_word::read_octal;
use std::alloc::AllocError;

/// Appends the name of the place in a line, after a space; nothing without names, without a place, or without a name.
pub(crate) fn push_name_after(
    text: &mut String,
    names: &Option<SymbolTable>,
    line: &str,
) -> Result<(), AllocError>
    ensures { OnOk result (string_bytes text.new
        ≡ string_bytes text.old ++ name_after names.now line.now) }
{
    match names {
        Some(names) => push_name_at(text, names, line_place(line.as_bytes())),
        None => Ok(()),
    }
}

/// Appends the name of a place, after a space.
fn push_name_at(
    text: &mut String,
    names: &SymbolTable,
    at: Option<Location>,
) -> Result<(), AllocError>
    ensures { OnOk result (string_bytes text.new ≡ string_bytes text.old ++ name_at names.now at) }
{
    let Some(at) = at else {
        return Ok(());
    };
    let mut name = String::new(*text.allocator());
    push_named(&mut name, names, at)?;
    push_after_space(text, name.as_str())
}

/// Appends a name after a space, if there is one.
fn push_after_space(text: &mut String, name: &str) -> Result<(), AllocError>
    ensures { OnOk result (string_bytes text.new
        ≡ string_bytes text.old ++ after_space name.now) }
{
    if name.is_empty() {
        return Ok(());
    }
    write!(text, " {name}")
}

/// Returns the place in a line of the tables: of a job LOC with the banks in BANKSET, or of a task its address with its
/// banks.
#[tactic(auto, unfolding(crate::specs::LinePlace::line_place))]
pub fn line_place(line: &[u8]) -> Option<Location>
    ensures { result ≡ line_place line.now }
{
    if begins_with(line, "SET") {
        place_with(word_before(0, line), word_before(14, line))
    } else if begins_with(line, "LST2") {
        place_with(word_before(0, line), word_before(6, line))
    } else {
        None
    }
}

/// Returns whether a line begins with a word.
fn begins_with(line: &[u8], word: &str) -> bool
    ensures { result ≡ bytes_eq (take (length word.now) line.now) word.now }
{
    let front = &line[..line.len().min(word.len())];
    front == word.as_bytes()
}

/// Returns the place of an address with these banks.
fn place_with(banks: Option<u64>, address: Option<u64>) -> Option<Location>
    requires banks { IfSome banks (λ banks. banks < 0o100000) }
    requires address { IfSome address (λ address. address < 0o100000) }
    ensures { result ≡ place_with banks address }
{
    place_in(banks?, address?)
}

/// Returns the word that five octal digits of a line write, this many characters before its end.
#[tactic(auto, unfolding(crate::specs::LinePlace::word_before))]
fn word_before(after: usize, line: &[u8]) -> Option<u64>
    requires { after < 100 }
    ensures word { result ≡ word_before after line.now }
    ensures range { IfSome result (λ word. word < 0o100000) }
{
    let first = line.len().saturating_sub(after + 5);
    let last = first.saturating_add(5).min(line.len());
    read_octal(5, &line[first..last])
}

/// Returns the place of an address of twelve bits with the banks of a word in the form of BB.
#[tactic(auto, unfolding(crate::specs::LinePlace::place_in))]
fn place_in(banks: u64, address: u64) -> Option<Location>
    requires { banks < 0o100000 }
    ensures { result ≡ place_in banks address }
{
    if address < 0o10000 {
        let bank = bank_in(banks, address);
        Some(location_at(bank, Addr::wrapped(address as u16)))
    } else {
        None
    }
}

/// Returns the bank in which an address is.
fn bank_in(banks: u64, address: u64) -> u8
    requires { banks < 0o100000 }
    ensures bank { result ≡ bank_in banks address }
    ensures range { result < 0o60 }
{
    if address < u64::from(FIXED_WINDOW) {
        (banks % 8) as u8
    } else {
        fixed_bank_in(banks)
    }
}

/// Returns the fixed bank that a word in the form of BB selects, with the superbank in bit 7.
#[tactic(auto, unfolding(crate::specs::LinePlace::fixed_bank_in))]
fn fixed_bank_in(banks: u64) -> u8
    requires { banks < 0o100000 }
    ensures bank { result ≡ fixed_bank_in banks }
    ensures range { result < 0o60 }
{
    let bank = (banks / 0o2000) as u8;
    if bank >= 0o30 && banks / 0o100 % 2 == 1 {
        bank + 0o10
    } else {
        bank
    }
}
