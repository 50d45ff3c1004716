//! Prints the source of a rope as the listings write it: with names in the first column, and the other names of orders.
ghost use Rattle.std.specs.Prelude.{◌≡◌, ℕ, ◌<◌, true, None, IfOk, string_bytes};
ghost use Rattle.agc_store.specs.Memory.{fixed_at};
ghost use Rattle.agc_listing.specs.Laws.{AreRopeWords, IsRopeOf};
ghost use Rattle.agc_listing.specs.Weave.{ArePlaces, woven_file};
ghost use Rattle.agc_asm.specs.Laws.{WeavesTo};
ghost use Rattle.agc_store.specs.Places.{fixed_words};

use crate::assemble_source::{is_listing, source_words};
use crate::disassemble::rope_source;
use crate::fault::AssemblyFault;
use agc_encode::{Read, read_next};
use agc_listing::{
    Location, Operand, PlacedWord, file_of, is_in_selected_bank, listed_address, operand_in,
};
use agc_order::{Basic, Extracode, Row, Takes};
use agc_store::place::{FIXED_FIXED, FIXED_WORDS};
use agc_store::{Rope, RopeFault, RopeForm, Store};
use agc_symbols::SymbolTable;
use agc_vocabulary::Alias;
use agc_word::{Narrow, read_octal};
use std::alloc::{AllocError, Global};

/// Prints the source of the rope in a store as the listings write it: a line for each word that is not +0 or that an
/// EXTEND makes an extracode, with the name of its place, if it has one there, and a SETLOC line before each word that
/// does not follow another. A word that would be read as another order is printed in octal, and so is a double order
/// whose upper address wraps round, which listings do not have. The source of a whole rope is assembled and compared
/// with the rope; if it differs, for example because of a name that is there twice, the result is that of
/// `rope_source`. With a bank, 00 to 43 octal, only its words. Fails if out of memory.
pub fn yul_source(
    alloc: Global,
    store: &Store,
    bank: Option<u8>,
    names: &Option<SymbolTable>,
) -> Result<String, AllocError>
    // In both forms the source of a whole rope assembles to a rope with the same words.
    ensures weaves { bank ≡ None → AreRopeWords store.now.fixed
        → IfOk result (λ text. WeavesTo store.now.fixed (string_bytes text)) }
{
    let text = yul_text(alloc, store, bank, names)?;
    if bank.is_some() {
        return Ok(text);
    }
    if is_source_of(alloc, text.as_bytes(), store)? {
        return Ok(text);
    }
    rope_source(alloc, store, bank)
}

/// Returns whether a text assembles to the rope in a store. A text with only places and words does not count.
fn is_source_of(alloc: Global, text: &[u8], store: &Store) -> Result<bool, AllocError>
    ensures { IfOk result (λ same. same ≡ true → AreRopeWords store.now.fixed → WeavesTo store.now.fixed text.now) }
{
    if is_listing(text) {
        return Ok(false);
    }
    let builder = match source_words(alloc, text) {
        Ok(builder) => builder,
        Err(AssemblyFault::Line(_, _) | AssemblyFault::Overlap(_, _)) => return Ok(false),
        Err(AssemblyFault::Memory) => return Err(AllocError),
    };
    let words = builder.words();
    if !makes_rope(alloc, RopeForm::Classic, words, store)? {
        return Ok(false);
    }
    let parity = makes_rope(alloc, RopeForm::Parity, words, store)?;
    Ok(parity)
}

/// Returns whether the file of these words holds the rope in a store.
fn makes_rope(
    alloc: Global,
    form: RopeForm,
    words: &[PlacedWord],
    store: &Store,
) -> Result<bool, AllocError>
    requires { ArePlaces words.now }
    ensures { IfOk result (λ same. same ≡ true → AreRopeWords store.now.fixed
        → IsRopeOf form store.now.fixed (woven_file form words.now)) }
{
    let file = file_of(alloc, form, words)?;
    match Rope::read_as(alloc, form, file.as_slice()) {
        Ok(rope) => Ok(has_same_words(&Store::new(rope), store)),
        Err(RopeFault::Memory) => Err(AllocError),
        Err(_) => Ok(false),
    }
}

/// Returns whether two stores have the same fixed words.
fn has_same_words(first: &Store, second: &Store) -> bool
    ensures { result ≡ true → (place : ℕ) → place < fixed_words
        → fixed_at place first.now.fixed ≡ fixed_at place second.now.fixed }
{
    for place in 0..FIXED_WORDS as usize {
        if first.fixed_at(place) != second.fixed_at(place) {
            return false;
        }
    }
    true
}

/// Prints the source of a rope as the listings write it.
fn yul_text(
    alloc: Global,
    store: &Store,
    bank: Option<u8>,
    names: &Option<SymbolTable>,
) -> Result<String, AllocError> {
    let mut text = String::new(alloc);
    let mut read = Read {
        follows: false,
        wanted: false,
        extracode: false,
    };
    for place in 0..FIXED_WORDS as usize {
        let word = store.fixed_at(place);
        if (word.bits() != 0 || read.wanted) && is_in_selected_bank(bank, place) {
            push_lines(&mut text, names, place, read, word)?;
        }
        read = read_next(read, place, word);
    }
    Ok(text)
}

/// Appends the lines of a word.
fn push_lines(
    text: &mut String,
    names: &Option<SymbolTable>,
    place: usize,
    read: Read,
    word: Narrow,
) -> Result<(), AllocError>
    requires { place < fixed_words }
{
    if !read.follows {
        let number = numbered(place);
        write!(text, "\tSETLOC\t{number:o}\n")?;
    }
    push_label(text, names, place)?;
    text.push_str("\t")?;
    push_order_or_octal(text, place, read, word)?;
    text.push_str("\n")
}

/// Appends a word as an order, or in octal.
fn push_order_or_octal(
    text: &mut String,
    place: usize,
    read: Read,
    word: Narrow,
) -> Result<(), AllocError>
    requires { place < fixed_words }
{
    if read.wanted == read.extracode && !is_wrapped(read.extracode, word) {
        push_order(text, read.extracode, place, word)
    } else {
        write!(text, "OCT\t{word}")
    }
}

/// Returns whether a word is the double order whose upper address wraps round: listings have no such order.
fn is_wrapped(extracode: bool, word: Narrow) -> bool {
    let row = row_of(extracode, word);
    match (row.takes, operand_in(row.takes, word)) {
        (Takes::ErasablePair, Operand::Address(address)) => address == 0o1777,
        (Takes::MemoryPair, Operand::Address(address)) => address == 0o7777,
        _ => false,
    }
}

fn row_of(extracode: bool, word: Narrow) -> Row {
    if extracode {
        Extracode::named_by(word).row()
    } else {
        Basic::named_by(word).row()
    }
}

/// Returns the number of a place, as listings count all memory.
fn numbered(place: usize) -> usize
    requires { place < fixed_words }
{
    let fixed_fixed = usize::from(FIXED_FIXED);
    if fixed_fixed <= place && place < 0o10000 {
        place
    } else {
        place + 0o10000
    }
}

/// Appends the name of a place, if it has one.
fn push_label(
    text: &mut String,
    names: &Option<SymbolTable>,
    place: usize,
) -> Result<(), AllocError>
    requires { place < fixed_words }
{
    let Some(names) = names else {
        return Ok(());
    };
    match names.named_at(Location::Fixed(place as u32)) {
        Some(nearest) if nearest.offset == 0 => text.push_str(nearest.name),
        _ => Ok(()),
    }
}

/// Appends a word as an order.
fn push_order(
    text: &mut String,
    extracode: bool,
    place: usize,
    word: Narrow,
) -> Result<(), AllocError>
    requires { place < fixed_words }
{
    let row = row_of(extracode, word);
    let operand = operand_in(row.takes, word);
    match alias_of(row, operand, place) {
        Some(alias) => text.push_str(alias.name()),
        None => push_row(text, row, operand, place),
    }
}

fn push_row(text: &mut String, row: Row, operand: Operand, place: usize) -> Result<(), AllocError>
    requires { place < fixed_words }
{
    text.push_str(row.mnemonic)?;
    match operand {
        Operand::Nothing => Ok(()),
        Operand::Address(address) => {
            let number = operand_number(address, place);
            write!(text, "\t{number:o}")
        }
        Operand::Channel(channel) => write!(text, "\t{channel:o}"),
    }
}

/// Returns the number of the location that an order at a place addresses, as listings count all memory. In the window of
/// fixed memory it is a place of the order's own bank. An order in 02 or 03 does not say the bank: then bank 00 is taken,
/// whose places have the same address.
fn operand_number(address: u16, place: usize) -> usize
    requires { place < fixed_words }
{
    let address = usize::from(address);
    if !(0o2000..0o4000).contains(&address) {
        return address;
    }
    let bank = match place / 0o2000 {
        2 | 3 => 0,
        bank => bank,
    };
    0o10000 + 0o2000 * bank + address % 0o2000
}

/// Returns the name that an order with its operand has of its own.
fn alias_of(row: Row, operand: Operand, place: usize) -> Option<Alias>
    requires { place < fixed_words }
{
    let Operand::Address(address) = operand else {
        return None;
    };
    for alias in Alias::ALL {
        if alias.order() == row.mnemonic && has_operand(alias, address, place) {
            return Some(alias);
        }
    }
    None
}

/// Returns whether an alias has this address as its operand.
fn has_operand(alias: Alias, address: u16, place: usize) -> bool
    requires { place < fixed_words }
{
    match alias.operand() {
        Some("+1") => is_next(place, address),
        Some(digits) => read_octal(1, digits.as_bytes()) == Some(u64::from(address)),
        None => false,
    }
}

/// Returns whether an address is that of the place after this one.
fn is_next(place: usize, address: u16) -> bool
    requires { place < fixed_words }
{
    place + 1 < FIXED_WORDS as usize
        && listed_address(place + 1) == address
        && (place + 1) % 0o2000 != 0
}
