//! Prints the lines of a rope's source: one for each word.
ghost use Rattle.std.specs.Prelude.{◌≡◌, ◌<◌, ◌≤◌, ◌+◌, ◌++◌, ◌%◌, ◌==◌, ◌&&◌, not, OnOk, string_bytes};
ghost use Rattle.agc_word.specs.Number.{pattern_of};
ghost use Rattle.agc_store.specs.Places.{fixed_bank_size, fixed_words};
ghost use Rattle.agc_listing.specs.List.{starts_run, is_in_selected_bank};
ghost use Rattle.agc_listing.specs.Order.{next_is_extracode};
ghost use Rattle.agc_encode.specs.Disassemble.{
  line_of,
  line_to,
  placed_word_lines,
  resolve_range,
  rope_source,
  shows_order,
  text_at_place,
  order_or_digits,
};

use agc_listing::{
    Place, is_in_selected_bank, listed_address, next_is_extracode, push_order, push_place,
    starts_run,
};
use agc_store::Store;
use agc_store::place::{FIXED_BANK_SIZE, FIXED_WORDS, bank_of};
use agc_word::Narrow;
use std::alloc::AllocError;

/// How the assembler reads the line of a place, and how `list` shows the place.
#[derive(Clone, Copy)]
pub struct Read {
    /// The place right before it in its bank holds a word.
    pub follows: bool,
    /// The assembler reads the line as an extracode.
    pub wanted: bool,
    /// `list` shows an extracode.
    pub extracode: bool,
}

/// Appends the source of the rope in a store: for each word that is not +0, in the order of the banks, a line with the
/// order that `list` shows, and a SETLOC line before each word that does not follow another. If the assembler would
/// read the order as another one, the line has the word's digits instead; that happens when bank 02 ends in EXTEND.
/// With a bank, 00 to 43 octal, only its words. Fails if out of memory.
#[tactic(auto, unfolding(crate::specs::Disassemble::rope_source))]
pub fn push_source_lines(
    text: &mut String,
    store: &Store,
    bank: Option<u8>,
) -> Result<(), AllocError>
    ensures { OnOk result (string_bytes text.new
        ≡ string_bytes text.old ++ rope_source bank store.now.fixed) }
{
    push_places(text, store, bank, FIXED_WORDS as usize)
}

/// Appends the lines of the words at the first `count` places.
fn push_places(
    text: &mut String,
    store: &Store,
    bank: Option<u8>,
    count: usize,
) -> Result<(), AllocError>
    requires { count ≤ fixed_words }
    ensures { OnOk result (string_bytes text.new
        ≡ string_bytes text.old ++ resolve_range count bank store.now.fixed) }
{
    let mut read = Read {
        follows: false,
        wanted: false,
        extracode: false,
    };
    for place in 0..count {
        let word = store.fixed_at(place);
        push_text_at_place(text, bank, place, read, word)?;
        read = read_next(read, place, word);
    }
    Ok(())
}

/// Returns how the line of the next place is read.
pub fn read_next(read: Read, place: usize, word: Narrow) -> Read
    requires { place < fixed_words }
    ensures follows { result.follows
        ≡ (not ((place + 1) % fixed_bank_size == 0) && not (pattern_of 15 word == 0)) }
    ensures wanted { result.wanted
        ≡ (shows_order read.wanted read.extracode && next_is_extracode read.wanted word
        && not ((place + 1) % fixed_bank_size == 0)) }
    ensures extracode { result.extracode
        ≡ (next_is_extracode read.extracode word && not (starts_run (place + 1))) }
{
    let next = place + 1;
    let same_bank = next % FIXED_BANK_SIZE as usize != 0;
    Read {
        follows: same_bank && word.bits() != 0,
        wanted: read.wanted == read.extracode && next_is_extracode(read.wanted, word) && same_bank,
        extracode: next_is_extracode(read.extracode, word) && !starts_run(next),
    }
}

/// Appends the lines of a word, if it has any.
fn push_text_at_place(
    text: &mut String,
    bank: Option<u8>,
    place: usize,
    read: Read,
    word: Narrow,
) -> Result<(), AllocError>
    requires { place < fixed_words }
    ensures { OnOk result (string_bytes text.new ≡ string_bytes text.old
        ++ text_at_place bank place read.follows read.wanted read.extracode word) }
{
    if word.bits() != 0 && is_in_selected_bank(bank, place) {
        push_lines(text, place, read, word)?;
    }
    Ok(())
}

/// Appends the lines of a word.
#[tactic(auto, unfolding(crate::specs::Disassemble::placed_word_lines))]
fn push_lines(text: &mut String, place: usize, read: Read, word: Narrow) -> Result<(), AllocError>
    requires { place < fixed_words }
    ensures { OnOk result (string_bytes text.new ≡ string_bytes text.old
        ++ placed_word_lines place read.follows read.wanted read.extracode word) }
{
    if !read.follows {
        push_line_to(text, place)?;
    }
    text.push_str("        ")?;
    push_order_or_digits(text, read, word)?;
    text.push_str("\n")
}

/// Appends the SETLOC line of a place.
fn push_line_to(text: &mut String, place: usize) -> Result<(), AllocError>
    requires { place < fixed_words }
    ensures { OnOk result (string_bytes text.new ≡ string_bytes text.old ++ line_to place) }
{
    text.push_str("        SETLOC ")?;
    let listed = Place::Fixed {
        bank: bank_of(place as u32),
        address: listed_address(place),
    };
    push_place(text, listed)?;
    text.push_str("\n")?;
    Ok(())
}

/// Appends the order of a word, or its digits.
fn push_order_or_digits(text: &mut String, read: Read, word: Narrow) -> Result<(), AllocError>
    ensures { OnOk result (string_bytes text.new
        ≡ string_bytes text.old ++ order_or_digits read.wanted read.extracode word) }
{
    if read.wanted == read.extracode {
        push_order(text, read.extracode, word)
    } else {
        write!(text, "OCT {word}")
    }
}
