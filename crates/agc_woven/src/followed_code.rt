//! Finds the interpretive code of a rope: what stands behind each order TC to the interpreter, up to EXIT.
ghost use Rattle.std.specs.Prelude.{◌≡◌};
ghost use Rattle.agc_woven.specs.Follow.{is_call, next_call};

use crate::interpretive_code::Reader;
use agc_listing::push_rope_place;
use agc_store::Store;
use agc_store::place::{FIXED_BANK_SIZE, FIXED_WORDS};
use agc_symbols::SymbolTable;
use std::alloc::{AllocError, Global};

/// The place behind bank 03, in which the words of bank 02 continue.
const BEHIND_BANK_THREE: usize = 0o10000;

/// Returns the lines of the code behind each order TC to a place of bank 02 or 03, with an empty line between two of these
/// spans; nothing if no word is this order. A span ends with EXIT and its operands, at the end of its bank, or at a word
/// that is no interpretive word. The search goes on behind it.
pub fn followed_lines(
    alloc: Global,
    store: &Store,
    names: &Option<SymbolTable>,
    interpreter: u16,
) -> Result<String, AllocError> {
    let mut text = String::new(alloc);
    let mut from = 0;
    for _ in 0..FIXED_WORDS {
        let Some(call) = next_call(store, interpreter, from) else {
            break;
        };
        if !text.is_empty() {
            text.push_str("\n")?;
        }
        from = push_span(&mut text, store, names, call)?;
    }
    Ok(text)
}

/// Returns the first place from one on whose word is TC to an address: the address itself, since the code of TC is 0.
#[tactic(auto, unfolding(crate::specs::Follow::next_call))]
fn next_call(store: &Store, address: u16, from: usize) -> Option<usize>
    ensures { result ≡ next_call store.now.fixed address from }
{
    (from..FIXED_WORDS as usize).find(|place| is_call(store, address, *place))
}

fn is_call(store: &Store, address: u16, place: usize) -> bool
    ensures { result ≡ is_call store.now.fixed address place }
{
    place < FIXED_WORDS as usize && store.fixed_at(place).bits() == address
}

/// Appends the code behind an order at a place. Returns the place from which the search goes on.
fn push_span(
    text: &mut String,
    store: &Store,
    names: &Option<SymbolTable>,
    call: usize,
) -> Result<usize, AllocError> {
    let mut reader = Reader::new(store, names);
    let end = end_of_bank(call);
    for place in call.saturating_add(1)..end {
        if reader.has_ended(place) {
            return Ok(place);
        }
        reader.push_word(text, place)?;
        if reader.is_unread() {
            text.push_str(": the code ends before it\n")?;
            return Ok(place);
        }
        text.push_str("\n")?;
    }
    if !reader.has_exit() {
        text.push_str("# the bank ends at ")?;
        push_rope_place(text, end.saturating_sub(1))?;
        text.push_str(", without EXIT\n")?;
    }
    Ok(end)
}

/// Returns the place behind the last word of a place's bank. Words run from bank 02 into 03.
fn end_of_bank(place: usize) -> usize {
    let size = usize::from(FIXED_BANK_SIZE);
    let end = (place / size).saturating_add(1).saturating_mul(size);
    if end == BEHIND_BANK_THREE - size {
        BEHIND_BANK_THREE
    } else {
        end
    }
}
