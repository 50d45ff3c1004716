//! Parses the places in commands, as numbers or symbols, and the cells of erasable memory among them.
ghost use Rattle.std.specs.Prelude.{◌≡◌, ◌+◌, ◌<◌, ◌≤◌, IfOk};
ghost use Rattle.agc_store.specs.Places.{erasable_cells};
ghost use Rattle.agc_word.specs.Text.{words_of};
ghost use Rattle.agc_listing.specs.Location.{IsWithin};
ghost use Rattle.agc_command.specs.Place.{cell_in, cells_after, count_in, place_in};

use crate::fault::CommandFault;
use crate::meant::place_fault;
use crate::name::CommandName;
use crate::words::only_word;
use agc_listing::Location;
use agc_script::MOST_DIGITS;
use agc_store::place::ERASABLE_CELLS;
use agc_symbols::{SymbolTable, resolve};
use agc_word::{next_word, read_decimal};

/// Parses a place.
#[tactic(auto, unfolding(crate::specs::Place::place_in))]
pub(crate) fn read_place(names: &Option<SymbolTable>, word: &[u8]) -> Result<Location, CommandFault>
    ensures place { result ≡ place_in names.now word.now }
    ensures range { IfOk result IsWithin }
{
    match resolve(names, word) {
        Some(place) => Ok(place),
        None => Err(place_fault(names, word)),
    }
}

/// Parses the place of a cell, and returns its number.
#[tactic(auto, unfolding(crate::specs::Place::cell_in))]
pub(crate) fn read_cell(names: &Option<SymbolTable>, word: &[u8]) -> Result<u16, CommandFault>
    ensures cell { result ≡ cell_in names.now word.now }
    ensures range { IfOk result (λ cell. cell < erasable_cells) }
{
    match read_place(names, word)? {
        Location::Erasable(cell) => Ok(cell as u16),
        Location::Fixed(_) => Err(CommandFault::NotErasable),
    }
}

/// Parses the number of cells, from `first` on, out of the words after it. Without a word it is 1.
#[tactic(auto, unfolding(crate::specs::Place::cells_after))]
pub(crate) fn read_cells_after(
    name: CommandName,
    first: u16,
    words: &[u8],
) -> Result<u16, CommandFault>
    requires { first < erasable_cells }
    ensures count { result ≡ cells_after name first (words_of words.now) }
    ensures range { IfOk result (λ count. first + count ≤ erasable_cells) }
{
    if next_word(words).is_none() {
        return Ok(1);
    }
    let word = only_word(name, words)?;
    read_count(first, word)
}

/// Parses a number of cells, in decimal: at least 1, and no more than there are from `first` on.
#[tactic(auto, unfolding(crate::specs::Place::count_in))]
fn read_count(first: u16, word: &[u8]) -> Result<u16, CommandFault>
    requires { first < erasable_cells }
    ensures count { result ≡ count_in first word.now }
    ensures range { IfOk result (λ count. first + count ≤ erasable_cells) }
{
    match read_decimal(MOST_DIGITS, word) {
        Some(count) if 0 < count && count <= u64::from(ERASABLE_CELLS - first) => Ok(count as u16),
        _ => Err(CommandFault::BadCount),
    }
}
