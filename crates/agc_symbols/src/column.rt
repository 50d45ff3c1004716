//! Prints the name of a place, and the column in which lines show it.
ghost use Rattle.std.specs.Prelude.{◌≡◌, ◌++◌, OnOk, Some, replicate, string_bytes};
ghost use Rattle.agc_symbols.specs.Column.{name_column, name_text, nearby_text, offset_text};
ghost use Rattle.agc_symbols.specs.Nearest.{as_nearby};

use crate::symbol_table::{Nearest, SymbolTable};
use agc_listing::Location;
use std::alloc::AllocError;

/// The width of the column: a name of up to 8 characters, ` +` and an offset of up to 4, and a space after them.
const WIDTH: usize = 13;

/// Appends the name of a place: `LOOP`, or `LOOP +2` if the place is two words beyond it; nothing if it has no name.
/// Fails if out of memory.
#[tactic(auto, unfolding(crate::specs::Column::name_text))]
pub fn push_named(text: &mut String, names: &SymbolTable, at: Location) -> Result<(), AllocError>
    ensures { OnOk result
        (string_bytes text.new ≡ string_bytes text.old ++ name_text names.now at) }
{
    match names.named_at(at) {
        Some(near) => push_nearby(text, near),
        None => Ok(()),
    }
}

/// Appends a name and how many words a place is beyond it: `LOOP`, or `LOOP +2`. Fails if out of memory.
pub fn push_nearby(text: &mut String, near: Nearest<'_>) -> Result<(), AllocError>
    ensures { OnOk result
        (string_bytes text.new ≡ string_bytes text.old ++ nearby_text (Some (as_nearby near.entry))) }
{
    text.push_str(near.name)?;
    push_offset(text, near.offset)
}

/// Appends an offset, in decimal as in listings.
fn push_offset(text: &mut String, offset: usize) -> Result<(), AllocError>
    ensures { OnOk result
        (string_bytes text.new ≡ string_bytes text.old ++ offset_text offset) }
{
    if offset == 0 {
        Ok(())
    } else {
        write!(text, " +{offset}")
    }
}

/// Appends the column of a place: its name, padded with spaces to thirteen characters. Fails if out of memory.
#[tactic(auto, unfolding(crate::specs::Column::name_column))]
pub fn push_column(text: &mut String, names: &SymbolTable, at: Location) -> Result<(), AllocError>
    ensures { OnOk result
        (string_bytes text.new ≡ string_bytes text.old ++ name_column names.now at) }
{
    let start = text.len();
    push_named(text, names, at)?;
    let written = text.len() - start;
    push_blanks(text, WIDTH.saturating_sub(written))
}

/// Appends `count` spaces.
fn push_blanks(text: &mut String, count: usize) -> Result<(), AllocError>
    ensures { OnOk result
        (string_bytes text.new ≡ string_bytes text.old ++ replicate count 0x20) }
{
    for _blank in 0..count {
        text.push_str(" ")?;
    }
    Ok(())
}
