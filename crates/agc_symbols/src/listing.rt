//! Prints the text of a rope with names.
ghost use Rattle.std.specs.Prelude.{◌≡◌, ◌++◌, IfOk, OnOk, string_bytes};
ghost use Rattle.agc_symbols.specs.Listing.{column_at, line_with_name, text_with_names};
ghost use Rattle.agc_listing.specs.Location.{location_named};

use crate::column::push_column;
use crate::symbol_table::SymbolTable;
use agc_listing::location_named;
use agc_word::next_line;
use std::alloc::{AllocError, Global};

/// The characters of a place in the text of a rope: `02,4000`.
const PLACE: usize = 7;

/// Returns the text of a rope, as `list` of agc_listing prints it, with the name column of its place inserted after the
/// place of each line. Fails if out of memory.
#[tactic(auto, unfolding(crate::specs::Listing::text_with_names))]
pub fn text_with_names(
    alloc: Global,
    names: &SymbolTable,
    text: &[u8],
) -> Result<Vec<u8>, AllocError>
    ensures { IfOk result (λ named. named.items ≡ text_with_names names.now text.now) }
{
    let mut named = Vec::new(alloc);
    let mut rest = text;
    while let Some((line, after)) = next_line(rest) {
        push_line(alloc, &mut named, names, line)?;
        rest = after;
    }
    Ok(named)
}

/// Appends a line with the column of its place.
#[tactic(auto, unfolding(crate::specs::Listing::line_with_name))]
fn push_line(
    alloc: Global,
    named: &mut Vec<u8>,
    names: &SymbolTable,
    line: &[u8],
) -> Result<(), AllocError>
    ensures { OnOk result
        (named.new.items ≡ named.old.items ++ line_with_name names.now line.now) }
{
    let column = column_of(alloc, names, &line[..line.len().min(PLACE)])?;
    let after = line.len().min(PLACE + 1);
    named.extend_from_slice(&line[..after])?;
    named.extend_from_slice(column.as_bytes())?;
    named.extend_from_slice(&line[after..])?;
    named.push(b'\n')?;
    Ok(())
}

/// Returns the column of the place that a text names.
fn column_of(alloc: Global, names: &SymbolTable, text: &[u8]) -> Result<String, AllocError>
    ensures { IfOk result
        (λ column. string_bytes column ≡ column_at names.now (location_named text.now)) }
{
    let mut column = String::new(alloc);
    match location_named(text) {
        Some(at) => push_column(&mut column, names, at)?,
        None => {}
    }
    Ok(column)
}
