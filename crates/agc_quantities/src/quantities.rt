//! Reads a file of quantities.
ghost use Rattle.std.specs.Prelude.{IfErr};
ghost use Rattle.agc_quantities.specs.Fault.{IsLineOf};

use crate::fault::{LineFault, QuantitiesFault};
use crate::line::{Parsed, read_line};
use crate::quantity::Quantity;
use agc_symbols::SymbolTable;
use agc_word::next_line;
use std::alloc::{AllocError, Global};

/// The most bytes that a file of quantities may have.
pub const FILE_BYTES: usize = 1 << 20;

/// The most columns that the quantities of a file may have.
pub const MOST_COLUMNS: usize = 64;

/// Reads a file of quantities. A line has a name, a place, a kind, a scale or bits, and perhaps a unit, separated by
/// blanks, or is empty; `#` begins a comment. Places may be symbols. The fault is that of the first faulty line.
pub fn read_quantities(
    alloc: Global,
    text: &[u8],
    names: &Option<SymbolTable>,
) -> Result<Vec<Quantity>, QuantitiesFault>
    ensures { IfErr result (IsLineOf text.now) }
{
    let mut quantities = Vec::new(alloc);
    let mut lines = 0;
    let mut rest = text;
    while let Some((line, after)) = next_line(rest) {
        lines += 1;
        match read_line(line, names, quantities.as_slice()) {
            Ok(None) => {}
            Ok(Some(parsed)) => add_parsed(alloc, &mut quantities, parsed)?,
            Err(fault) => return Err(QuantitiesFault::Line(lines, fault)),
        }
        if columns_of(quantities.as_slice()) > MOST_COLUMNS {
            return Err(QuantitiesFault::Line(lines, LineFault::TooManyColumns));
        }
        rest = after;
    }
    if quantities.is_empty() {
        return Err(QuantitiesFault::Nothing);
    }
    Ok(quantities)
}

/// Adds the quantity of a line.
fn add_parsed(
    alloc: Global,
    quantities: &mut Vec<Quantity>,
    parsed: Parsed<'_>,
) -> Result<(), AllocError> {
    let Parsed { name, cell, kind } = parsed;
    let name = String::from_str(alloc, name)?;
    quantities.push(Quantity { name, cell, kind })?;
    Ok(())
}

/// Returns how many columns quantities have.
fn columns_of(quantities: &[Quantity]) -> usize {
    let mut columns: usize = 0;
    for quantity in quantities {
        columns = columns.saturating_add(quantity.kind.columns());
    }
    columns
}
