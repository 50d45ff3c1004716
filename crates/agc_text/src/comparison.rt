//! Prints a comparison of two runs, boundary by boundary, with symbols for places if there are any.
ghost use Rattle.std.specs.Prelude.{All};
ghost use Rattle.agc_trace.specs.Entry.{FitsLine, FitsWrite};
ghost use Rattle.agc_diff.specs.Compare.{FitsLines, FitsWriteDivergence, IsCell};

use crate::count::push_count;
use agc_diff::{CellPair, Comparison, DivergencePoint, End, WriteDivergence};
use agc_listing::{Cell, Location, push_cell_word, push_place};
use agc_panel::Panel;
use agc_symbols::{SymbolTable, push_column};
use agc_trace::{Entry, push_line_with};
use agc_word::ChannelWrite;
use std::alloc::AllocError;

/// A column without a name.
const NO_NAME: &str = "             ";

/// The symbols for the lines of each of two runs, if there are any.
#[derive(Clone, Copy)]
pub struct SideNames<'a> {
    pub left: &'a Option<SymbolTable>,
    pub right: &'a Option<SymbolTable>,
}

/// Appends the report of a comparison: one line if the runs are the same. Otherwise it has these parts, each left out if
/// nothing differs: the first boundary that differs, with up to five lines before it, the first channel write, the
/// panel's lines and the erasable cells; and last, both stops. Of two lines that differ, `<` marks the run on the left,
/// `>` the run on the right. Fails if memory runs out. With symbols, an order and a cell have a column for the symbol of
/// their place; lines of both runs use the symbols of the left one.
pub fn push_comparison(
    text: &mut String,
    names: SideNames<'_>,
    comparison: &Comparison,
) -> Result<(), AllocError>
    requires { FitsLines comparison.now }
{
    if comparison.is_same() {
        return push_same(text, comparison);
    }
    match comparison.divergence {
        Some(divergence) => {
            push_divergence(text, names, &divergence, comparison.before.as_slice())?;
        }
        None => push_same_boundaries(text, comparison)?,
    }
    push_first_write(text, comparison.write)?;
    push_panels(text, &comparison.left.panel, &comparison.right.panel)?;
    push_cells(text, names.left, comparison.cells.as_slice())?;
    push_ends(text, comparison.left, comparison.right)
}

fn push_same(text: &mut String, comparison: &Comparison) -> Result<(), AllocError> {
    text.push_str("The runs are the same: ")?;
    push_count(text, comparison.boundaries, "boundary", "boundaries")?;
    text.push_str(", ")?;
    push_count(text, comparison.writes, "write", "writes")?;
    let cycle = comparison.left.cycle;
    writeln!(text, ", stop at cycle {cycle}")
}

/// Appends that no boundary differs.
fn push_same_boundaries(text: &mut String, comparison: &Comparison) -> Result<(), AllocError> {
    text.push_str("The runs are the same for ")?;
    push_count(text, comparison.boundaries, "boundary", "boundaries")?;
    text.push_str(" and ")?;
    push_count(text, comparison.writes, "write", "writes")?;
    text.push_str(", but not in their cells\n")
}

/// Appends the first boundary that differs, after the lines before it.
fn push_divergence(
    text: &mut String,
    names: SideNames<'_>,
    divergence: &DivergencePoint,
    before: &[Entry],
) -> Result<(), AllocError>
    requires before { All FitsLine before.now }
    requires left { FitsLine divergence.now.left }
    requires right { FitsLine divergence.now.right }
{
    let number = divergence.number;
    let (left, right) = (divergence.left.cycle, divergence.right.cycle);
    writeln!(
        text,
        "The runs part at boundary {number}, cycle {left} and {right}:"
    )?;
    for entry in before {
        text.push_str("  ")?;
        push_line_with(text, names.left, entry)?;
    }
    text.push_str("< ")?;
    push_line_with(text, names.left, &divergence.left)?;
    text.push_str("> ")?;
    push_line_with(text, names.right, &divergence.right)
}

/// Appends the first channel write that differs, if one does.
fn push_first_write(
    text: &mut String,
    divergence: Option<WriteDivergence>,
) -> Result<(), AllocError>
    requires { FitsWriteDivergence divergence }
{
    let Some(divergence) = divergence else {
        return Ok(());
    };
    let number = divergence.number;
    writeln!(text, "The first write that differs is number {number}:")?;
    text.push_str("< ")?;
    push_write(text, divergence.left)?;
    text.push_str("> ")?;
    push_write(text, divergence.right)
}

/// Appends a channel write, or that there is no further one.
fn push_write(text: &mut String, write: Option<ChannelWrite>) -> Result<(), AllocError>
    requires { FitsWrite write }
{
    match write {
        Some(write) => {
            let (cycle, channel, value) = (write.cycle, write.channel, write.value);
            writeln!(text, "{cycle} > {channel:03o} {value}")
        }
        None => text.push_str("no write\n"),
    }
}

/// Appends the lines of two panels that differ.
fn push_panels(text: &mut String, left: &Panel, right: &Panel) -> Result<(), AllocError> {
    let alloc = *text.allocator();
    let (left, right) = (left.text(alloc)?, right.text(alloc)?);
    let pairs: Vec<(&str, &str)> = left.lines().zip(right.lines()).collect(alloc)?;
    for pair in &pairs {
        push_line_pair(text, pair.0, pair.1)?;
    }
    Ok(())
}

/// Appends two lines, if they differ.
fn push_line_pair(text: &mut String, left: &str, right: &str) -> Result<(), AllocError> {
    if left == right {
        return Ok(());
    }
    writeln!(text, "< {left}\n> {right}")
}

/// Appends the cells that differ, under a heading if there are any.
fn push_cells(
    text: &mut String,
    names: &Option<SymbolTable>,
    cells: &[CellPair],
) -> Result<(), AllocError>
    requires { All IsCell cells.now }
{
    if cells.is_empty() {
        return Ok(());
    }
    text.push_str("The cells that differ at the stops:\n")?;
    for cell in cells {
        push_cell(text, names, *cell)?;
    }
    Ok(())
}

/// Appends a cell that differs: its place, its name if there are symbols, and its two words.
fn push_cell(
    text: &mut String,
    names: &Option<SymbolTable>,
    cell: CellPair,
) -> Result<(), AllocError>
    requires { IsCell cell }
{
    let CellPair { place, left, right } = cell;
    let cell = Cell::new(place);
    push_place(text, cell.place())?;
    text.push_str(" ")?;
    if let Some(names) = names {
        push_cell_name(text, names, cell.number())?;
    }
    push_cell_word(text, cell, left)?;
    text.push_str(" ")?;
    push_cell_word(text, cell, right)?;
    text.push_str("\n")
}

/// Appends the column of a cell's name. A register or a counter has only a name of its own.
fn push_cell_name(text: &mut String, names: &SymbolTable, cell: u16) -> Result<(), AllocError> {
    let at = Location::Erasable(u32::from(cell));
    if names.operand_at(at).is_some() {
        push_column(text, names, at)
    } else {
        text.push_str(NO_NAME)
    }
}

/// Appends the stops of both runs.
fn push_ends(text: &mut String, left: End, right: End) -> Result<(), AllocError> {
    text.push_str("< ")?;
    push_end(text, left)?;
    text.push_str("> ")?;
    push_end(text, right)
}

fn push_end(text: &mut String, end: End) -> Result<(), AllocError> {
    let (stop, cycle) = (end.stop.name(), end.cycle);
    writeln!(text, "stop {stop} at cycle {cycle}")
}
