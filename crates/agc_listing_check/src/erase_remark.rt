//! Remarks on the erasable cells of a source that lie over registers or over other cells.
use agc_listing::{
    Cell, Location, cut_label, is_listed, location_named, next_parsed, offset_parsed, only_word,
    push_place,
};
use agc_store::place::ERASABLE_CELLS;
use agc_vocabulary::Directive;
use agc_word::without_return;
use std::alloc::{AllocError, Global};

/// The number of the first cell that is neither a register nor a counter.
const FIRST_FREE: u32 = 0o61;

/// The most remarks on a source.
const MOST: usize = 20;

/// The cells that an ERASE takes: a first one, and how many.
#[derive(Clone, Copy)]
struct Cells {
    first: u32,
    count: u32,
}

/// Returns a line for each ERASE of a source that takes registers, or cells that an earlier ERASE has taken, up to
/// twenty. Both are allowed, and rarely meant. Fails if out of memory.
pub fn erase_remarks(alloc: Global, file: &[u8]) -> Result<String, AllocError> {
    let mut text = String::new(alloc);
    let mut owners = vec![in alloc; 0usize; ERASABLE_CELLS as usize]?;
    let mut next = None;
    let mut room = MOST;
    for (number, line) in (1..usize::MAX).zip(file.split(|b| *b == b'\n')) {
        let line = without_return(line);
        if is_listed(line) {
            continue;
        }
        let (_, body) = cut_label(line);
        let Some((word, operand)) = next_parsed(body) else {
            continue;
        };
        match Directive::from_name(word) {
            Some(Directive::SetLoc) => next = cell_named(operand),
            Some(Directive::Bank | Directive::Block) => next = None,
            Some(Directive::Erase) => {
                let Some(cells) = cells_at(next, operand) else {
                    next = None;
                    continue;
                };
                next = Some(cells.first.saturating_add(cells.count));
                if push_remark(&mut text, number, cells, owners.as_slice())? {
                    room = room.saturating_sub(1);
                }
                if room == 0 {
                    break;
                }
                take(owners.as_mut_slice(), cells, number);
            }
            _ => {}
        }
    }
    Ok(text)
}

/// Returns the cell that an operand names.
fn cell_named(operand: &[u8]) -> Option<u32> {
    match location_named(only_word(operand)?)? {
        Location::Erasable(cell) => Some(cell),
        Location::Fixed(_) => None,
    }
}

/// Returns the cells that an ERASE with this operand takes from a cell on, if memory has them.
fn cells_at(first: Option<u32>, operand: &[u8]) -> Option<Cells> {
    let first = first?;
    let more = match next_parsed(operand) {
        Some((word, rest)) if next_parsed(rest).is_none() => offset_parsed(word)?.magnitude as u32,
        Some(_) => return None,
        None => 0,
    };
    let count = more.saturating_add(1);
    if first.saturating_add(count) <= u32::from(ERASABLE_CELLS) {
        Some(Cells { first, count })
    } else {
        None
    }
}

/// Notes the line that has taken cells.
fn take(owners: &mut [usize], cells: Cells, number: usize) {
    for owner in owners
        .iter_mut()
        .skip(cells.first as usize)
        .take(cells.count as usize)
    {
        *owner = number;
    }
}

/// Appends the remark on an ERASE, if it deserves one, and returns whether it does.
fn push_remark(
    text: &mut String,
    number: usize,
    cells: Cells,
    owners: &[usize],
) -> Result<bool, AllocError> {
    let mut taken = owners
        .iter()
        .skip(cells.first as usize)
        .take(cells.count as usize);
    let owner = taken.find(|owner| **owner != 0).copied();
    if owner.is_none() && cells.first >= FIRST_FREE {
        return Ok(false);
    }
    write!(text, "agc-study: text line {number}: ERASE takes ")?;
    push_cells(text, cells)?;
    match owner {
        Some(owner) => writeln!(text, ", and line {owner} has taken some of them")?,
        None => text.push_str(": cells below 0061 are registers and counters\n")?,
    }
    Ok(true)
}

/// Appends the first cell, and the last one if there are several.
fn push_cells(text: &mut String, cells: Cells) -> Result<(), AllocError> {
    push_cell(text, cells.first)?;
    if cells.count > 1 {
        text.push_str(" to ")?;
        push_cell(
            text,
            cells.first.saturating_add(cells.count).saturating_sub(1),
        )?;
    }
    Ok(())
}

/// Appends a cell as sources name it.
fn push_cell(text: &mut String, cell: u32) -> Result<(), AllocError> {
    if cell < u32::from(ERASABLE_CELLS) {
        push_place(text, Cell::new(cell as u16).place())
    } else {
        Ok(())
    }
}
