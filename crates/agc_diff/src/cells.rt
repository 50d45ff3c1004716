//! Compares the erasable cells of two memories.
ghost use Rattle.std.specs.Prelude.{◌≡◌, ◌↔◌, [], IfOk};
ghost use Rattle.agc_diff.specs.Cells.{cells_that_differ};

use crate::same::is_same_word;
use agc_listing::Cell;
use agc_store::Store;
use agc_store::place::ERASABLE_CELLS;
use agc_word::Wide;
use std::alloc::{AllocError, Global};

/// An erasable cell in which two memories differ.
#[derive(Clone, Copy, Debug, PartialEq, Eq)]
pub struct CellPair {
    /// The cell's number, 0 to 3777 octal: 400 octal cells for each bank.
    pub place: u16,
    pub left: Wide,
    pub right: Wide,
}

/// Returns the erasable cells in which two memories differ, in order.
pub(crate) fn differing_cells(
    alloc: Global,
    left: &Store,
    right: &Store,
) -> Result<Vec<CellPair>, AllocError>
    ensures cells { IfOk result (λ cells.
        cells.items ≡ cells_that_differ left.now.erasable right.now.erasable) }
    ensures none { IfOk result (λ cells.
        cells.items ≡ [] ↔ (left.now.erasable ≡ right.now.erasable)) }
{
    let mut cells = Vec::new(alloc);
    for place in 0..ERASABLE_CELLS {
        let named = Cell::new(place);
        let cell = CellPair {
            place,
            left: named.word(left),
            right: named.word(right),
        };
        if !is_same_word(cell.left, cell.right) {
            cells.push(cell)?;
        }
    }
    Ok(cells)
}
