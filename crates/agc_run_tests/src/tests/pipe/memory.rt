//! What a run leaves in the memory, cell by cell, worked out by hand.
use agc_store::Store;

/// A cell of erasable bank 0, and its word.
pub type Cell = (u16, u16);

/// The thousand writes: before the limit, 4018, TIME1, TIME3 and TIME4 (25 to 27) step 4 times, TIME5 (30) steps 5
/// times, and Z is one past the WRITE at 4001.
pub const AFTER_WRITES: [Cell; 5] = [(0o5, 0o4002), (0o25, 4), (0o26, 4), (0o27, 4), (0o30, 5)];

/// EDRUPT at 4003: Z is one past it.
pub const AFTER_EDRUPT: [Cell; 1] = [(0o5, 0o4004)];

/// DV 100 at 4004, which divides the +2 in A by +1: it changes nothing.
pub const AFTER_DIVISION: [Cell; 3] = [(0o0, 2), (0o5, 0o4005), (0o100, 1)];

/// Returns whether these cells have their words, every other cell of the eight banks is +0, and the superbank is off.
pub fn holds(store: &Store, cells: &[Cell]) -> bool {
    for bank in 0..8 {
        for offset in 0..256 {
            if store.cell(bank, offset).bits() != word_at(cells, bank, offset) {
                return false;
            }
        }
    }
    !store.superbank()
}

/// Returns the word of a cell.
fn word_at(cells: &[Cell], bank: u8, offset: u16) -> u16 {
    cells
        .iter()
        .find(|cell| bank == 0 && cell.0 == offset)
        .map_or(0, |cell| cell.1)
}
