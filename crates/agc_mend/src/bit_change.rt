//! Undoes a change of the bits of all words of a file: they are inverted, or in reverse order.
ghost use Rattle.std.specs.Prelude.{◌≡◌, IfOk, length};

use crate::reading::{ParityBit, Reading};
use std::alloc::{AllocError, Global};

/// What became of the bits of all words of a file.
#[derive(Clone, Copy, Debug, PartialEq, Eq)]
pub enum BitChange {
    Nothing,
    /// All sixteen bits are inverted.
    Inverted,
    /// The fifteen bits of the word are inverted, and the parity bit is not.
    WordInverted,
    /// The sixteen bits are in reverse order.
    Reversed,
}

/// Returns the words of a file with the change of their bits undone. The reading says which bit is the parity bit. Fails
/// if out of memory.
pub fn undo_bit_change(
    alloc: Global,
    reading: Reading,
    change: BitChange,
    words: &[u16],
) -> Result<Vec<u16>, AllocError>
    ensures { IfOk result (λ new. length new.items ≡ length words.now) }
{
    let word_bits = word_bits(reading);
    words
        .iter()
        .map(|word| match change {
            BitChange::Nothing => *word,
            BitChange::Inverted => !*word,
            BitChange::WordInverted => *word ^ word_bits,
            BitChange::Reversed => word.reverse_bits(),
        })
        .collect(alloc)
}

/// Returns the bits of a file's word that are not the parity bit.
fn word_bits(reading: Reading) -> u16 {
    match (reading.parity, reading.is_swapped) {
        (ParityBit::Unused | ParityBit::Last, false) => 0xFFFE,
        (ParityBit::Unused | ParityBit::Last, true) => 0xFEFF,
        (ParityBit::First, false) => 0x7FFF,
        (ParityBit::First, true) => 0xFF7F,
    }
}
