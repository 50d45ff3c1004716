//! Numbers that order places and cells in one sequence.
ghost use Rattle.std.specs.Prelude.{◌≡◌, ◌*◌, ◌≤◌, ◌<◌, ◌^◌};
ghost use Rattle.agc_symbols.specs.Index.{number_of, room_below};
ghost use Rattle.agc_symbols.specs.Operand.{is_single};

use agc_listing::Location;
use agc_store::place::{ERASABLE_BANK_SIZE, FIXED_BANK_SIZE};

/// Returns the number of a location: even for places in the rope, odd for cells.
pub(crate) fn number_of(at: Location) -> usize
    ensures number { result ≡ number_of at }
    ensures range { result < 2 ^ 34 }
{
    match at {
        Location::Fixed(place) => 2 * place as usize,
        Location::Erasable(cell) => 2 * cell as usize + 1,
    }
}

/// Returns how many places of the same bank below a location are searched: at most 100 octal.
pub(crate) fn room_below(at: Location) -> usize
    ensures room { result ≡ room_below at }
    ensures range { 2 * result ≤ number_of at }
{
    let below = match at {
        Location::Fixed(place) => place % u32::from(FIXED_BANK_SIZE),
        Location::Erasable(cell) => cell % u32::from(ERASABLE_BANK_SIZE),
    };
    below.min(0o100) as usize
}

/// The first cell of erasable memory that is neither a register nor a counter.
const FIRST_GENERAL: u32 = 0o61;

/// Returns whether a location is a register or a counter, which is a single word.
pub(crate) fn is_single(at: Location) -> bool
    ensures { result ≡ is_single at }
{
    match at {
        Location::Erasable(cell) => cell < FIRST_GENERAL,
        Location::Fixed(_) => false,
    }
}
