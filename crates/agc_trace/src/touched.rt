//! Determines which cells a boundary may change: by the table of orders usually none beyond the registers, or one or
//! two.
ghost use Rattle.std.specs.Prelude.{◌≡◌, ◌<◌};
ghost use Rattle.std.specs.List.{list_any};
ghost use Rattle.agc_processor.specs.Row.{below};
ghost use Rattle.agc_processor.specs.Table.{basic_row, extracode_row};
ghost use Rattle.agc_trace.specs.Touched.{
  are_past,
  begins_by,
  cell_in,
  is_away,
  reach_of,
  touched_at,
  touched_by,
  two_touched,
};

use crate::change::is_named;
use agc_listing::{Location, LocationRange};
use agc_machine::{InHand, Upcoming};
use agc_order::{Basic, Extracode};
use agc_store::place::{EDOP, ERASABLE_BANK_SIZE, ERASABLE_WINDOW, TIME6, ZERO};

/// The cells past EDOP that a boundary may change.
#[derive(Clone, Copy, Debug, PartialEq, Eq)]
pub(crate) enum Touched {
    Nothing,
    One(u16),
    /// The lower and the upper word of a double word.
    Two(u16, u16),
    /// One of the timers.
    Counter,
    /// Any cell.
    Any,
}

/// Returns whether it is known, from what happens and the bank in EB, that no watched cell changes.
#[inline]
pub(crate) fn is_away(several: &[LocationRange], bank: u8, happening: Upcoming) -> bool
    requires { bank < 8 }
    ensures { result ≡ is_away several.now (touched_by bank happening) }
{
    match touched_by(happening, bank) {
        Touched::Nothing => are_past(several, EDOP),
        Touched::One(cell) => are_past(several, EDOP) && !is_named(several, cell),
        Touched::Two(low, high) => are_past(several, EDOP)
            && !is_named(several, low)
            && !is_named(several, high),
        Touched::Counter => are_past(several, TIME6),
        Touched::Any => false,
    }
}

/// Returns the cells past EDOP that may change.
#[inline]
#[tactic(auto, unfolding(crate::specs::Touched::touched_by, crate::specs::Touched::reach_of))]
fn touched_by(happening: Upcoming, bank: u8) -> Touched
    requires { bank < 8 }
    ensures { result ≡ touched_by bank happening }
{
    match happening {
        Upcoming::Order(order) => {
            let address = order.word.bits() % 0o2000;
            if order.extracode {
                extracode_touched(Extracode::named_by(order.word), bank, address)
            } else {
                basic_touched(Basic::named_by(order.word), bank, address)
            }
        }
        Upcoming::Timer(_) => Touched::Counter,
        Upcoming::Stop(_) | Upcoming::Event(_) | Upcoming::Interrupt(_) => Touched::Any,
    }
}

#[inline]
#[tactic(auto, unfolding(agc_processor::specs::Table::basic_row))]
fn basic_touched(order: Basic, bank: u8, address: u16) -> Touched
    requires bank { bank < 8 }
    requires address { address < 0o2000 }
    ensures { result ≡ touched_at (basic_row order).reach bank address }
{
    match order {
        Basic::Lxch | Basic::Incr | Basic::Ads | Basic::Ts | Basic::Xch => Touched::One(cell_in(
            bank, address,
        )),
        Basic::Das | Basic::Dxch => two_touched(bank, address),
        _ => Touched::Nothing,
    }
}

#[inline]
#[tactic(auto, unfolding(agc_processor::specs::Table::extracode_row))]
fn extracode_touched(order: Extracode, bank: u8, address: u16) -> Touched
    requires bank { bank < 8 }
    requires address { address < 0o2000 }
    ensures { result ≡ touched_at (extracode_row order).reach bank address }
{
    match order {
        Extracode::Qxch | Extracode::Aug | Extracode::Dim => Touched::One(cell_in(bank, address)),
        _ => Touched::Nothing,
    }
}

/// Returns the cells of a double word, from the address of its lower word. If that is a register, the upper word may be
/// in another bank.
fn two_touched(bank: u8, address: u16) -> Touched
    requires bank { bank < 8 }
    requires address { address < 0o2000 }
    ensures { result ≡ two_touched (cell_in bank address) (cell_in bank (below 0o1777 address)) }
{
    let low = cell_in(bank, address);
    if low <= ZERO {
        return Touched::Any;
    }
    Touched::Two(low, cell_in(bank, below(address)))
}

/// Returns the address below; 1777 octal is below 0.
fn below(address: u16) -> u16
    requires { address < 0o2000 }
    ensures value { result ≡ below 0o1777 address }
    ensures range { result < 0o2000 }
{
    if address == 0 { 0o1777 } else { address - 1 }
}

/// Returns the cell that an address names with this bank in EB.
#[inline]
fn cell_in(bank: u8, address: u16) -> u16
    requires bank { bank < 8 }
    requires address { address < 0o2000 }
    ensures { result ≡ cell_in bank address }
{
    if address < ERASABLE_WINDOW {
        address
    } else {
        ERASABLE_BANK_SIZE * u16::from(bank) + (address - ERASABLE_WINDOW)
    }
}

/// Returns whether all watched cells come after a cell.
#[inline]
fn are_past(several: &[LocationRange], cell: u16) -> bool
    ensures { result ≡ are_past cell several.now }
{
    !begins_by(several, cell)
}

#[inline]
fn begins_by(several: &[LocationRange], cell: u16) -> bool
    ensures { result ≡ list_any (λ places. begins_by cell places.first) several.now }
{
    several.iter().any(|places| is_begun_by(places.first, cell))
}

/// Returns whether a range with this first location begins at a cell or below it.
#[inline]
fn is_begun_by(first: Location, cell: u16) -> bool
    ensures { result ≡ begins_by cell first }
{
    match first {
        Location::Erasable(first) => first <= u32::from(cell),
        Location::Fixed(_) => false,
    }
}
