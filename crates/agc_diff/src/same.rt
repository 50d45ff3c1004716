//! Compares the boundaries, the writes and the words of two runs. Each kind of value has its own function, whose
//! clause states that `==` detects any difference. Those for boundaries are compiled into the loop over both runs, where
//! the entries stay in registers.
ghost use Rattle.std.specs.Prelude.{◌≡◌, ◌↔◌, IsTrue};

use agc_machine::Upcoming;
use agc_trace::{Entry, Registers};
use agc_word::{ChannelWrite, Wide};

/// Returns whether two boundaries did the same at the same cycle and left the same registers.
#[inline(always)]
pub(crate) fn is_same_entry(left: &Entry, right: &Entry) -> bool
    ensures { IsTrue result ↔ (left.now ≡ right.now) }
{
    left.cycle == right.cycle
        && is_same_happening(left.happening, right.happening)
        && is_same_write(left.write, right.write)
        && is_same_registers(left.registers, right.registers)
}

/// Returns whether two boundaries are of the same kind, with the same order or event. Two orders are compared without a
/// look at the other kinds.
#[inline(always)]
fn is_same_happening(left: Upcoming, right: Upcoming) -> bool
    ensures { IsTrue result ↔ (left ≡ right) }
{
    match (left, right) {
        (Upcoming::Order(left_order), Upcoming::Order(right_order)) => left_order == right_order,
        _ => left == right,
    }
}

/// Returns whether two boundaries show the same write, or none.
#[inline(always)]
pub(crate) fn is_same_write(left: Option<ChannelWrite>, right: Option<ChannelWrite>) -> bool
    ensures { IsTrue result ↔ (left ≡ right) }
{
    left == right
}

/// Returns whether the registers are the same.
#[inline(always)]
fn is_same_registers(left: Registers, right: Registers) -> bool
    ensures { IsTrue result ↔ (left ≡ right) }
{
    left == right
}

/// Returns whether two words have the same pattern.
pub(crate) fn is_same_word(left: Wide, right: Wide) -> bool
    ensures { IsTrue result ↔ (left ≡ right) }
{
    left == right
}
