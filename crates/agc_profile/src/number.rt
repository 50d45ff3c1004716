//! The numbers under which orders are counted.
ghost use Rattle.std.specs.Prelude.{◌≡◌, ◌<◌};
ghost use Rattle.agc_profile.specs.Number.{basic_count, basic_number, extracode_count, extracode_number};

use agc_order::{Basic, Extracode};

/// The number of basic orders.
pub(crate) const BASICS: usize = 19;
/// The number of extracodes.
pub(crate) const EXTRACODES: usize = 20;

/// Returns the number of a basic order, in the sequence of their codes.
pub fn basic_number(order: Basic) -> usize
    ensures number { result ≡ basic_number order }
    ensures range { result < basic_count }
{
    order as usize
}

/// Returns the number of an extracode, in the sequence of their codes.
pub fn extracode_number(order: Extracode) -> usize
    ensures number { result ≡ extracode_number order }
    ensures range { result < extracode_count }
{
    order as usize
}
