//! The logical operations on sixteen digits.
ghost use Rattle.std.specs.Prelude.{◌≡◌};
ghost use Rattle.agc_word.specs.Logic.{and_of, or_of, xor_of};

use crate::wide::Wide;

/// Returns the bitwise AND.
#[inline]
pub fn and(x: Wide, y: Wide) -> Wide
    ensures { result ≡ and_of x y }
{
    Wide::from_bits(x.bits() & y.bits())
}

/// Returns the bitwise OR.
#[inline]
pub fn or(x: Wide, y: Wide) -> Wide
    ensures { result ≡ or_of x y }
{
    Wide::from_bits(x.bits() | y.bits())
}

/// Returns the bitwise exclusive OR.
#[inline]
pub fn xor(x: Wide, y: Wide) -> Wide
    ensures { result ≡ xor_of x y }
{
    Wide::from_bits(x.bits() ^ y.bits())
}
