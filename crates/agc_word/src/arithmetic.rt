//! The adder, and the operations built on it.
ghost use Rattle.std.specs.Prelude.{◌≡◌};
ghost use Rattle.agc_word.specs.Arithmetic.{sum_of, complement_of, dabs_of};

use crate::wide::Wide;

/// Returns the sum of two words, with end-around carry. A zero sum is +0 only if both terms are +0.
#[inline]
#[tactic(auto, unfolding(crate::specs::Arithmetic::sum_of))]
pub fn sum(x: Wide, y: Wide) -> Wide
    ensures { result ≡ sum_of x y }
{
    let (low, carry) = x.bits().overflowing_add(y.bits());
    Wide::from_bits(low + u16::from(carry))
}

/// Returns the word with the other sign.
#[inline]
#[tactic(auto, unfolding(crate::specs::Arithmetic::complement_of))]
pub fn complement(x: Wide) -> Wide
    ensures { result ≡ complement_of x }
{
    Wide::from_bits(u16::MAX - x.bits())
}

/// Returns the diminished absolute value, which CCS leaves in A: the magnitude less one, not below 0.
#[inline]
#[tactic(auto, unfolding(crate::specs::Arithmetic::dabs_of))]
pub fn dabs(x: Wide) -> Wide
    ensures { result ≡ dabs_of x }
{
    let bits = x.bits();
    let magnitude = if bits < 0o100000 {
        bits
    } else {
        u16::MAX - bits
    };
    Wide::from_bits(magnitude.saturating_sub(1))
}
