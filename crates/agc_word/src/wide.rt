//! The wide word: sixteen digits, as the adder and the registers A and Q hold them.
ghost use Rattle.std.specs.Prelude.{◌≡◌, ◌<◌, ◌^◌, false, Some};
ghost use Rattle.agc_word.specs.Number.{number_from_pattern, pattern_of};
ghost use Rattle.agc_word.specs.Arithmetic.{narrow_of, over_of};
ghost use Rattle.agc_word.specs.Octal.{octal_digits};

use crate::narrow::Narrow;
use std::fmt;
use std::marker::Model;

/// Whether a wide word is outside the range of a narrow one, and on which side.
#[derive(Clone, Copy, Debug, PartialEq, Eq)]
pub enum Over {
    None,
    Plus,
    Minus,
}

/// A word of sixteen bits in ones' complement, as the registers A and Q hold it. Bit 16 is the
/// sign; if bit 15 differs from it, the word has overflowed.
#[derive(Clone, Copy, Debug, PartialEq, Eq)]
pub struct Wide {
    bits: u16,
}

impl Model for Wide {
    ghost use Rattle.std.specs.Prelude.{◌<◌, ◌^◌};
    ghost use Rattle.agc_word.specs.Number.{Number, number_from_pattern, pattern_of};
    ghost use Rattle.agc_word.specs.Patterns.{pattern_back};

    ghost Value = { Number };

    ghost view = { λ w. number_from_pattern 16 w.bits };

    ghost invariant = { λ w. w.bits < 2 ^ 16 };

    ghost inverse = { λ x. record { bits = pattern_of 16 x } };

    ghost inverse_ok = { λ w h. Prim.rw (pattern_back 16 w.bits h) };
}

impl Wide {
    /// +0, `000000` in octal.
    pub const PLUS_ZERO: Wide = Wide { bits: 0 };

    /// -0, `177777` in octal.
    pub const MINUS_ZERO: Wide = Wide { bits: 0o177777 };

    /// +1, `000001` in octal.
    pub const PLUS_ONE: Wide = Wide { bits: 1 };

    /// -1, `177776` in octal.
    pub const MINUS_ONE: Wide = Wide { bits: 0o177776 };

    /// Returns the word with this pattern.
    #[inline]
    pub fn from_bits(bits: u16) -> Wide
        ensures { result ≡ number_from_pattern 16 bits }
    {
        Wide { bits }
    }

    /// Returns the word's pattern.
    #[inline]
    pub fn bits(self) -> u16
        ensures pattern { result ≡ pattern_of 16 self }
        ensures number { number_from_pattern 16 result ≡ self }
    {
        self.bits
    }

    /// Corrects overflow: keeps bit 16 as the sign, and bits 14 to 1.
    #[inline]
    #[tactic(auto, unfolding(crate::specs::Arithmetic::narrow_of))]
    pub fn narrow(self) -> Narrow
        ensures { result ≡ narrow_of self }
    {
        Narrow::with_bits(self.bits / 0o100000 * 0o40000 + self.bits % 0o40000)
    }

    /// Returns the overflow: plus or minus, by the sign in bit 16, if bits 16 and 15 differ.
    #[inline]
    #[tactic(auto, unfolding(crate::specs::Arithmetic::over_of))]
    pub fn over(self) -> Over
        ensures { result ≡ over_of self }
    {
        match self.bits / 0o40000 {
            1 => Over::Plus,
            2 => Over::Minus,
            _ => Over::None,
        }
    }
}

/// The default is +0.
impl Default for Wide {
    ghost is_default = { λ x. x ≡ record { minus = false; magnitude = 0 } };

    fn default() -> Self {
        Wide::PLUS_ZERO
    }
}

/// Prints the pattern in six octal digits.
impl fmt::Display for Wide {
    ghost output = { λ x. Some (octal_digits 6 (pattern_of 16 x)) };

    fn fmt<W: fmt::Write>(&self, f: &mut fmt::Formatter<W>) -> fmt::Result {
        let bits = self.bits();
        write!(f, "{bits:06o}")
    }
}

/// Extends a word to sixteen bits: bit 15 is copied into bit 16. The result has no overflow, so
/// narrowing returns the same word.
#[inline]
#[tactic(auto, unfolding(crate::specs::Arithmetic::narrow_of))]
pub fn widen(x: Narrow) -> Wide
    ensures same { result ≡ x }
    ensures back { narrow_of result ≡ x }
    ensures range { result.magnitude < 2 ^ 14 }
{
    let bits = x.bits();
    Wide {
        bits: bits + bits / 0o40000 * 0o100000,
    }
}
