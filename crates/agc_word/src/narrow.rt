//! The narrow word: fifteen digits, as memory holds them.
ghost use Rattle.std.specs.Prelude.{◌≡◌, ◌^◌, ◌<◌, ◌≤◌, ◌↔◌, ◌==◌, false, Some, IsSome, IfSome};
ghost use Rattle.agc_word.specs.Number.{number_from_pattern, pattern_of, bit_of};
ghost use Rattle.agc_word.specs.Octal.{word_digits};

use std::fmt;
use std::marker::Model;

/// A word of fifteen bits in ones' complement: bit 15 is the sign, and there are two zeros,
/// +0 (`00000` in octal) and -0 (`77777`). Every memory cell but A and Q holds one.
#[derive(Clone, Copy, Debug, PartialEq, Eq)]
pub struct Narrow {
    bits: u16,
}

impl Model for Narrow {
    ghost use Rattle.std.specs.Prelude.{◌<◌, ◌^◌};
    ghost use Rattle.agc_word.specs.Number.{Number, number_from_pattern, pattern_of};
    ghost use Rattle.agc_word.specs.Patterns.{pattern_back};

    ghost Value = { Number };

    ghost view = { λ w. number_from_pattern 15 w.bits };

    ghost invariant = { λ w. w.bits < 2 ^ 15 };

    ghost inverse = { λ x. record { bits = pattern_of 15 x } };

    ghost inverse_ok = { λ w h. Prim.rw (pattern_back 15 w.bits h) };
}

impl Narrow {
    /// +0, `00000` in octal.
    pub const PLUS_ZERO: Narrow = Narrow { bits: 0 };

    /// -0, `77777` in octal.
    pub const MINUS_ZERO: Narrow = Narrow { bits: 0o77777 };

    /// Returns the word with this pattern, or `None` above `77777` octal.
    #[inline]
    pub fn from_bits(bits: u16) -> Option<Narrow>
        ensures fits { IsSome result ↔ (bits < 2 ^ 15) }
        ensures word { IfSome result (λ w. w ≡ number_from_pattern 15 bits) }
    {
        if bits < 1 << 15 {
            Some(Narrow { bits })
        } else {
            None
        }
    }

    /// Returns the word's pattern, at most `77777` octal.
    #[inline]
    pub fn bits(self) -> u16
        ensures pattern { result ≡ pattern_of 15 self }
        ensures number { number_from_pattern 15 result ≡ self }
        ensures range { result < 2 ^ 15 }
    {
        self.bits
    }

    /// Returns the word with this pattern. The caller guarantees that it has fifteen bits.
    #[inline]
    pub fn with_bits(bits: u16) -> Narrow
        requires { bits < 2 ^ 15 }
        ensures { result ≡ number_from_pattern 15 bits }
    {
        Narrow { bits }
    }

    /// Returns whether the sign, bit 15, is minus.
    #[inline]
    pub fn is_minus(self) -> bool
        ensures { result ≡ self.minus }
    {
        self.bits >= 0o40000
    }

    /// Returns whether a bit is 1. Bits are counted from the right, 1 to 15.
    #[inline]
    #[tactic(auto, unfolding(crate::specs::Number::bit_of))]
    pub fn bit(self, place: u32) -> bool
        requires counted { 1 ≤ place }
        requires within { place ≤ 15 }
        ensures { result ≡ (bit_of place self == 1) }
    {
        self.bits >> (place - 1) & 1 == 1
    }

    /// Returns the magnitude, at most 37777 octal.
    #[inline]
    pub fn magnitude(self) -> u16
        ensures size { result ≡ self.magnitude }
        ensures range { result < 2 ^ 14 }
    {
        if self.bits < 0o40000 {
            self.bits
        } else {
            0o77777 - self.bits
        }
    }

    /// Returns the word with this sign and magnitude.
    #[inline]
    pub fn signed(minus: bool, magnitude: u16) -> Narrow
        requires { magnitude < 2 ^ 14 }
        ensures { result ≡ record { minus = minus; magnitude = magnitude } }
    {
        Narrow {
            bits: if minus {
                0o77777 - magnitude
            } else {
                magnitude
            },
        }
    }
}

/// The default is +0.
impl Default for Narrow {
    ghost is_default = { λ x. x ≡ record { minus = false; magnitude = 0 } };

    fn default() -> Self {
        Narrow::PLUS_ZERO
    }
}

/// Prints the pattern in five octal digits, as listings print a word.
impl fmt::Display for Narrow {
    ghost output = { λ x. Some (word_digits x) };

    fn fmt<W: fmt::Write>(&self, f: &mut fmt::Formatter<W>) -> fmt::Result {
        let bits = self.bits();
        write!(f, "{bits:05o}")
    }
}
