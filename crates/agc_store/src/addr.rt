//! Twelve-bit addresses, and the arithmetic that orders do on them.
ghost use Rattle.std.specs.Prelude.{◌≡◌, ℕ, ◌+◌, ◌*◌, ◌%◌, ◌<◌, ◌↔◌, IsSome, IfSome};
ghost use Rattle.agc_word.specs.Number.{pattern_of};
ghost use Rattle.agc_store.specs.Cells.{narrow_number};

use agc_word::Narrow;
use std::marker::Model;

/// An address of twelve bits, 0 to 7777 octal. Below 2000 octal it names an erasable cell, from
/// 2000 on a fixed word.
#[derive(Clone, Copy, Debug, PartialEq, Eq)]
pub struct Addr {
    bits: u16,
}

impl Model for Addr {
    ghost use Rattle.std.specs.Prelude.{ℕ, ◌<◌};

    ghost Value = { ℕ };

    ghost view = { λ a. a.bits };

    ghost invariant = { λ a. a.bits < 0o10000 };

    ghost inverse = { λ n. record { bits = n } };
}

impl Addr {
    /// Returns the address with this number, or `None` above `7777` octal.
    #[inline]
    pub fn new(bits: u16) -> Option<Addr>
        ensures fits { IsSome result ↔ (bits < 0o10000) }
        ensures address { IfSome result (λ a. a ≡ bits) }
    {
        if bits < 0o10000 {
            Some(Addr { bits })
        } else {
            None
        }
    }

    /// Returns the address in the low twelve bits of a number.
    #[inline]
    pub fn wrapped(bits: u16) -> Addr
        ensures { result ≡ bits % 0o10000 }
    {
        Addr {
            bits: bits % 0o10000,
        }
    }

    /// Returns the address with this number. The caller guarantees that it has twelve bits.
    #[inline]
    pub(crate) fn kept(bits: u16) -> Addr
        requires { bits < 0o10000 }
        ensures { result ≡ bits }
    {
        Addr { bits }
    }

    /// Returns the address in bits 12 to 1 of a word, as Z keeps it.
    #[inline]
    pub fn of_word(word: Narrow) -> Addr
        ensures { result ≡ pattern_of 15 word % 0o10000 }
    {
        Addr::wrapped(word.bits())
    }

    /// Returns the address's number, at most `7777` octal.
    #[inline]
    pub fn bits(self) -> u16
        ensures address { result ≡ self }
        ensures range { result < 0o10000 }
    {
        self.bits
    }

    /// Returns the word with this address in bits 12 to 1, as Z and Q show it.
    #[inline]
    pub fn word(self) -> Narrow
        ensures { result ≡ narrow_number self }
    {
        Narrow::with_bits(self.bits % 0o10000)
    }

    /// Returns the address `count` places further; 0 follows `7777` octal.
    #[inline]
    pub fn skip(self, count: u8) -> Addr
        ensures { result ≡ (self + count) % 0o10000 }
    {
        Addr {
            bits: (self.bits + u16::from(count)) % 0o10000,
        }
    }

    /// Returns the next address; 0 follows `7777` octal.
    #[inline]
    pub fn next(self) -> Addr
        ensures { result ≡ (self + 1) % 0o10000 }
    {
        Addr {
            bits: (self.bits + 1) % 0o10000,
        }
    }

    /// Returns the previous address; `7777` octal precedes 0.
    #[inline]
    pub fn previous(self) -> Addr
        ensures { result ≡ (self + 0o7777) % 0o10000 }
    {
        Addr {
            bits: (self.bits + 0o7777) % 0o10000,
        }
    }

    /// Returns the ten-bit address of an order that is chosen by quarter code.
    #[inline]
    pub fn low_ten(self) -> Addr
        ensures { result ≡ self % 0o2000 }
    {
        Addr {
            bits: self.bits % 0o2000,
        }
    }

    /// Returns the previous ten-bit address, as DAS and DXCH use it; `1777` octal precedes 0.
    #[inline]
    pub fn previous_low_ten(self) -> Addr
        ensures { result ≡ (self + 0o1777) % 0o2000 }
    {
        Addr {
            bits: (self.bits + 0o1777) % 0o2000,
        }
    }
}
