//! The orders, and the decoder from a word to its order.
//!
//! In the decoder each arm is one number, so that the compiler makes a single jump through a table; for ranges and
//! alternatives in an arm it makes chains of comparisons. The extracodes are matched by code first: a step that both
//! decoders shared would come before the choice between them, and its number would be widened again after it.

use agc_word::Narrow;

/// The basic orders of the instruction memos, in the order of their codes.
#[derive(Clone, Copy, Debug, PartialEq, Eq)]
pub enum Basic {
    Tc,
    Relint,
    Inhint,
    Extend,
    Ccs,
    Tcf,
    Das,
    Lxch,
    Incr,
    Ads,
    Ca,
    Cs,
    Index,
    Resume,
    Dxch,
    Ts,
    Xch,
    Ad,
    Mask,
}

/// The extracodes, which a word names after EXTEND and after the extracode INDEX.
#[derive(Clone, Copy, Debug, PartialEq, Eq)]
pub enum Extracode {
    Read,
    Write,
    Rand,
    Wand,
    Ror,
    Wor,
    Rxor,
    Edrupt,
    Dv,
    Bzf,
    Msu,
    Qxch,
    Aug,
    Dim,
    Dca,
    Dcs,
    Index,
    Su,
    Bzmf,
    Mp,
}

impl Basic {
    ghost use Rattle.std.specs.Prelude.{◌≡◌};
    ghost use Rattle.agc_word.specs.Number.{pattern_of};
    ghost use Rattle.agc_order.specs.Order.{basic_of};

    /// Returns the basic order that a word names. Bits 15 to 11, code and quarter, choose it;
    /// RELINT, INHINT, EXTEND and RESUME are whole words.
    #[tactic(auto, unfolding(crate::specs::Order::basic_of, crate::specs::Order::basic_orders))]
    #[inline(always)]
    pub fn named_by(word: Narrow) -> Basic
        ensures { result ≡ basic_of (pattern_of 15 word) }
    {
        let bits = word.bits();
        match usize::from(bits) / 0o2000 % 0o40 {
            0o00 => match bits {
                0o00003 => Basic::Relint,
                0o00004 => Basic::Inhint,
                0o00006 => Basic::Extend,
                _ => Basic::Tc,
            },
            0o01 => Basic::Tc,
            0o02 => Basic::Tc,
            0o03 => Basic::Tc,
            0o04 => Basic::Ccs,
            0o05 => Basic::Tcf,
            0o06 => Basic::Tcf,
            0o07 => Basic::Tcf,
            0o10 => Basic::Das,
            0o11 => Basic::Lxch,
            0o12 => Basic::Incr,
            0o13 => Basic::Ads,
            0o14 => Basic::Ca,
            0o15 => Basic::Ca,
            0o16 => Basic::Ca,
            0o17 => Basic::Ca,
            0o20 => Basic::Cs,
            0o21 => Basic::Cs,
            0o22 => Basic::Cs,
            0o23 => Basic::Cs,
            0o24 => match bits {
                0o50017 => Basic::Resume,
                _ => Basic::Index,
            },
            0o25 => Basic::Dxch,
            0o26 => Basic::Ts,
            0o27 => Basic::Xch,
            0o30 => Basic::Ad,
            0o31 => Basic::Ad,
            0o32 => Basic::Ad,
            0o33 => Basic::Ad,
            0o34 => Basic::Mask,
            0o35 => Basic::Mask,
            0o36 => Basic::Mask,
            _ => Basic::Mask,
        }
    }
}

impl Extracode {
    ghost use Rattle.std.specs.Prelude.{◌≡◌};
    ghost use Rattle.agc_word.specs.Number.{pattern_of};
    ghost use Rattle.agc_order.specs.Order.{extracode_of};

    /// Returns the extracode that a word names. Bits 15 to 13, the code, choose it, with the quarter, bits 12 and 11,
    /// or if the code is 0 the eighth, bits 12 to 10.
    #[tactic(auto, unfolding(crate::specs::Order::extracode_of, crate::specs::Order::extracodes))]
    #[inline(always)]
    pub fn named_by(word: Narrow) -> Extracode
        ensures { result ≡ extracode_of (pattern_of 15 word) }
    {
        let bits = word.bits();
        match usize::from(bits) / 0o10000 % 0o10 {
            0 => match usize::from(bits) / 0o1000 % 0o10 {
                0 => Extracode::Read,
                1 => Extracode::Write,
                2 => Extracode::Rand,
                3 => Extracode::Wand,
                4 => Extracode::Ror,
                5 => Extracode::Wor,
                6 => Extracode::Rxor,
                _ => Extracode::Edrupt,
            },
            1 => if bits < 0o12000 {
                Extracode::Dv
            } else {
                Extracode::Bzf
            },
            2 => match usize::from(bits) / 0o2000 % 0o4 {
                0 => Extracode::Msu,
                1 => Extracode::Qxch,
                2 => Extracode::Aug,
                _ => Extracode::Dim,
            },
            3 => Extracode::Dca,
            4 => Extracode::Dcs,
            5 => Extracode::Index,
            6 => if bits < 0o62000 {
                Extracode::Su
            } else {
                Extracode::Bzmf
            },
            _ => Extracode::Mp,
        }
    }
}
