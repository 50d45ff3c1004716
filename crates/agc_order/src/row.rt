//! The table of orders: the first word of each, its mnemonic, its operand, and its cycles.
ghost use Rattle.std.specs.Prelude.{◌≡◌, ◌≤◌};
ghost use Rattle.agc_order.specs.Row.{basic_row, extracode_row};

use crate::order::{Basic, Extracode};

/// The operand of an order.
#[derive(Clone, Copy, Debug, PartialEq, Eq)]
pub enum Takes {
    /// No operand: the mnemonic is the whole order, like EXTEND.
    Nothing,
    /// An address of ten bits.
    Erasable,
    /// An address of ten bits, that of the upper of two words; the order's word holds the address of the lower one.
    ErasablePair,
    /// An address from 2000 octal on.
    Fixed,
    /// An address of twelve bits.
    Memory,
    /// An address of twelve bits, that of the upper of two words.
    MemoryPair,
    /// A channel of nine bits.
    Channel,
}

/// One row of the table.
#[derive(Clone, Copy, Debug, PartialEq, Eq)]
pub struct Row {
    /// The word with address or channel 0, or with no operand.
    pub first: u16,
    /// Its name in the instruction memos.
    pub mnemonic: &'static str,
    /// Its operand.
    pub takes: Takes,
    /// Its machine cycles, at most 6. For BZF and BZMF these are the cycles without a branch; a taken branch takes one.
    /// EDRUPT has 0, because it halts the machine.
    pub cycles: u64,
}

impl Basic {
    /// Every basic order, once.
    pub const ALL: [Basic; 19] = [
        Basic::Tc,
        Basic::Relint,
        Basic::Inhint,
        Basic::Extend,
        Basic::Ccs,
        Basic::Tcf,
        Basic::Das,
        Basic::Lxch,
        Basic::Incr,
        Basic::Ads,
        Basic::Ca,
        Basic::Cs,
        Basic::Index,
        Basic::Resume,
        Basic::Dxch,
        Basic::Ts,
        Basic::Xch,
        Basic::Ad,
        Basic::Mask,
    ];

    /// Returns its row of the table.
    pub fn row(self) -> Row
        ensures first { result.first ≡ (basic_row self).first }
        ensures mnemonic { result.mnemonic.now ≡ (basic_row self).mnemonic }
        ensures takes { result.takes ≡ (basic_row self).takes }
        ensures cycles { result.cycles ≡ (basic_row self).cycles }
        ensures range { result.first ≤ 0o70000 }
    {
        let (first, mnemonic, takes, cycles) = match self {
            Basic::Tc => (0o00000, "TC", Takes::Memory, 1),
            Basic::Relint => (0o00003, "RELINT", Takes::Nothing, 1),
            Basic::Inhint => (0o00004, "INHINT", Takes::Nothing, 1),
            Basic::Extend => (0o00006, "EXTEND", Takes::Nothing, 1),
            Basic::Ccs => (0o10000, "CCS", Takes::Erasable, 2),
            Basic::Tcf => (0o10000, "TCF", Takes::Fixed, 1),
            Basic::Das => (0o20000, "DAS", Takes::ErasablePair, 3),
            Basic::Lxch => (0o22000, "LXCH", Takes::Erasable, 2),
            Basic::Incr => (0o24000, "INCR", Takes::Erasable, 2),
            Basic::Ads => (0o26000, "ADS", Takes::Erasable, 2),
            Basic::Ca => (0o30000, "CA", Takes::Memory, 2),
            Basic::Cs => (0o40000, "CS", Takes::Memory, 2),
            Basic::Index => (0o50000, "INDEX", Takes::Erasable, 2),
            Basic::Resume => (0o50017, "RESUME", Takes::Nothing, 2),
            Basic::Dxch => (0o52000, "DXCH", Takes::ErasablePair, 3),
            Basic::Ts => (0o54000, "TS", Takes::Erasable, 2),
            Basic::Xch => (0o56000, "XCH", Takes::Erasable, 2),
            Basic::Ad => (0o60000, "AD", Takes::Memory, 2),
            Basic::Mask => (0o70000, "MASK", Takes::Memory, 2),
        };
        Row {
            first,
            mnemonic,
            takes,
            cycles,
        }
    }
}

impl Extracode {
    /// Every extracode, once.
    pub const ALL: [Extracode; 20] = [
        Extracode::Read,
        Extracode::Write,
        Extracode::Rand,
        Extracode::Wand,
        Extracode::Ror,
        Extracode::Wor,
        Extracode::Rxor,
        Extracode::Edrupt,
        Extracode::Dv,
        Extracode::Bzf,
        Extracode::Msu,
        Extracode::Qxch,
        Extracode::Aug,
        Extracode::Dim,
        Extracode::Dca,
        Extracode::Dcs,
        Extracode::Index,
        Extracode::Su,
        Extracode::Bzmf,
        Extracode::Mp,
    ];

    /// Returns its row of the table.
    pub fn row(self) -> Row
        ensures first { result.first ≡ (extracode_row self).first }
        ensures mnemonic { result.mnemonic.now ≡ (extracode_row self).mnemonic }
        ensures takes { result.takes ≡ (extracode_row self).takes }
        ensures cycles { result.cycles ≡ (extracode_row self).cycles }
        ensures range { result.first ≤ 0o70000 }
    {
        let (first, mnemonic, takes, cycles) = match self {
            Extracode::Read => (0o00000, "READ", Takes::Channel, 2),
            Extracode::Write => (0o01000, "WRITE", Takes::Channel, 2),
            Extracode::Rand => (0o02000, "RAND", Takes::Channel, 2),
            Extracode::Wand => (0o03000, "WAND", Takes::Channel, 2),
            Extracode::Ror => (0o04000, "ROR", Takes::Channel, 2),
            Extracode::Wor => (0o05000, "WOR", Takes::Channel, 2),
            Extracode::Rxor => (0o06000, "RXOR", Takes::Channel, 2),
            Extracode::Edrupt => (0o07000, "EDRUPT", Takes::Channel, 0),
            Extracode::Dv => (0o10000, "DV", Takes::Erasable, 6),
            Extracode::Bzf => (0o10000, "BZF", Takes::Fixed, 2),
            Extracode::Msu => (0o20000, "MSU", Takes::Erasable, 2),
            Extracode::Qxch => (0o22000, "QXCH", Takes::Erasable, 2),
            Extracode::Aug => (0o24000, "AUG", Takes::Erasable, 2),
            Extracode::Dim => (0o26000, "DIM", Takes::Erasable, 2),
            Extracode::Dca => (0o30000, "DCA", Takes::MemoryPair, 3),
            Extracode::Dcs => (0o40000, "DCS", Takes::MemoryPair, 3),
            Extracode::Index => (0o50000, "INDEX", Takes::Memory, 2),
            Extracode::Su => (0o60000, "SU", Takes::Erasable, 2),
            Extracode::Bzmf => (0o60000, "BZMF", Takes::Fixed, 2),
            Extracode::Mp => (0o70000, "MP", Takes::Memory, 3),
        };
        Row {
            first,
            mnemonic,
            takes,
            cycles,
        }
    }
}
