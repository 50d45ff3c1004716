//! What the operands of a source name, and what their words add to it.
ghost use Rattle.std.specs.Prelude.{◌≡◌};
ghost use Rattle.agc_interpretive.specs.Operand.{index_behind, without_index};

/// The first address that is fixed.
pub(crate) const FIRST_FIXED: u16 = 0o4000;

/// The number of words in fixed memory: 44 banks (octal) of 2000.
pub(crate) const FIXED_WORDS: u16 = 0o110000;

/// The kinds of operand words.
#[derive(Clone, Copy)]
pub enum OperandKind {
    Address,
    Shift,
    Store,
    Branch,
    Cadr,
    Erasable,
    Switch,
}

impl OperandKind {
    ghost use Rattle.std.specs.Prelude.{◌≡◌, ◌≤◌};
    ghost use Rattle.agc_interpretive.specs.Operand.{plus_one};

    /// Returns what is added to an operand in its word. CCS takes 1 off an address and a store. The other words are used
    /// whole; that they have nothing added is from memory, not checked.
    pub fn plus_one(self) -> u16
        ensures added { result ≡ plus_one self }
        ensures range { result ≤ 1 }
    {
        match self {
            OperandKind::Address => 1,
            OperandKind::Shift => 1,
            OperandKind::Store => 1,
            OperandKind::Branch => 0,
            OperandKind::Cadr => 0,
            OperandKind::Erasable => 0,
            OperandKind::Switch => 0,
        }
    }
}

/// A word of memory.
#[derive(Clone, Copy, Debug, PartialEq, Eq)]
pub enum Place {
    /// A cell, 400 octal times the bank plus the offset. The interpreter takes 0 to 54 octal as the job's work area.
    Erasable(u16),
    /// A word of fixed memory, 2000 octal times the bank plus the offset, with banks 40 to 43 behind 37.
    Fixed(u16),
}

/// The index register of an operand.
#[derive(Clone, Copy, Debug, PartialEq, Eq)]
pub enum Index {
    /// No index.
    Direct,
    /// `,1`.
    X1,
    /// `,2`.
    X2,
}

/// The places of a general shift: minus only for an indexed one.
#[derive(Clone, Copy, Debug, PartialEq, Eq)]
pub struct Count {
    pub minus: bool,
    pub places: u16,
}

impl Index {
    ghost use Rattle.std.specs.Prelude.{◌≡◌, ◌<◌};
    ghost use Rattle.agc_interpretive.specs.Operand.{has_index, indexed, unindexed};

    /// Returns whether there is an index register.
    pub fn is_some(self) -> bool
        ensures { result ≡ has_index self }
    {
        !matches!(self, Index::Direct)
    }

    /// Returns an operand word with its index: X2 complements it.
    pub(crate) fn applied(self, word: u16) -> u16
        requires { word < 0o40000 }
        ensures { result ≡ indexed self word }
    {
        match self {
            Index::Direct | Index::X1 => word,
            Index::X2 => 0o77777 - word,
        }
    }

    /// Returns an operand word before its index, and the index; `None` for a negative word of an operation without `*`,
    /// which is the next pair.
    pub(crate) fn taken_off(is_indexed: bool, word: u16) -> Option<(u16, Index)>
        requires { word < 0o100000 }
        ensures { result ≡ unindexed is_indexed word }
    {
        match (is_indexed, word < 0o40000) {
            (false, true) => Some((word, Index::Direct)),
            (false, false) => None,
            (true, true) => Some((word, Index::X1)),
            (true, false) => Some((0o77777 - word, Index::X2)),
        }
    }
}

/// Cuts the index off the last word of an operand.
pub fn cut_index(word: &[u8]) -> (&[u8], Index)
    ensures word { result.0.now ≡ without_index word.now }
    ensures index { result.1 ≡ index_behind word.now }
{
    match word {
        [word @ .., b',', b'1'] => (word, Index::X1),
        [word @ .., b',', b'2'] => (word, Index::X2),
        _ => (word, Index::Direct),
    }
}
