//! The faults of a symbol file's text.
ghost use Rattle.std.specs.Prelude.{◌≡◌};
ghost use Rattle.agc_symbols.specs.FaultText.{fault_text};

use std::alloc::AllocError;
use std::error::Error;
use std::fmt;

/// The fault of a line. The faults are checked in this order.
#[derive(Clone, Copy, Debug, PartialEq, Eq)]
pub enum NameFault {
    /// A byte that is neither a tab nor printable ASCII.
    NotText,
    /// The first word is neither a place (`bb,oooo`, `En,oooo`, or an address that needs no bank) nor a channel (`C015`).
    BadPlace,
    /// The second word is missing, or is not a name.
    BadName,
    /// A third word that does not begin a comment.
    MoreWords,
}

impl NameFault {
    /// Returns what is wrong, and what is right.
    pub fn text(self) -> &'static str
        ensures { result.now ≡ fault_text self }
    {
        match self {
            NameFault::NotText => "a byte is neither a tab nor printable ASCII",
            NameFault::BadPlace => {
                "the first word is no place (octal 4000, 05,2071, 0100 or E3,1400) and no channel (C015)"
            }
            NameFault::BadName => {
                "after the place comes a name: 1 to 8 characters, no comma, not only digits and signs"
            }
            NameFault::MoreWords => "a word follows the name; start comments with #",
        }
    }
}

/// Why there is no symbol table: the fault of the first faulty line, or out of memory.
#[derive(Clone, Copy, Debug, PartialEq, Eq)]
pub enum SymbolTableFault {
    /// The line with this number, counted from 1, has this fault.
    Line(usize, NameFault),
    /// Out of memory for the names.
    Memory,
}

impl From<AllocError> for SymbolTableFault {
    ghost use Rattle.std.specs.Prelude.{◌≡◌};
    ghost use Rattle.agc_symbols.specs.declared.fault.SymbolTableFault.TheVariants.{Memory};

    ghost from_gives = { λ _ trouble. trouble ≡ Memory };

    fn from(_error: AllocError) -> SymbolTableFault {
        SymbolTableFault::Memory
    }
}

impl fmt::Display for NameFault {
    ghost use Rattle.std.specs.Prelude.{Some};
    ghost use Rattle.agc_symbols.specs.FaultText.{fault_text};

    ghost output = { λ fault. Some (fault_text fault) };

    fn fmt<W: fmt::Write>(&self, f: &mut fmt::Formatter<W>) -> fmt::Result {
        f.write_str(self.text())
    }
}

impl fmt::Display for SymbolTableFault {
    ghost use Rattle.std.specs.Prelude.{Some};
    ghost use Rattle.agc_symbols.specs.FaultText.{trouble_text};

    ghost output = { λ trouble. Some (trouble_text trouble) };

    fn fmt<W: fmt::Write>(&self, f: &mut fmt::Formatter<W>) -> fmt::Result {
        match *self {
            SymbolTableFault::Line(line, fault) => write!(f, "line {line}: {fault}"),
            SymbolTableFault::Memory => f.write_str("memory"),
        }
    }
}

impl Error for NameFault {}

impl Error for SymbolTableFault {}
