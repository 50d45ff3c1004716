//! A quantity of a program: its words in erasable memory, and what they are worth.
ghost use Rattle.std.specs.Prelude.{◌≡◌, ◌≤◌, ◌<◌, ◌+◌, ◌%◌};
ghost use Rattle.agc_store.specs.Places.{erasable_bank_size, erasable_cells};
ghost use Rattle.agc_quantities.specs.Kind.{size_of};

use crate::scale::Scale;
use agc_listing::Cell;
use std::alloc::AllocError;

/// How words are read as a number.
#[derive(Clone, Copy)]
pub enum Kind {
    Single(Scale),
    Double(Scale),
    Triple(Scale),
    /// Three doubles, with a column each.
    Vector(Scale),
    /// A word without a sign, as angle counters count.
    Unsigned(Scale),
    /// Some bits of a word: bit 15 is the highest, bit 1 the lowest.
    Bits { high: u32, low: u32 },
    /// Some bits of a word, printed in octal.
    Octal { high: u32, low: u32 },
}

impl Kind {
    /// Returns the number of words.
    pub fn size(self) -> u16
        ensures size { result ≡ size_of self }
        ensures range { result ≤ 6 }
    {
        match self {
            Kind::Single(_) | Kind::Unsigned(_) | Kind::Bits { .. } | Kind::Octal { .. } => 1,
            Kind::Double(_) => 2,
            Kind::Triple(_) => 3,
            Kind::Vector(_) => 6,
        }
    }

    pub(crate) fn is_vector(self) -> bool {
        matches!(self, Kind::Vector(_))
    }

    /// Returns the number of columns of a row.
    pub fn columns(self) -> usize
        ensures { result ≤ 3 }
    {
        match self {
            Kind::Vector(_) => 3,
            _ => 1,
        }
    }
}

/// A quantity. Its words lie in one bank of erasable memory.
#[derive(Drop)]
pub struct Quantity {
    pub name: String,
    /// The number of the cell of its first word, 0 to 3777 octal.
    pub cell: u16,
    pub kind: Kind,
    ghost erasable: { cell < erasable_cells },
    ghost in_bank: { cell % erasable_bank_size + size_of kind ≤ erasable_bank_size },
}

impl Quantity {
    ghost use Rattle.std.specs.Prelude.{◌≡◌, ◌++◌, OnOk};
    ghost use Rattle.agc_quantities.specs.Cells.{cells_of};

    /// Appends the cells of its words.
    pub(crate) fn push_cells(&self, cells: &mut Vec<Cell>) -> Result<(), AllocError>
        ensures { OnOk result (cells.new.items ≡ cells.old.items ++ cells_of self.now) }
    {
        for number in self.cell..self.cell + self.kind.size() {
            cells.push(Cell::new(number))?;
        }
        Ok(())
    }
}
