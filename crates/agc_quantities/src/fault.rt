//! The faults of a file of quantities, and of a file of lists.
ghost use Rattle.std.specs.Prelude.{◌≡◌};
ghost use Rattle.agc_quantities.specs.declared.fault.QuantitiesFault.TheVariants as fault;

use std::alloc::AllocError;

/// The fault of a line. Those of a file of quantities are checked in this order.
#[derive(Clone, Copy)]
pub enum LineFault {
    TooFewFields,
    TooManyFields,
    BadName,
    NameTwice,
    UnknownPlace,
    FixedPlace,
    UnknownKind,
    BadScale,
    BadBits,
    PastBank,
    BadUnit,
    TooManyColumns,
    BadList,
    ListTwice,
    NoList,
    BadNumber,
    TooManyInLists,
}

impl LineFault {
    /// Returns the sentence that says what is wrong.
    pub fn text(self) -> &'static str {
        match self {
            LineFault::TooFewFields => {
                "too few fields: a line is NAME PLACE KIND SCALE, and a unit if you like"
            }
            LineFault::TooManyFields => {
                "too many fields: a line is NAME PLACE KIND SCALE UNIT; start comments with #"
            }
            LineFault::BadName => {
                "a name is 1 to 24 characters: a letter, then letters, digits, _, . and -"
            }
            LineFault::NameTwice => "an earlier line has this name or column",
            LineFault::UnknownPlace => "unknown place",
            LineFault::FixedPlace => {
                "the place is in fixed memory; cells are 0000 to 1377, or E0,1400 to E7,1777"
            }
            LineFault::UnknownKind => {
                "unknown kind: single, double, triple, vector, unsigned, bits or octal"
            }
            LineFault::BadScale => {
                "a scale is B-60 to B60, or a positive number of at most 15 digits, as 180 or 0.0125"
            }
            LineFault::BadBits => "bits are N or HIGH-LOW, from 15, the highest, to 1",
            LineFault::PastBank => "the words run past the last cell of their bank",
            LineFault::BadUnit => "a unit is 1 to 16 printable ASCII characters",
            LineFault::TooManyColumns => "more than 64 columns; a vector has three",
            LineFault::BadList => {
                "a list begins by list NAME WORD WORD, with words of five octal digits"
            }
            LineFault::ListTwice => "an earlier list begins by these words",
            LineFault::NoList => "a quantity comes before the first list",
            LineFault::BadNumber => "a place is the number of a word in the list, 0 to 999",
            LineFault::TooManyInLists => "more than 4096 columns; a vector has three",
        }
    }
}

/// Why there are no quantities, or no lists.
#[derive(Clone, Copy)]
pub enum QuantitiesFault {
    /// The line with this number, counted from 1, has this fault.
    Line(usize, LineFault),
    /// No line has a quantity, or no list has one.
    Nothing,
    /// Out of memory.
    Memory,
}

impl From<AllocError> for QuantitiesFault {
    ghost from_gives = { λ _ why. why ≡ fault.Memory };

    fn from(_error: AllocError) -> QuantitiesFault {
        QuantitiesFault::Memory
    }
}
