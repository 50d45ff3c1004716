//! Why a line of the interpretive language has no word.

use std::error::Error;
use std::fmt;

/// The fault of a line. What the original assembler refused is from memory, not checked.
#[derive(Clone, Copy, Debug, PartialEq, Eq)]
pub enum Fault {
    /// An address beyond memory, or negative.
    OutOfReach,
    /// An operand in banks 20 to 43 for code below bank 20, or the other way round.
    OtherHalf,
    /// An operand in bank 00, 01, 20 or 21, or a branch into bank 00 or 01.
    UnreachedBank,
    /// An operand in the last word of a fixed bank.
    LastWord,
    /// A place in fixed memory where a cell is wanted.
    ErasableWanted,
    /// A cell where a place in fixed memory is wanted.
    FixedWanted,
    /// A number too large for its word, or a name where a number is wanted.
    BadNumber,
    /// An index behind an operand whose operation has no `*`, or none behind one that has.
    BadIndex,
    /// No operation, or a store, at the right of an operation.
    BadPair,
    /// An operand beyond those that are due.
    TooMany,
    /// An operand is missing.
    TooFew,
    /// An operand is missing that nothing can be popped for.
    NoPushUp,
    /// An operand is left out before a store, without STADR as the last operation.
    NoStadr,
    /// STADR without a store behind it.
    StoreWanted,
}

impl Fault {
    ghost use Rattle.std.specs.Prelude.{◌≡◌};
    ghost use Rattle.agc_interpretive.specs.FaultText.{fault_text};

    /// Returns the message of the fault: a sentence that says what to do.
    #[tactic(auto, unfolding(crate::specs::FaultText::fault_text))]
    pub fn text(self) -> &'static str
        ensures { result.now ≡ fault_text self }
    {
        match self {
            Fault::OutOfReach =>
                "no such address: erasable memory ends at 3777, fixed memory in bank 43",
            Fault::OtherHalf =>
                "this place is in the other half of fixed memory: copy the constant into a bank of this half",
            Fault::UnreachedBank =>
                "this bank is out of reach: banks 00, 01, 20 and 21 hold no operands, and 00 and 01 no branches",
            Fault::LastWord => "the last word of a bank is out of reach: move it",
            Fault::ErasableWanted => "a cell is expected here: this place is in fixed memory",
            Fault::FixedWanted => "a place in fixed memory is expected here: this is a cell",
            Fault::BadNumber => "not a number that this operand can have",
            Fault::BadIndex =>
                "`*` and an index belong together: write ,1 or ,2 behind an operand of a starred operation only",
            Fault::BadPair =>
                "at the right of an operation only another one may stand: write operands on the next lines",
            Fault::TooMany => "the operations before this line take no more operands: remove it",
            Fault::TooFew => "an operand is missing: write it on the line after the operations",
            Fault::NoPushUp => "nothing is popped for this operation: write its operand",
            Fault::NoStadr =>
                "an operand that is left out before a store needs STADR as the last operation",
            Fault::StoreWanted =>
                "STADR is the last operation before a store: write the store on the next line",
        }
    }
}

impl fmt::Display for Fault {
    ghost use Rattle.std.specs.Prelude.{Some};
    ghost use Rattle.agc_interpretive.specs.FaultText.{fault_text};

    ghost output = { λ fault. Some (fault_text fault) };

    fn fmt<W: fmt::Write>(&self, f: &mut fmt::Formatter<W>) -> fmt::Result {
        f.write_str(self.text())
    }
}

impl Error for Fault {}
