//! The fault of a line of a source.
ghost use Rattle.std.specs.Prelude.{◌≡◌};
ghost use Rattle.agc_interpretive.specs.FaultText.{fault_text as interpretive_text};
ghost use Rattle.agc_vocabulary.specs.FaultText.{fault_text, listed_text};

use agc_interpretive::Fault;
use agc_listing::LineFault;
use std::error::Error;
use std::fmt;

/// The fault of a line of a source.
#[derive(Clone, Copy, Debug, PartialEq, Eq)]
pub enum SourceFault {
    /// A fault that a line of a listing can have too.
    Listed(LineFault),
    /// The word in the first column is not a name.
    BadName,
    /// The name is one of the computer's own, or an earlier line has it.
    NameTwice,
    /// BANK or BLOCK with a name, or `=`, EQUALS, =MINUS, =ECADR or CHECK= without one.
    MisplacedName,
    /// CHECK= with a name that no other line has, or that stands for another location.
    CheckFailed,
    /// The line has no known order or directive after its first column.
    UnknownOrder,
    /// `$FILE`: other files are not included.
    Include,
    /// A fault of the interpretive language.
    Interpretive(Fault),
    /// A directive of the listings that is not supported.
    NotSupported,
    /// The operand is missing, superfluous or malformed.
    BadOperand,
    /// No line has this name.
    UnknownName,
    /// Outside memory, or outside an order's twelve-bit address.
    NoSuchPlace,
    /// An address in erasable memory is expected: the order takes ten bits, or the directive names a cell.
    ErasableWanted,
    /// A place in fixed memory is expected: by a jump, or by a directive that names a bank.
    FixedWanted,
    /// Not a channel of nine bits, or a name of a memory cell.
    ChannelWanted,
    /// A memory cell's name that another line takes as a channel.
    ChannelName,
    /// The place is in a fixed bank that this line cannot address.
    AnotherBank,
    /// TC of 3, 4 or 6, and INDEX of 17: their words are other orders. In a source they are these orders.
    OtherOrder,
    /// An extracode without EXTEND before it.
    ExtracodeAlone,
    /// A basic order after EXTEND or the extracode INDEX.
    BasicAfterExtend,
    /// No room is left in the bank, or in erasable memory.
    Full,
    /// ERASE in fixed memory, or BANK without a number in erasable memory.
    WrongMemory,
    /// A bad operand of SETLOC, BANK, `=` or EQUALS.
    BadPlace,
    /// A bad operand of OCT, DEC, 2OCT, 2DEC, VN, MM or ERASE.
    BadNumber,
    /// A number that its word or pair cannot hold.
    OutOfRange,
}

impl SourceFault {
    /// Returns the message of the fault: a sentence.
    pub fn text(self) -> &'static str
        ensures { result.now ≡ fault_text self }
    {
        match self {
            SourceFault::Listed(fault) => listed_text(fault),
            SourceFault::BadName =>
                "a name is 1 to 8 characters, without a comma and not only digits and signs",
            SourceFault::NameTwice => "an earlier line has this name",
            SourceFault::MisplacedName =>
                "=, EQUALS, =MINUS, =ECADR and CHECK= need a name in the first column; BANK and BLOCK take none",
            SourceFault::CheckFailed => "CHECK= fails: no other line gives this name that place",
            SourceFault::UnknownOrder =>
                "no order or directive has this name (they come after the first column)",
            SourceFault::Include => "other files are not included: put their lines into this file",
            SourceFault::Interpretive(fault) => fault.text(),
            SourceFault::NotSupported => "this directive is not supported",
            SourceFault::BadOperand => "the operand is missing, superfluous or malformed",
            SourceFault::UnknownName => "no line has this name",
            SourceFault::NoSuchPlace => "there is no such place in memory",
            SourceFault::ErasableWanted => "an address in erasable memory is expected here",
            SourceFault::FixedWanted => "a place in fixed memory is expected here",
            SourceFault::ChannelWanted =>
                "this order takes a channel: a number from 0 to 777, or a name of 0 to 60 or 77",
            SourceFault::ChannelName =>
                "another line takes this name as a channel: give the cell a name of its own",
            SourceFault::AnotherBank => "this place is in another bank",
            SourceFault::OtherOrder => "with this address the word would be another order",
            SourceFault::ExtracodeAlone => "this order is an extracode: write EXTEND before it",
            SourceFault::BasicAfterExtend =>
                "basic order after EXTEND (or the extracode INDEX): an extracode is expected here",
            SourceFault::Full => "no room is left in this bank",
            SourceFault::WrongMemory =>
                "ERASE belongs in erasable memory, and BANK without a number in fixed memory",
            SourceFault::BadPlace =>
                "not a place or a bank: expected a name, bb,oooo, En,oooo or a number",
            SourceFault::BadNumber => "not a number of the form that this directive takes",
            SourceFault::OutOfRange =>
                "the number is too large: DEC takes integers up to 16383 and fractions below 1",
        }
    }
}

impl fmt::Display for SourceFault {
    ghost use Rattle.std.specs.Prelude.{Some};
    ghost use Rattle.agc_vocabulary.specs.FaultText.{fault_text};

    ghost output = { λ fault. Some (fault_text fault) };

    fn fmt<W: fmt::Write>(&self, f: &mut fmt::Formatter<W>) -> fmt::Result {
        f.write_str(self.text())
    }
}

fn listed_text(fault: LineFault) -> &'static str
    ensures { result.now ≡ listed_text fault }
{
    match fault {
        LineFault::NotText => "a byte of this line is neither a tab nor printable ASCII",
        LineFault::BadAddress =>
            "the line begins with no place of a rope: 4000 to 7777, or a bank from 00 to 43 and an address, as 04,2000",
        LineFault::BadWord => "after a place comes its word: five octal digits",
        LineFault::NamedTwice => "an earlier line has a word for this place: write each place once",
    }
}

impl Error for SourceFault {}
