//! Faults of a command line, with their names and advice.
ghost use Rattle.std.specs.Prelude.{◌≡◌};
ghost use Rattle.agc_command.specs.Fault.{event_advice, key_advice, save_advice, watch_advice};

use crate::meant::Meant;
use crate::name::CommandName;
use crate::save_fault::SaveFault;
use agc_panel::WatchFault;
use agc_script::{FaultKind, Key};
use std::error::Error;
use std::fmt;

/// What is wrong with a command line.
#[derive(Clone, Copy, Debug, PartialEq, Eq)]
pub enum CommandFault {
    /// The line has more than 120 bytes.
    LineTooLong,
    /// The line has a byte of 200 octal or above.
    NotAscii,
    /// The first word is not a command.
    UnknownCommand,
    /// A word is missing, or there is one too many.
    Usage(CommandName),
    /// Not a number of cycles, boundaries or hits: 1 to 13 decimal digits, at most 1,000,000,000,000.
    BadNumber,
    /// Not a place in memory.
    BadPlace,
    /// An unknown name; this one was probably meant.
    UnknownName(Meant),
    /// A place in fixed memory where a cell is expected.
    NotErasable,
    /// Not 1 to 6 octal digits, or above 777 octal.
    BadChannel,
    /// Not a channel that shows writes: 1 to 6 octal digits, 5 to 777 octal.
    NoWrites,
    /// Not a word: 1 to 5 octal digits.
    BadWord,
    /// Not the sign of a comparison.
    BadRelation,
    /// Not a word to compare with: 1 to 5 octal digits, or a sign and 1 to 5 decimal digits, at most 16,383.
    BadCompared,
    /// Not the name of an interrupt.
    BadInterrupt,
    /// Not 1 to 6 decimal digits, or 0, or past the end of erasable memory.
    BadCount,
    /// Not a line that the panel can show.
    BadLine,
    /// The event has this fault.
    BadEvent(FaultKind),
    /// Not a key; this one was probably meant.
    UnknownKey(Option<Key>),
    /// PRO, which is a switch and not a key with a code.
    ProKey,
    /// Not seven octal numbers.
    BadSpec,
    /// The tables cannot be at these places.
    Watch(WatchFault),
    /// A search back for no boundary.
    NoStep,
    /// A search back finds nothing.
    NotHit,
    /// A search back that passes over hits finds too few.
    TooFewHits,
    /// A search back finds fewer boundaries than that.
    TooFarBack,
    /// The script was not saved.
    NotSaved(SaveFault),
}

impl CommandFault {
    ghost use Rattle.std.specs.Prelude.{◌≡◌};
    ghost use Rattle.agc_command.specs.Fault.{fault_name, fault_advice};

    /// Returns the name of the fault.
    #[tactic(auto, unfolding(crate::specs::Fault::fault_name))]
    pub fn name(self) -> &'static str
        ensures { result.now ≡ fault_name self }
    {
        match self {
            CommandFault::LineTooLong => "LineTooLong",
            CommandFault::NotAscii => "NotAscii",
            CommandFault::UnknownCommand => "UnknownCommand",
            CommandFault::Usage(_) => "Usage",
            CommandFault::BadNumber => "BadNumber",
            CommandFault::BadPlace => "BadPlace",
            CommandFault::UnknownName(_) => "BadPlace",
            CommandFault::NotErasable => "NotErasable",
            CommandFault::BadChannel => "BadChannel",
            CommandFault::NoWrites => "BadChannel",
            CommandFault::BadWord => "BadWord",
            CommandFault::BadRelation => "BadRelation",
            CommandFault::BadCompared => "BadWord",
            CommandFault::BadInterrupt => "BadInterrupt",
            CommandFault::BadCount => "BadCount",
            CommandFault::BadLine => "BadLine",
            CommandFault::BadEvent(_) => "BadEvent",
            CommandFault::UnknownKey(_) => "BadEvent",
            CommandFault::ProKey => "BadEvent",
            CommandFault::BadSpec => "BadSpec",
            CommandFault::Watch(_) => "BadWatch",
            CommandFault::NoStep => "BadNumber",
            CommandFault::NotHit => "NotHit",
            CommandFault::TooFewHits => "NotHit",
            CommandFault::TooFarBack => "NotHit",
            CommandFault::NotSaved(_) => "NotSaved",
        }
    }

    /// Returns what would be valid instead.
    #[tactic(auto, unfolding(crate::specs::Fault::fault_advice))]
    pub fn advice(self) -> &'static str
        ensures { result.now ≡ fault_advice self }
    {
        match self {
            CommandFault::LineTooLong => "a line has at most 120 bytes",
            CommandFault::NotAscii => "a line is ASCII only",
            CommandFault::UnknownCommand => "unknown command; help lists the commands",
            CommandFault::Usage(name) => name.usage(),
            CommandFault::BadNumber =>
                "cycles, boundaries, hits and breakpoints are 1 to 13 decimal digits, such as 1000000, at most 1000000000000",
            CommandFault::BadPlace =>
                "a place is octal, such as 0100, 4100, 12,2000 or E3,1400, or a name of --names",
            CommandFault::UnknownName(_) => "unknown name",
            CommandFault::NotErasable =>
                "a cell is in erasable memory: octal, such as 0100 or E3,1400",
            CommandFault::BadChannel => "a channel is octal, 0 to 777",
            CommandFault::NoWrites => "only channels 5 to 777 octal show writes",
            CommandFault::BadWord => "a word is octal, 0 to 77777",
            CommandFault::BadRelation =>
                "a cell is compared by <, >, = or !=, with spaces around it. Example: break 4100 if 0100 < 5",
            CommandFault::BadCompared =>
                "a word to compare with is octal, 0 to 77777, or decimal with its sign, such as +12 or -3, up to 16383",
            CommandFault::BadInterrupt =>
                "interrupts are T6RUPT, T5RUPT, T3RUPT, T4RUPT, KEYRUPT1, KEYRUPT2, UPRUPT, DOWNRUPT, RADARUPT and RUPT10",
            CommandFault::BadCount =>
                "a number of cells is decimal, from 1 up to the last cell, E7,1777",
            CommandFault::BadLine =>
                "the panel shows PROG, VERB or NOUN and 2 digits, R1, R2 or R3 with a sign and 5 digits, FLASH on or off, or LAMPS and a lamp; _ is blank. Example: break panel R1 +00012",
            CommandFault::BadEvent(kind) => event_advice(kind),
            CommandFault::UnknownKey(meant) => key_advice(meant),
            CommandFault::ProKey => "PRO is a switch; use pro down, then pro up",
            CommandFault::BadSpec =>
                "tables are seven octal numbers with commas between: bank, offset and number of core sets, bank and offset of LST1, bank and offset of LST2",
            CommandFault::Watch(fault) => watch_advice(fault),
            CommandFault::NoStep => "back step goes back by 1 boundary or more",
            CommandFault::NotHit => "no boundary before now hits it",
            CommandFault::TooFewHits => "fewer boundaries before now hit it",
            CommandFault::TooFarBack => "there are fewer boundaries before now",
            CommandFault::NotSaved(why) => save_advice(why),
        }
    }
}

/// Returns what would be a valid event.
#[tactic(auto, unfolding(crate::specs::Fault::event_advice))]
fn event_advice(kind: FaultKind) -> &'static str
    ensures { result.now ≡ event_advice kind }
{
    match kind {
        FaultKind::BadNumber => "a number is 1 to 6 octal digits; for raise, decimal ones",
        FaultKind::OutOfRange =>
            "octal channels are 5 to 777, words 0 to 77777, counters 24 to 60, banks 0 to 7, offsets 0 to 377, in bank 0 from 10 on; decimal interrupts are 1 to 10",
        _ =>
            "an event is key NAME, pro down, pro up, input CCC WORD, pulse COUNTER KIND, raise N or poke BANK OFFSET WORD",
    }
}

/// Returns which key was probably meant.
#[tactic(auto, unfolding(crate::specs::Fault::key_advice))]
fn key_advice(meant: Option<Key>) -> &'static str
    ensures { result.now ≡ key_advice meant }
{
    match meant {
        Some(Key::Verb) => "unknown key; did you mean VERB?",
        Some(Key::Noun) => "unknown key; did you mean NOUN?",
        Some(Key::Reset) => "unknown key; did you mean RSET?",
        Some(Key::KeyRelease) => "unknown key; did you mean KEYREL?",
        Some(Key::Enter) => "unknown key; did you mean ENTR?",
        Some(Key::Clear) => "unknown key; did you mean CLR?",
        _ => "keys are 0 to 9, VERB, NOUN, +, -, ENTR, CLR, RSET and KEYREL",
    }
}

/// Returns which tables would be valid.
#[tactic(auto, unfolding(crate::specs::Fault::watch_advice))]
fn watch_advice(fault: WatchFault) -> &'static str
    ensures { result.now ≡ watch_advice fault }
{
    match fault {
        WatchFault::OutOfErasable { .. } => "each table must be in erasable memory, whole",
        WatchFault::TooManySets => "there are at most 20 core sets, octal",
        WatchFault::Memory => "out of memory",
    }
}

/// Returns why a script was not saved.
#[tactic(auto, unfolding(crate::specs::Fault::save_advice))]
fn save_advice(why: SaveFault) -> &'static str
    ensures { result.now ≡ save_advice why }
{
    match why {
        SaveFault::Exists => "there is a file with this name; save writes only new ones",
        SaveFault::CannotWrite => "the file could not be written",
    }
}

impl fmt::Display for CommandFault {
    ghost use Rattle.std.specs.Prelude.{Some};
    ghost use Rattle.agc_command.specs.Fault.{fault_text};

    ghost output = { λ fault. Some (fault_text fault) };

    #[tactic(auto, unfolding(crate::specs::Fault::fault_text))]
    fn fmt<W: fmt::Write>(&self, f: &mut fmt::Formatter<W>) -> fmt::Result {
        let (name, advice) = (self.name(), self.advice());
        write!(f, "{name}: {advice}")
    }
}

impl Error for CommandFault {}
