//! The grammar of scripts: the names of commands, directions and pulses, and the ranges of numbers.
//! The parser reads these tables, and so does the explanation of a fault.
ghost use Rattle.std.specs.Prelude.{◌≡◌, IfSome, ◌≢◌};
ghost use Rattle.agc_word.specs.Numeral.{number_of};
ghost use Rattle.agc_script.specs.Grammar.{command_name, command_named, argument_count};
ghost use Rattle.agc_script.specs.Grammar.{direction_name, direction_named};
ghost use Rattle.agc_script.specs.Grammar.{pulse_named, radix, is_within, ranges_of, offsets_in};

use agc_word::{FIRST_IO_CHANNEL, LAST_IO_CHANNEL, Pulse, read_decimal, read_octal};

/// A command of a script.
#[derive(Clone, Copy, Debug, PartialEq, Eq)]
pub enum Command {
    /// A key of the keyboard is pressed.
    Key,
    /// The PRO key goes down or up.
    Pro,
    /// A channel gets a word.
    Input,
    /// A counter gets a pulse.
    Pulse,
    /// An interrupt is requested.
    Raise,
    /// A cell of erasable memory gets a word.
    Poke,
}

impl Command {
    /// Every command, once.
    pub const ALL: [Command; 6] = [
        Command::Key,
        Command::Pro,
        Command::Input,
        Command::Pulse,
        Command::Raise,
        Command::Poke,
    ];

    /// Returns the command with this name.
    #[tactic(auto, unfolding(crate::specs::Grammar::command_named, crate::specs::Grammar::all_commands))]
    pub fn from_name(name: &[u8]) -> Option<Command>
        ensures command { result ≡ command_named name.now }
        ensures named { IfSome result (λ command. command_name command ≡ name.now) }
    {
        Command::ALL
            .iter()
            .copied()
            .find(|command| command.name().as_bytes() == name)
    }

    /// Returns the word that begins the command.
    #[tactic(auto, unfolding(crate::specs::Grammar::command_name))]
    pub fn name(self) -> &'static str
        ensures { result.now ≡ command_name self }
    {
        match self {
            Command::Key => "key",
            Command::Pro => "pro",
            Command::Input => "input",
            Command::Pulse => "pulse",
            Command::Raise => "raise",
            Command::Poke => "poke",
        }
    }

    /// Returns the command with placeholders for its arguments, for messages.
    pub fn usage(self) -> &'static str {
        match self {
            Command::Key => "key NAME",
            Command::Pro => "pro DIRECTION",
            Command::Input => "input CHANNEL VALUE",
            Command::Pulse => "pulse COUNTER KIND",
            Command::Raise => "raise NUMBER",
            Command::Poke => "poke BANK OFFSET VALUE",
        }
    }

    /// Returns how many words follow the command's name.
    #[tactic(auto, unfolding(crate::specs::Grammar::argument_count))]
    pub fn argument_count(self) -> usize
        ensures { result ≡ argument_count self }
    {
        match self {
            Command::Key | Command::Pro | Command::Raise => 1,
            Command::Input | Command::Pulse => 2,
            Command::Poke => 3,
        }
    }

    /// Returns the ranges of the words after the command's name, in order: `None` for a word that
    /// is not a number, and if the command has no such word. The offsets of a poke depend on its
    /// bank: `first`, if the first word is a number.
    #[tactic(auto, unfolding(crate::specs::Grammar::ranges_of))]
    pub fn ranges(self, first: Option<u64>) -> [Option<NumberRange>; MOST_ARGUMENTS]
        ensures { result ≡ ranges_of self first }
    {
        match self {
            Command::Key | Command::Pro => [None, None, None],
            Command::Input => [Some(CHANNELS), Some(PATTERNS), None],
            Command::Pulse => [Some(COUNTERS), None, None],
            Command::Raise => [Some(INTERRUPTS), None, None],
            Command::Poke => [Some(BANKS), Some(offsets(first)), Some(PATTERNS)],
        }
    }
}

/// The most words that follow a command's name.
pub const MOST_ARGUMENTS: usize = 3;

/// The directions of PRO: down is true.
pub const DIRECTIONS: [bool; 2] = [true, false];

/// The pulses that a script may send. `Dinc` is not among them: only the timers send it.
pub const PULSES: [Pulse; 6] = [
    Pulse::Pinc,
    Pulse::Minc,
    Pulse::Pcdu,
    Pulse::Mcdu,
    Pulse::Shinc,
    Pulse::Shanc,
];

/// Returns the word for a direction of PRO.
#[tactic(auto, unfolding(crate::specs::Grammar::direction_name))]
pub fn direction_name(down: bool) -> &'static str
    ensures { result.now ≡ direction_name down }
{
    if down { "down" } else { "up" }
}

/// Returns the direction that a word names, true for down; `None` for any other word.
#[tactic(auto, unfolding(crate::specs::Grammar::direction_named, crate::specs::Grammar::directions))]
pub(crate) fn direction_from_name(name: &[u8]) -> Option<bool>
    ensures { result ≡ direction_named name.now }
{
    DIRECTIONS
        .iter()
        .copied()
        .find(|down| direction_name(*down).as_bytes() == name)
}

/// Returns the pulse with this name; a script has no `Dinc`.
#[tactic(auto, unfolding(crate::specs::Grammar::pulse_named, crate::specs::Grammar::pulses))]
pub(crate) fn pulse_from_name(name: &[u8]) -> Option<Pulse>
    ensures named { result ≡ pulse_named name.now }
    ensures scripted { IfSome result (λ kind. kind ≢ Pulse.Dinc) }
{
    PULSES
        .iter()
        .copied()
        .find(|kind| kind.name().as_bytes() == name)
}

/// The base of a number.
#[derive(Clone, Copy, Debug, PartialEq, Eq)]
pub enum Base {
    Octal,
    Decimal,
}

/// The range of a number in a command, both ends included, and its base.
#[derive(Clone, Copy, Debug, PartialEq, Eq)]
pub struct NumberRange {
    pub base: Base,
    pub low: u64,
    pub high: u64,
}

impl NumberRange {
    /// Reads a number: 1 to 6 digits of the base.
    #[tactic(auto, unfolding(crate::specs::Grammar::radix))]
    pub fn read(self, word: &[u8]) -> Option<u64>
        ensures { result ≡ number_of (radix self.base) 6 word.now }
    {
        match self.base {
            Base::Octal => read_octal(MOST_DIGITS, word),
            Base::Decimal => read_decimal(MOST_DIGITS, word),
        }
    }

    /// Returns whether a number is in the range.
    pub fn has(self, number: u64) -> bool
        ensures { result ≡ is_within self.low self.high number }
    {
        self.low <= number && number <= self.high
    }
}

/// The most digits that a number of a command has.
pub const MOST_DIGITS: usize = 6;

/// The channels that a script may set: those between the computer and the outside. Below them are L, Q and the two
/// halves of the scaler; 777 octal is the last that the nine bits of an order can name.
pub const CHANNELS: NumberRange = NumberRange {
    base: Base::Octal,
    low: FIRST_IO_CHANNEL as u64,
    high: LAST_IO_CHANNEL as u64,
};

/// The cells of bank 0 that pulses step: the counters from TIME2 to ALTM.
pub const COUNTERS: NumberRange = NumberRange {
    base: Base::Octal,
    low: 0o24,
    high: 0o60,
};

/// The numbers of the interrupts, from 1 for T6RUPT to 10 for RUPT10.
pub const INTERRUPTS: NumberRange = NumberRange {
    base: Base::Decimal,
    low: 1,
    high: 10,
};

/// The banks of erasable memory, eight of 400 octal words.
pub const BANKS: NumberRange = NumberRange {
    base: Base::Octal,
    low: 0,
    high: 0o7,
};

/// The patterns of a word, fifteen bits.
pub const PATTERNS: NumberRange = NumberRange {
    base: Base::Octal,
    low: 0,
    high: 0o77777,
};

/// The last offset in a bank of erasable memory.
const LAST_OFFSET: u64 = 0o377;

/// How many cells at the start of bank 0 are registers, from A to ZERO: no script may poke them.
const REGISTER_COUNT: u64 = 0o10;

/// Returns the offsets that a script may poke in a bank, if the bank is known.
#[tactic(auto, unfolding(crate::specs::Grammar::offsets_in))]
pub fn offsets(bank: Option<u64>) -> NumberRange
    ensures { result ≡ offsets_in bank }
{
    NumberRange {
        base: Base::Octal,
        low: if bank == Some(0) { REGISTER_COUNT } else { 0 },
        high: LAST_OFFSET,
    }
}
