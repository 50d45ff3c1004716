//! The events of a script: what reaches the computer from outside, and when.
use crate::key::Key;
use agc_word::{Narrow, Pulse};

/// The latest machine cycle that an event may have. A cycle takes 11.7 microseconds, so this is
/// after some 135 days; no run goes further.
pub const LAST_CYCLE: u64 = 1_000_000_000_000;

/// The most events that a script may have.
pub const MOST_EVENTS: usize = 65_536;

/// Something that happens from outside; the machine takes it between two orders.
#[derive(Clone, Copy, Debug, PartialEq, Eq)]
pub enum What {
    /// A key of the keyboard is pressed: its code goes into channel 15 octal, and KEYRUPT1 is
    /// requested.
    Key(Key),
    /// The PRO key goes down if true, up if false: bit 14 of channel 32 octal.
    Pro(bool),
    /// A channel, 5 to 777 octal, gets a word.
    Input {
        channel: u16,
        value: Narrow,
    },
    /// A counter, cell 24 to 60 octal of bank 0, gets a pulse of any kind but `Dinc`.
    Pulse {
        counter: u16,
        kind: Pulse,
    },
    /// An interrupt is requested by its number, 1 (T6RUPT) to 10 (RUPT10).
    Raise(u8),
    /// A cell of erasable memory gets a word: bank 0 to 7, offset 0 to 377 octal, in bank 0 from
    /// 10 octal on.
    Poke {
        bank: u8,
        offset: u16,
        value: Narrow,
    },
}

/// One event of a script.
#[derive(Clone, Copy, Debug, PartialEq, Eq)]
pub struct Event {
    /// The machine cycle from which the event is due, at most 1,000,000,000,000.
    pub cycle: u64,
    /// What happens then.
    pub what: What,
}
