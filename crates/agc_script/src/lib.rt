//! Scripts: the events that reach the computer from outside, the tape of live keys, and the merge of both.
#![tactic(auto)]

mod alike;
mod command;
mod event;
mod fault;
mod grammar;
mod key;
pub mod laws;
mod line;
mod merge;
mod parse;
mod script;
mod tape;
mod written;

pub use alike::begin_alike;
pub use command::read_command;
pub use event::{Event, LAST_CYCLE, MOST_EVENTS, What};
pub use fault::{FaultKind, ScriptFault};
pub use grammar::{
    BANKS, Base, CHANNELS, COUNTERS, Command, DIRECTIONS, INTERRUPTS, MOST_ARGUMENTS, MOST_DIGITS,
    NumberRange, PATTERNS, PULSES, direction_name, offsets,
};
pub use key::Key;
pub use line::{EVERY, LONGEST_LINE, MOST_CYCLE_DIGITS, has_high_byte, read_cycle};
pub use script::Script;
pub use tape::Tape;
pub use written::push_what;
