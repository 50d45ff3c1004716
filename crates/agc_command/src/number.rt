//! Parses the numbers in commands: cycles, boundaries, channels and tables.
ghost use Rattle.std.specs.Prelude.{◌≡◌, ◌≤◌, None, IfOk};
ghost use Rattle.agc_panel.specs.WatchSpec.{watch_fault_of};
ghost use Rattle.agc_script.specs.Event.{last_cycle};
ghost use Rattle.agc_word.specs.Channels.{IsIoChannel, last_io_channel};
ghost use Rattle.agc_command.specs.Number.{
  channel_in,
  cycles_in,
  interrupt_in,
  interrupt_named,
  sound_spec,
  spec_in,
  word_in,
  written_channel_in,
};

use crate::fault::CommandFault;
use agc_listing::octal_word;
use agc_panel::WatchSpec;
use agc_processor::Rupt;
use agc_script::{MOST_DIGITS, read_cycle};
use agc_word::{FIRST_IO_CHANNEL, LAST_IO_CHANNEL, Narrow, read_octal};

/// The interrupts in the order of their numbers.
const INTERRUPTS: [Rupt; 10] = [
    Rupt::T6rupt,
    Rupt::T5rupt,
    Rupt::T3rupt,
    Rupt::T4rupt,
    Rupt::Keyrupt1,
    Rupt::Keyrupt2,
    Rupt::Uprupt,
    Rupt::Downrupt,
    Rupt::Radarupt,
    Rupt::Rupt10,
];

/// Parses a number of cycles or boundaries, in decimal.
#[tactic(auto, unfolding(crate::specs::Number::cycles_in))]
pub(crate) fn read_cycles(word: &[u8]) -> Result<u64, CommandFault>
    ensures cycles { result ≡ cycles_in word.now }
    ensures range { IfOk result (λ cycles. cycles ≤ last_cycle) }
{
    read_cycle(word).ok_or(CommandFault::BadNumber)
}

/// Parses a channel number, in octal.
#[tactic(auto, unfolding(crate::specs::Number::channel_in))]
pub(crate) fn read_channel(word: &[u8]) -> Result<u16, CommandFault>
    ensures channel { result ≡ channel_in word.now }
    ensures range { IfOk result (λ channel. channel ≤ last_io_channel) }
{
    match read_octal(MOST_DIGITS, word) {
        Some(channel) if channel <= u64::from(LAST_IO_CHANNEL) => Ok(channel as u16),
        _ => Err(CommandFault::BadChannel),
    }
}

/// Parses the number of a channel whose writes show, in octal.
#[tactic(auto, unfolding(crate::specs::Number::written_channel_in))]
pub(crate) fn read_written_channel(word: &[u8]) -> Result<u16, CommandFault>
    ensures channel { result ≡ written_channel_in word.now }
    ensures range { IfOk result IsIoChannel }
{
    match read_octal(MOST_DIGITS, word) {
        Some(channel)
            if u64::from(FIRST_IO_CHANNEL) <= channel && channel <= u64::from(LAST_IO_CHANNEL) =>
            Ok(channel as u16),
        _ => Err(CommandFault::NoWrites),
    }
}

/// Parses a word, in octal.
#[tactic(auto, unfolding(crate::specs::Number::word_in))]
pub(crate) fn read_word(word: &[u8]) -> Result<Narrow, CommandFault>
    ensures { result ≡ word_in word.now }
{
    octal_word(word).ok_or(CommandFault::BadWord)
}

/// Parses the name of an interrupt, as traces print it.
#[tactic(auto, unfolding(crate::specs::Number::interrupt_in))]
pub(crate) fn read_interrupt(word: &[u8]) -> Result<Rupt, CommandFault>
    ensures { result ≡ interrupt_in word.now }
{
    interrupt_named(word).ok_or(CommandFault::BadInterrupt)
}

#[tactic(auto, unfolding(crate::specs::Number::interrupt_named))]
fn interrupt_named(word: &[u8]) -> Option<Rupt>
    ensures { result ≡ interrupt_named word.now }
{
    INTERRUPTS
        .iter()
        .copied()
        .find(|rupt| rupt.name().as_bytes() == word)
}

/// Parses the places of the tables to watch, and checks that they can be watched.
#[tactic(auto, unfolding(crate::specs::Number::spec_in))]
pub(crate) fn read_spec(word: &[u8]) -> Result<WatchSpec, CommandFault>
    ensures spec { result ≡ spec_in word.now }
    ensures sound { IfOk result (λ spec. watch_fault_of spec ≡ None) }
{
    let Ok(text) = str::from_utf8(word) else {
        return Err(CommandFault::BadSpec);
    };
    match WatchSpec::read(text) {
        Some(spec) => sound_spec(spec),
        None => Err(CommandFault::BadSpec),
    }
}

/// Returns the spec if its tables can be watched.
#[tactic(auto, unfolding(crate::specs::Number::sound_spec))]
fn sound_spec(spec: WatchSpec) -> Result<WatchSpec, CommandFault>
    ensures spec { result ≡ sound_spec spec }
    ensures sound { IfOk result (λ spec. watch_fault_of spec ≡ None) }
{
    match spec.fault() {
        Some(fault) => Err(CommandFault::Watch(fault)),
        None => Ok(spec),
    }
}
