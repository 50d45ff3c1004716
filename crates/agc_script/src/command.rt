//! Parses the commands of a script, or returns the lowest kind of fault in their words.
ghost use Rattle.std.specs.Prelude.{◌≡◌, IfOk, MatchOption, Some, None, ◌≢◌};
ghost use Rattle.std.specs.Str.{bytes_eq};
ghost use Rattle.agc_word.specs.Text.{words_of};
ghost use Rattle.agc_script.specs.Event.{IsWhatInRange};
ghost use Rattle.agc_script.specs.Command.{one_of, two_of, three_of, number_in, key_of, pro_of};
ghost use Rattle.agc_script.specs.Command.{input_event, input_of, pulse_event, pulse_of, raise_event};
ghost use Rattle.agc_script.specs.Command.{raise_of, poke_event, poke_of_words, command_of};

use crate::event::What;
use crate::fault::FaultKind;
use crate::grammar::{
    BANKS, CHANNELS, COUNTERS, Command, INTERRUPTS, NumberRange, PATTERNS, direction_from_name,
    offsets, pulse_from_name,
};
use crate::key::Key;
use agc_word::{Narrow, Pulse, next_word};

/// Parses a command and its arguments, the part of a script line after the cycle. An error is the
/// lowest kind of fault in the words, in the order of [`FaultKind`].
#[tactic(auto, unfolding(crate::specs::Command::command_of, crate::specs::Command::parsed_by))]
pub fn read_command(text: &[u8]) -> Result<What, FaultKind>
    ensures command { result ≡ command_of (words_of text.now) }
    ensures range { IfOk result IsWhatInRange }
{
    let (name, words) = next_word(text).ok_or(FaultKind::UnknownWord)?;
    match Command::from_name(name).ok_or(FaultKind::UnknownWord)? {
        Command::Key => read_key(words),
        Command::Pro => read_pro(words),
        Command::Input => read_input(words),
        Command::Pulse => read_pulse(words),
        Command::Raise => read_raise(words),
        Command::Poke => read_poke(words),
    }
}

#[tactic(auto, unfolding(crate::specs::Command::key_of, crate::specs::Event::IsWhatInRange))]
fn read_key(words: &[u8]) -> Result<What, FaultKind>
    ensures key { result ≡ key_of (words_of words.now) }
    ensures range { IfOk result IsWhatInRange }
{
    let name = one_word(words).ok_or(FaultKind::UnknownWord)?;
    let key = Key::from_name(name).ok_or(FaultKind::UnknownWord)?;
    Ok(What::Key(key))
}

#[tactic(auto, unfolding(crate::specs::Command::pro_of, crate::specs::Event::IsWhatInRange))]
fn read_pro(words: &[u8]) -> Result<What, FaultKind>
    ensures pro { result ≡ pro_of (words_of words.now) }
    ensures range { IfOk result IsWhatInRange }
{
    let name = one_word(words).ok_or(FaultKind::UnknownWord)?;
    let down = direction_from_name(name).ok_or(FaultKind::UnknownWord)?;
    Ok(What::Pro(down))
}

#[tactic(auto, unfolding(crate::specs::Command::input_of))]
fn read_input(words: &[u8]) -> Result<What, FaultKind>
    ensures input { result ≡ input_of (words_of words.now) }
    ensures range { IfOk result IsWhatInRange }
{
    let (channel, value) = two_words(words).ok_or(FaultKind::UnknownWord)?;
    let channel = number_argument(CHANNELS, channel)?;
    let value = number_argument(PATTERNS, value)?;
    input_event(channel, value)
}

/// Returns the input of a value into a channel, if both are in range.
#[tactic(auto, unfolding(crate::specs::Command::input_event, crate::specs::Event::IsWhatInRange))]
fn input_event(channel: u64, value: u64) -> Result<What, FaultKind>
    ensures input { result ≡ input_event channel value }
    ensures range { IfOk result IsWhatInRange }
{
    if !CHANNELS.has(channel) || !PATTERNS.has(value) {
        return Err(FaultKind::OutOfRange);
    }
    Ok(What::Input {
        channel: channel as u16,
        value: Narrow::with_bits(value as u16),
    })
}

#[tactic(auto, unfolding(crate::specs::Command::pulse_of))]
fn read_pulse(words: &[u8]) -> Result<What, FaultKind>
    ensures pulse { result ≡ pulse_of (words_of words.now) }
    ensures range { IfOk result IsWhatInRange }
{
    let (counter, kind) = two_words(words).ok_or(FaultKind::UnknownWord)?;
    let kind = pulse_from_name(kind).ok_or(FaultKind::UnknownWord)?;
    let counter = number_argument(COUNTERS, counter)?;
    pulse_event(kind, counter)
}

/// Returns the pulse of a counter, if the counter is in range.
#[tactic(auto, unfolding(crate::specs::Command::pulse_event, crate::specs::Event::IsWhatInRange))]
fn pulse_event(kind: Pulse, counter: u64) -> Result<What, FaultKind>
    requires { kind ≢ Pulse.Dinc }
    ensures pulse { result ≡ pulse_event kind counter }
    ensures range { IfOk result IsWhatInRange }
{
    if !COUNTERS.has(counter) {
        return Err(FaultKind::OutOfRange);
    }
    Ok(What::Pulse {
        counter: counter as u16,
        kind,
    })
}

#[tactic(auto, unfolding(crate::specs::Command::raise_of))]
fn read_raise(words: &[u8]) -> Result<What, FaultKind>
    ensures raise { result ≡ raise_of (words_of words.now) }
    ensures range { IfOk result IsWhatInRange }
{
    let number = one_word(words).ok_or(FaultKind::UnknownWord)?;
    let number = number_argument(INTERRUPTS, number)?;
    raise_event(number)
}

/// Returns the request of an interrupt, if its number is in range.
#[tactic(auto, unfolding(crate::specs::Command::raise_event, crate::specs::Event::IsWhatInRange))]
fn raise_event(number: u64) -> Result<What, FaultKind>
    ensures raise { result ≡ raise_event number }
    ensures range { IfOk result IsWhatInRange }
{
    if !INTERRUPTS.has(number) {
        return Err(FaultKind::OutOfRange);
    }
    Ok(What::Raise(number as u8))
}

#[tactic(auto, unfolding(crate::specs::Command::poke_of_words))]
fn read_poke(words: &[u8]) -> Result<What, FaultKind>
    ensures poke { result ≡ poke_of_words (words_of words.now) }
    ensures range { IfOk result IsWhatInRange }
{
    let (bank, offset, value) = three_words(words).ok_or(FaultKind::UnknownWord)?;
    let bank = number_argument(BANKS, bank)?;
    let offset = number_argument(offsets(Some(bank)), offset)?;
    let value = number_argument(PATTERNS, value)?;
    poke_event(bank, offset, value)
}

/// Returns the write of a value into a cell, if all three numbers are in range.
#[tactic(auto, unfolding(crate::specs::Command::poke_event, crate::specs::Event::IsWhatInRange))]
fn poke_event(bank: u64, offset: u64, value: u64) -> Result<What, FaultKind>
    ensures poke { result ≡ poke_event bank offset value }
    ensures range { IfOk result IsWhatInRange }
{
    if !BANKS.has(bank) || !offsets(Some(bank)).has(offset) || !PATTERNS.has(value) {
        return Err(FaultKind::OutOfRange);
    }
    Ok(What::Poke {
        bank: bank as u8,
        offset: offset as u16,
        value: Narrow::with_bits(value as u16),
    })
}

/// Returns whether a word is this one.
pub(crate) fn is_word(word: &[u8], name: &str) -> bool
    ensures { result ≡ bytes_eq word.now name.now }
{
    word == name.as_bytes()
}

/// Returns the word of a text that has exactly one.
#[tactic(auto, unfolding(crate::specs::Command::one_of))]
fn one_word(text: &[u8]) -> Option<&[u8]>
    ensures { MatchOption result (one_of (words_of text.now) ≡ None)
        (λ w. one_of (words_of text.now) ≡ Some w.now) }
{
    let (word, rest) = next_word(text)?;
    match next_word(rest) {
        None => Some(word),
        Some(_) => None,
    }
}

/// Returns the words of a text that has exactly two.
#[tactic(auto, unfolding(crate::specs::Command::two_of))]
fn two_words(text: &[u8]) -> Option<(&[u8], &[u8])>
    ensures { MatchOption result (two_of (words_of text.now) ≡ None)
        (λ w. two_of (words_of text.now) ≡ Some (w.0.now, w.1.now)) }
{
    let (first, rest) = next_word(text)?;
    let second = one_word(rest)?;
    Some((first, second))
}

/// Returns the words of a text that has exactly three.
#[tactic(auto, unfolding(crate::specs::Command::three_of))]
fn three_words(text: &[u8]) -> Option<(&[u8], &[u8], &[u8])>
    ensures { MatchOption result (three_of (words_of text.now) ≡ None)
        (λ w. three_of (words_of text.now) ≡ Some (w.0.now, w.1.now, w.2.now)) }
{
    let (first, rest) = next_word(text)?;
    let (second, third) = two_words(rest)?;
    Some((first, second, third))
}

/// Reads a number in the base of its range; any other word is a `BadNumber`.
#[tactic(auto, unfolding(crate::specs::Command::number_in))]
fn number_argument(range: NumberRange, word: &[u8]) -> Result<u64, FaultKind>
    ensures { result ≡ number_in range.base word.now }
{
    range.read(word).ok_or(FaultKind::BadNumber)
}
