//! Parses one line of a script: no event, one, or a repeated one.
ghost use Rattle.std.specs.Prelude.{◌≡◌, ◌-◌, ◌*◌, ◌+◌, ◌≤◌, length, IfOk, IfErr, IfSome, ◌≢◌};
ghost use Rattle.std.specs.List.{list_any};
ghost use Rattle.agc_script.specs.Event.{IsWhatInRange, last_cycle, most_events};
ghost use Rattle.agc_word.specs.Text.{words_of};
ghost use Rattle.agc_script.specs.Line.{IsRepeatInRange, is_beyond_ascii, cycle_of, cycle_word};
ghost use Rattle.agc_script.specs.Line.{in_turn, once_of, repeat_of, every_of, within_bound};
ghost use Rattle.agc_script.specs.Line.{words_meaning, meaning_of};

use crate::command::{is_word, read_command};
use crate::event::{LAST_CYCLE, MOST_EVENTS, What};
use crate::fault::FaultKind;
use agc_word::next_word;

/// The most bytes that a line may have, without its line end.
pub const LONGEST_LINE: usize = 120;

/// The word that begins a line `every N FROM TO`, whose command is repeated.
pub const EVERY: &str = "every";

/// The most decimal digits of a cycle: as many as [`LAST_CYCLE`] has.
pub const MOST_CYCLE_DIGITS: usize = 13;

/// The events of one line: the same event at `start`, `start + period` and so on, `times` times.
#[derive(Clone, Copy, Debug, PartialEq, Eq)]
pub(crate) struct Repeat {
    pub start: u64,
    pub period: u64,
    pub times: u64,
    pub what: What,
}

/// Parses a line, or returns the lowest kind of fault in it. The last event line started at `last`,
/// and `before` events precede this line.
#[tactic(auto, unfolding(crate::specs::Line::meaning_of))]
pub(crate) fn read_line(last: u64, before: usize, line: &[u8]) -> Result<Option<Repeat>, FaultKind>
    requires { before ≤ most_events }
    ensures meaning { result ≡ meaning_of last before line.now }
    ensures kind { IfErr result (λ kind. kind ≢ FaultKind.Memory) }
    ensures range { IfOk result (λ parsed. IfSome parsed IsRepeatInRange) }
    ensures room { IfOk result
        (λ parsed. IfSome parsed (λ repeat. before + repeat.times ≤ most_events)) }
{
    if line.len() > LONGEST_LINE {
        Err(FaultKind::LineTooLong)
    } else if has_high_byte(line) {
        Err(FaultKind::NotAscii)
    } else {
        read_words(last, before, line)
    }
}

/// Returns whether a line has a byte beyond ASCII.
pub fn has_high_byte(line: &[u8]) -> bool
    ensures { result ≡ list_any is_beyond_ascii line.now }
{
    line.iter().any(|b| *b >= 0x80)
}

#[tactic(auto, unfolding(crate::specs::Line::words_meaning))]
fn read_words(last: u64, before: usize, line: &[u8]) -> Result<Option<Repeat>, FaultKind>
    requires { before ≤ most_events }
    ensures meaning { result ≡ words_meaning last before (words_of line.now) }
    ensures range { IfOk result (λ parsed. IfSome parsed IsRepeatInRange) }
    ensures room { IfOk result
        (λ parsed. IfSome parsed (λ repeat. before + repeat.times ≤ most_events)) }
{
    let Some((first, words)) = next_word(line) else {
        return Ok(None);
    };
    if let [b'#', ..] = first {
        return Ok(None);
    }
    let repeat = if is_word(first, EVERY) {
        read_every(last, words)?
    } else {
        read_once(last, first, words)?
    };
    bounded(before, repeat)
}

/// Returns the events of a line, if the script has room for them.
#[tactic(auto, unfolding(crate::specs::Line::within_bound))]
fn bounded(before: usize, repeat: Repeat) -> Result<Option<Repeat>, FaultKind>
    requires before { before ≤ most_events }
    requires range { IsRepeatInRange repeat }
    ensures bound { result ≡ within_bound before repeat }
    ensures range { IfOk result (λ parsed. IfSome parsed IsRepeatInRange) }
    ensures room { IfOk result
        (λ parsed. IfSome parsed (λ repeat. before + repeat.times ≤ most_events)) }
{
    if before as u64 + repeat.times > MOST_EVENTS as u64 {
        return Err(FaultKind::TooMany);
    }
    Ok(Some(repeat))
}

#[tactic(auto, unfolding(crate::specs::Line::once_of))]
fn read_once(last: u64, first: &[u8], words: &[u8]) -> Result<Repeat, FaultKind>
    ensures once { result ≡ once_of last first.now (words_of words.now) }
    ensures range { IfOk result IsRepeatInRange }
{
    let cycle = read_cycle_word(first)?;
    let start = start_in_turn(last, cycle)?;
    let what = read_command(words)?;
    Ok(Repeat {
        start,
        period: 1,
        times: 1,
        what,
    })
}

/// Reads a cycle: one to thirteen decimal digits, at most 1,000,000,000,000.
#[tactic(auto, unfolding(crate::specs::Line::cycle_of))]
pub fn read_cycle(word: &[u8]) -> Option<u64>
    ensures cycle { result ≡ cycle_of word.now }
    ensures range { IfSome result (λ cycle. cycle ≤ last_cycle) }
{
    agc_word::read_decimal(MOST_CYCLE_DIGITS, word).filter(|cycle| *cycle <= LAST_CYCLE)
}

/// Reads a cycle; any other word is a `BadCycle`.
#[tactic(auto, unfolding(crate::specs::Line::cycle_word))]
fn read_cycle_word(word: &[u8]) -> Result<u64, FaultKind>
    ensures cycle { result ≡ cycle_word word.now }
    ensures range { IfOk result (λ cycle. cycle ≤ last_cycle) }
{
    read_cycle(word).ok_or(FaultKind::BadCycle)
}

/// Returns the start of a line, unless it is before that of the last event line.
#[tactic(auto, unfolding(crate::specs::Line::in_turn))]
fn start_in_turn(last: u64, start: u64) -> Result<u64, FaultKind>
    ensures turn { result ≡ in_turn last start }
    ensures same { IfOk result (λ same. same ≡ start) }
{
    if start < last {
        Err(FaultKind::OutOfOrder)
    } else {
        Ok(start)
    }
}

#[tactic(auto, unfolding(crate::specs::Line::every_of))]
fn read_every(last: u64, words: &[u8]) -> Result<Repeat, FaultKind>
    ensures every { result ≡ every_of last (words_of words.now) }
    ensures range { IfOk result IsRepeatInRange }
{
    let (n, words) = next_word(words).ok_or(FaultKind::UnknownWord)?;
    let period = read_cycle_word(n)?;
    let (from, words) = next_word(words).ok_or(FaultKind::UnknownWord)?;
    let start = read_cycle_word(from)?;
    let Some((to, command)) = next_word(words) else {
        start_in_turn(last, start)?;
        return Err(FaultKind::UnknownWord);
    };
    let end = read_cycle_word(to)?;
    start_in_turn(last, start)?;
    let what = read_command(command)?;
    repeated(period, start, end, what)
}

/// Returns the repeated event, every `period` cycles from `start` to `end`.
#[tactic(auto, unfolding(crate::specs::Line::repeat_of))]
fn repeated(period: u64, start: u64, end: u64, what: What) -> Result<Repeat, FaultKind>
    requires end { end ≤ last_cycle }
    requires what { IsWhatInRange what }
    ensures repeat { result ≡ repeat_of period start end what }
    ensures range { IfOk result IsRepeatInRange }
{
    if period == 0 || end < start {
        return Err(FaultKind::OutOfRange);
    }
    Ok(Repeat {
        start,
        period,
        times: (end - start) / period + 1,
        what,
    })
}
