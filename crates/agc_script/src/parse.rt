//! The parser: reads a file line by line and sorts the events by cycle.
ghost use Rattle.std.specs.Prelude.{◌≡◌, ◌≢◌, ◌+◌, ◌*◌, ◌<◌, ◌≤◌, [], ◌++◌, length, Ok, Err, IsOk};
ghost use Rattle.std.specs.Prelude.{IfOk, IfErr, OnOk, OnErr, All};
ghost use Rattle.std.specs.List.Sorted.{IsPermutation};
ghost use Rattle.agc_word.specs.Text.{lines_of};
ghost use Rattle.agc_script.specs.Event.{IsInRange, most_events};
ghost use Rattle.agc_script.specs.Fault.{AreFaultless, IsFirstFault};
ghost use Rattle.agc_script.specs.Line.{IsRepeatInRange};
ghost use Rattle.agc_script.specs.Parse.{events_of, taken, reading, arranged, script_of};
ghost use Rattle.agc_script.specs.Parse.{IsSoundLine};

use crate::event::Event;
use crate::fault::{FaultKind, ScriptFault};
use crate::line::{Repeat, read_line};
use agc_word::next_line;
use std::alloc::{AllocError, Global};

/// The events of a file's lines, and the number of lines.
#[derive(Drop)]
pub(crate) struct Reading {
    /// In the order of the lines.
    pub events: Vec<Event>,
    pub lines: usize,
}

/// Reads the lines of a file in order, up to the first that is refused.
pub(crate) fn read_lines(alloc: Global, file: &[u8]) -> Result<Reading, ScriptFault>
    ensures ok { IfOk result (λ read. reading 1 0 [] (lines_of file.now) ≡ Ok read.events.items) }
    ensures lines { IfOk result (λ read. read.lines ≡ length (lines_of file.now)) }
    ensures range { IfOk result (λ read. All IsInRange read.events.items) }
    ensures bound { IfOk result (λ read. length read.events.items ≤ most_events) }
    ensures faultless { IfOk result
        (λ _. AreFaultless (lines_of file.now) (length (lines_of file.now))) }
    ensures fault { IfErr result
        (λ fault. fault.kind ≢ FaultKind.Memory → script_of file.now ≡ Err fault) }
    ensures first_fault { IfErr result
        (λ fault. fault.kind ≢ FaultKind.Memory → IsFirstFault (lines_of file.now) fault) }
    ensures sound { IfErr result
        (λ fault. fault.kind ≡ FaultKind.Memory → AreFaultless (lines_of file.now) fault.line) }
    ensures memory { IfErr result
        (λ fault. fault.kind ≡ FaultKind.Memory → IsSoundLine file.now fault.line) }
{
    let mut events = Vec::new(alloc);
    let mut last = 0;
    let mut lines = 0;
    let mut rest = file;
    while let Some((line, after)) = next_line(rest) {
        lines += 1;
        match take_line(&mut events, last, line) {
            Ok(start) => last = start,
            Err(kind) => return Err(ScriptFault { line: lines, kind }),
        }
        rest = after;
    }
    Ok(Reading { events, lines })
}

/// Reads one more line, and returns the start that the next line is compared with.
#[tactic(auto, unfolding(crate::specs::Parse::taken))]
fn take_line(events: &mut Vec<Event>, last: u64, line: &[u8]) -> Result<u64, FaultKind>
    requires range { All IsInRange events.old.items }
    requires bound { length events.old.items ≤ most_events }
    ensures ok { IfOk result
        (λ start. taken last events.old.items line.now ≡ Ok (start, events.new.items)) }
    ensures range { OnOk result (All IsInRange events.new.items) }
    ensures bound { OnOk result (length events.new.items ≤ most_events) }
    ensures fault { IfErr result
        (λ kind. kind ≢ FaultKind.Memory → taken last events.old.items line.now ≡ Err kind) }
    ensures memory { IfErr result
        (λ kind. kind ≡ FaultKind.Memory → IsOk (taken last events.old.items line.now)) }
{
    match read_line(last, events.len(), line)? {
        None => Ok(last),
        Some(repeat) => {
            // The proof needs the type of `what` here.
            let _what = repeat.what;
            push_events(events, &repeat).map_err(|_| FaultKind::Memory)?;
            Ok(repeat.start)
        }
    }
}

/// Appends the events of a line to those of the lines before it.
#[tactic(auto, unfolding(crate::specs::Parse::events_of))]
fn push_events(events: &mut Vec<Event>, repeat: &Repeat) -> Result<(), AllocError>
    requires repeat { IsRepeatInRange repeat.now }
    requires range { All IsInRange events.old.items }
    ensures ok { OnOk result (events.new.items ≡ events.old.items ++ events_of repeat.now) }
    ensures range { OnOk result (All IsInRange events.new.items) }
    ensures len { OnOk result (length events.new.items
        ≡ length events.old.items + repeat.now.times) }
{
    events.reserve(repeat.times as usize)?;
    for i in 0..repeat.times {
        events.push(Event {
            cycle: repeat.start + i * repeat.period,
            what: repeat.what,
        })?;
    }
    Ok(())
}

/// Sorts the events by cycle; events of one cycle stay in the order of their lines.
pub(crate) fn arrange(events: &mut Vec<Event>) -> Result<(), AllocError>
    ensures ok { OnOk result (events.new.items ≡ arranged events.old.items) }
    ensures same { IsPermutation events.old.items events.new.items }
    ensures err { OnErr result (0 < length events.old.items) }
{
    events.sort_by_key(|event| event.cycle)
}
