//! Tests worked scripts: what they mean, and where and why they are rejected.
mod commands;
mod every;
mod faults;
mod grammar;
mod keys;
mod lines;
mod merges;
mod written;

use super::{equal, equal_at, parse};
use agc_script::{Event, FaultKind, Key, LAST_CYCLE, MOST_EVENTS, Script, ScriptFault, Tape, What};
use agc_word::{Narrow, Pulse};
use std::process::Abort;

/// Returns the events of a script in order.
fn listed(rt: &(impl Abort + AllocGlobal), script: &Script) -> Vec<Event> {
    let mut events = Vec::new(rt.alloc());
    for i in 0..script.len() {
        assert!(rt; events.push(script.at(i)).is_ok());
    }
    events
}

/// Returns the fault of a rejected file.
fn fault(rt: &(impl Abort + AllocGlobal), file: &[u8]) -> Option<ScriptFault> {
    Script::parse(rt.alloc(), file).err()
}

/// Checks that a script has these events.
fn has(rt: &(impl Abort + AllocGlobal), script: &Script, events: &[Event]) {
    equal(rt, listed(rt, script).as_slice(), events);
}

/// Checks that a file is a script of these events.
fn lists(rt: &(impl Abort + AllocGlobal), file: &[u8], events: &[Event]) {
    equal_at(rt, file, listed(rt, &parse(rt, file)).as_slice(), events);
}

fn event(cycle: u64, what: What) -> Event {
    Event { cycle, what }
}

fn raise(cycle: u64, number: u8) -> Event {
    event(cycle, What::Raise(number))
}

fn key(cycle: u64, key: Key) -> Event {
    event(cycle, What::Key(key))
}

/// Checks that each of these files is rejected at this line with this kind of fault.
fn refuses(rt: &(impl Abort + AllocGlobal), faults: &[(&[u8], usize, FaultKind)]) {
    for (file, line, kind) in faults {
        let (line, kind) = (*line, *kind);
        let wanted = Some(ScriptFault { line, kind });
        equal_at(rt, *file, fault(rt, file), wanted);
    }
}

/// Checks that each of these lines, separated by semicolons, is rejected with this kind of fault if it is the only
/// line.
fn refuses_each(rt: &(impl Abort + AllocGlobal), kind: FaultKind, lines: &[u8]) {
    for line in lines.split(|b| *b == b';') {
        let wanted = Some(ScriptFault { line: 1, kind });
        equal_at(rt, line, fault(rt, line), wanted);
    }
}

/// Checks that each of these files is accepted.
fn accepts(rt: &(impl Abort + AllocGlobal), files: &[&[u8]]) {
    for file in files {
        equal_at(rt, *file, fault(rt, file), None);
    }
}

/// Joins the parts of a file.
fn joined(rt: &(impl Abort + AllocGlobal), parts: &[&[u8]]) -> Vec<u8> {
    let mut file = Vec::new(rt.alloc());
    for part in parts {
        assert!(rt; file.extend_from_slice(part).is_ok());
    }
    file
}

/// Returns a file that repeats one line.
fn repeated(rt: &(impl Abort + AllocGlobal), line: &[u8], times: usize) -> Vec<u8> {
    let mut file = Vec::new(rt.alloc());
    for _ in 0..times {
        assert!(rt; file.extend_from_slice(line).is_ok());
    }
    file
}
