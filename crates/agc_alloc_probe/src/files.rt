//! Probes the calls that read a rope or a script, and the calls on tapes.
use crate::call::Call;
use crate::report::{Attempt, answered, begin, no_input, refused, wrong};
use agc_script::{Event, FaultKind, Key, Script, ScriptFault, Tape, What};
use agc_store::{Rope, RopeFault, RopeForm, Store};
use std::alloc::Global;
use std::io::{self, Write};

/// TCF 4000, with an even and with an odd number of bits.
const IDLE: [u8; 2] = [0x30, 0x00];

const ODD_IDLE: [u8; 2] = [0x30, 0x01];

/// The word of TCF 4000.
const TCF: u16 = 0o14000;

/// Two keys.
const TWO_KEYS: [u8; 15] = *b"5 key 1\n6 key 2";

/// Requests that alternate, and a line that is not an event.
const REQUESTS: [u8; 47] = *b"every 2 0 98 raise 8\nevery 2 1 99 raise 1\n# end";

/// Probes `Rope::read` on one word.
pub fn read_rope<W: Write>(alloc: Global, out: &mut W) -> io::Result<Attempt> {
    let bytes = IDLE;
    begin(out, Call::RopeRead)?;
    match Rope::read(alloc, &bytes) {
        Ok(rope) => answered(out, Store::new(rope).fixed(2, 0).bits() == TCF),
        Err(RopeFault::Memory) => refused(out, "Memory", bytes == IDLE),
        Err(_) => wrong(out),
    }
}

/// Probes `Rope::read_as` on one word in the parity form.
pub fn read_rope_as<W: Write>(alloc: Global, out: &mut W) -> io::Result<Attempt> {
    let bytes = ODD_IDLE;
    begin(out, Call::RopeReadAs)?;
    match Rope::read_as(alloc, RopeForm::Parity, &bytes) {
        Ok(rope) => answered(out, Store::new(rope).fixed(0, 0).bits() == TCF),
        Err(RopeFault::Memory) => refused(out, "Memory", bytes == ODD_IDLE),
        Err(_) => wrong(out),
    }
}

/// Probes `Script::parse` on two keys.
pub fn parse_keys<W: Write>(alloc: Global, out: &mut W) -> io::Result<Attempt> {
    let bytes = TWO_KEYS;
    let events = [key(5, Key::One), key(6, Key::Two)];
    parse(alloc, out, Call::ScriptParse, &bytes, &TWO_KEYS, &events)
}

/// Probes `Script::parse` on two lines whose events are sorted after a third.
pub fn parse_every<W: Write>(alloc: Global, out: &mut W) -> io::Result<Attempt> {
    let bytes = REQUESTS;
    let events = raised_in_turn();
    parse(
        alloc,
        out,
        Call::ScriptParseEvery,
        &bytes,
        &REQUESTS,
        &events,
    )
}

/// Returns a hundred requests a cycle apart, alternately of 8 and of 1.
fn raised_in_turn() -> [Event; 100] {
    let mut events = [raise(0, 8); 100];
    for i in 0..100usize {
        events[i] = raise(i as u64, if i % 2 == 0 { 8 } else { 1 });
    }
    events
}

/// Parses a file whose bytes were `before`, and checks for these events.
fn parse<W: Write>(
    alloc: Global,
    out: &mut W,
    call: Call,
    file: &[u8],
    before: &[u8],
    events: &[Event],
) -> io::Result<Attempt> {
    begin(out, call)?;
    match Script::parse(alloc, file) {
        Ok(script) => answered(out, is_script(&script, events)),
        Err(
            ScriptFault {
                line,
                kind: FaultKind::Memory,
            },
        ) => refused(out, memory_of_line(line), file == before),
        Err(_) => wrong(out),
    }
}

/// Probes `Script::merge` of two events with a tape of one key.
pub fn merge_tape<W: Write>(alloc: Global, out: &mut W) -> io::Result<Attempt> {
    let Ok(script) = Script::parse(alloc, b"5 raise 1\n6 raise 2") else {
        return no_input(out);
    };
    let mut tape = Tape::new(alloc);
    let Ok(()) = tape.push(5, Key::Verb) else {
        return no_input(out);
    };
    begin(out, Call::ScriptMerge)?;
    match script.merge(alloc, &tape) {
        Ok(merged) => answered(
            out,
            is_script(&merged, &[raise(5, 1), key(5, Key::Verb), raise(6, 2)]),
        ),
        Err(
            ScriptFault {
                line,
                kind: FaultKind::Memory,
            },
        ) => refused(
            out,
            memory_of_line(line),
            is_script(&script, &[raise(5, 1), raise(6, 2)]) && is_verb(&tape),
        ),
        Err(_) => wrong(out),
    }
}

/// Probes `Tape::push` on an empty tape.
pub fn push_key<W: Write>(alloc: Global, out: &mut W) -> io::Result<Attempt> {
    let mut tape = Tape::new(alloc);
    begin(out, Call::TapePush)?;
    match tape.push(5, Key::Verb) {
        Ok(()) => answered(out, is_verb(&tape)),
        Err(_) => {
            let kept = tape.len() == 0;
            refused(out, "AllocError", kept)
        }
    }
}

fn key(cycle: u64, key: Key) -> Event {
    Event {
        cycle,
        what: What::Key(key),
    }
}

fn raise(cycle: u64, number: u8) -> Event {
    Event {
        cycle,
        what: What::Raise(number),
    }
}

/// Returns whether a script has these events.
fn is_script(script: &Script, events: &[Event]) -> bool {
    script.len() == events.len() && (0..script.len()).all(|i| Some(&script.at(i)) == events.get(i))
}

/// Returns whether a tape has only VERB at cycle 5.
fn is_verb(tape: &Tape) -> bool {
    tape.len() == 1 && tape.at(0) == (5, Key::Verb)
}

/// Returns the name of the out-of-memory fault of a script, with its line.
fn memory_of_line(line: usize) -> &'static str {
    match line {
        0 => "line 0: Memory",
        1 => "line 1: Memory",
        2 => "line 2: Memory",
        3 => "line 3: Memory",
        _ => "another line: Memory",
    }
}
