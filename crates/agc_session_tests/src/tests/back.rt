//! Tests how the console parses searches back and steps by calls. What it answers to them is in `tests/agc.d`.
use super::console::asks;
use agc_listing::Location;
use agc_repl::{BackCall, Command, Search, StepCall};
use agc_session::{CallStep, Condition};
use agc_word::Narrow;
use std::process::Abort;

/// Checks that a line searches back for this hit, counted from the last one, and that with `list` it lists what it drops.
fn searches(rt: &impl Abort, line: &[u8], what: Condition, count: u64) {
    let lists = line.starts_with(b"back list ".as_slice());
    asks(rt, line, Command::BackTo(Search { what, count, lists }));
}

#[test]
fn searches_are_read(rt: HostRuntime) {
    let order = Condition::Order(Location::Fixed(0o4001));
    let channel = Some(0o10);
    let word = Some(Narrow::with_bits(0o44017));
    searches(&rt, b"back step", Condition::Boundary, 1);
    searches(&rt, b"back step 12", Condition::Boundary, 12);
    searches(&rt, b"back list step 12", Condition::Boundary, 12);
    searches(&rt, b"back list until panel", Condition::Panel, 1);
    searches(&rt, b"back until 4001", order, 1);
    searches(&rt, b"back until cell 100", Condition::Cell(0o100), 1);
    searches(&rt, b"back until interrupt", Condition::Interrupt(None), 1);
    searches(&rt, b"back until panel", Condition::Panel, 1);
    let any = Condition::Write {
        channel,
        word: None,
    };
    searches(&rt, b"back until write 10", any, 1);
    let one = Condition::Write { channel, word };
    searches(&rt, b"back until write 10 44017", one, 1);
}

#[test]
fn searches_pass_over_hits(rt: HostRuntime) {
    let order = Condition::Order(Location::Fixed(0o4001));
    searches(&rt, b"back until 4001 ignore 1", order, 2);
    let any = Condition::Write {
        channel: Some(0o10),
        word: None,
    };
    searches(&rt, b"back until write 10 ignore 0", any, 1);
    let one = Condition::Write {
        channel: Some(0o10),
        word: Some(Narrow::with_bits(0o44017)),
    };
    searches(&rt, b"back until write 10 44017 ignore 2", one, 3);
    let interrupt = Condition::Interrupt(None);
    searches(&rt, b"back list until interrupt ignore 7", interrupt, 8);
}

#[test]
fn steps_by_calls_are_read(rt: HostRuntime) {
    let over = StepCall {
        step: CallStep::Over,
        job: None,
        within: 1_000_000,
    };
    asks(&rt, b"over", Command::StepCall(over));
    let finish = StepCall {
        step: CallStep::Finish,
        job: Some(0o100),
        within: 7,
    };
    asks(&rt, b"finish job 0100 within 7", Command::StepCall(finish));
    let back = BackCall {
        step: CallStep::Over,
        job: Some(0o100),
        lists: true,
    };
    asks(&rt, b"back list over job 100", Command::BackCall(back));
}
