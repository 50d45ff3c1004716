//! Tests the tables of names and ranges against the words of the grammar.
use super::*;
use agc_script::{COUNTERS, Command, INTERRUPTS, direction_name, offsets};

/// Each command by its name, with its number of words; no other word names a command.
#[test]
fn names_of_commands(rt: HostRuntime) {
    for (name, command, count) in [
        ("key", Command::Key, 1),
        ("pro", Command::Pro, 1),
        ("input", Command::Input, 2),
        ("pulse", Command::Pulse, 2),
        ("raise", Command::Raise, 1),
        ("poke", Command::Poke, 3),
    ] {
        equal(&rt, Command::from_name(name.as_bytes()), Some(command));
        equal(&rt, command.name(), name);
        equal(&rt, command.argument_count(), count);
    }
    equal(&rt, Command::from_name(b"KEY"), None);
    equal(&rt, direction_name(true), "down");
    equal(&rt, Pulse::Shanc.name(), "shanc");
}

/// Counters are 24 to 60 octal, interrupts are written in decimal, and bank 0 can be poked from 10 on.
#[test]
fn ranges_of_numbers(rt: HostRuntime) {
    equal(
        &rt,
        Command::Pulse.ranges(None),
        [Some(COUNTERS), None, None],
    );
    equal(&rt, COUNTERS.read(b"60"), Some(0o60));
    assert!(rt; COUNTERS.has(0o24) && COUNTERS.has(0o60));
    assert!(rt; !COUNTERS.has(0o23) && !COUNTERS.has(0o61));
    equal(&rt, COUNTERS.read(b"8"), None);
    equal(&rt, INTERRUPTS.read(b"10"), Some(10));
    assert!(rt; offsets(Some(0)).has(0o10) && !offsets(Some(0)).has(0o7));
    assert!(rt; offsets(Some(1)).has(0) && offsets(None).has(0));
}
