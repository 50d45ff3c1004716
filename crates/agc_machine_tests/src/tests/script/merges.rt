//! Tests the tape of live keys, and its merge with a script.
use super::*;

/// Returns the script with the keys of a tape.
fn merge(rt: &(impl AllocGlobal + Abort), script: &Script, tape: &Tape) -> Script {
    script.merge(rt.alloc(), tape).ok().expect(rt, "room")
}

/// Checks that a script with the keys of a tape has these events.
fn merges(rt: &(impl AllocGlobal + Abort), script: &Script, tape: &Tape, events: &[Event]) {
    has(rt, &merge(rt, script, tape), events);
}

#[test]
fn command_line_tape(rt: HostRuntime) {
    let mut tape = Tape::new(rt.alloc());
    equal(&rt, tape.len(), 0);
    assert!(rt; tape.is_empty());
    assert!(rt; tape.push(5, Key::Verb).is_ok());
    equal(&rt, tape.len(), 1);
    assert!(rt; !tape.is_empty());
    equal(&rt, tape.at(0), (5, Key::Verb));
    assert!(rt; tape.push(6, Key::Noun).is_ok());
    equal(&rt, tape.len(), 2);
    equal(&rt, tape.at(0), (5, Key::Verb));
    equal(&rt, tape.at(1), (6, Key::Noun));
}

#[test]
fn live_keys_replay_merge(rt: HostRuntime) {
    let mut tape = Tape::new(rt.alloc());
    let script = parse(&rt, b"5 raise 1\n6 raise 2");
    assert!(rt; tape.push(5, Key::Verb).is_ok());
    let first = [raise(5, 1), key(5, Key::Verb), raise(6, 2)];
    merges(&rt, &script, &tape, &first);

    assert!(rt; tape.push(9, Key::Enter).is_ok());
    let both = [
        raise(5, 1),
        key(5, Key::Verb),
        raise(6, 2),
        key(9, Key::Enter),
    ];
    merges(&rt, &script, &tape, &both);
}

/// Keys before, between and after the events of a script, and a tape without keys.
#[test]
fn keys_between_events(rt: HostRuntime) {
    let mut tape = Tape::new(rt.alloc());
    let nothing = Script::empty(rt.alloc());
    assert!(rt; merge(&rt, &nothing, &tape).is_empty());

    assert!(rt; tape.push(0, Key::Verb).is_ok());
    assert!(rt; tape.push(6, Key::Three).is_ok());
    assert!(rt; tape.push(8, Key::Five).is_ok());
    assert!(rt; tape.push(LAST_CYCLE, Key::Enter).is_ok());
    let keys = [
        key(0, Key::Verb),
        key(6, Key::Three),
        key(8, Key::Five),
        key(LAST_CYCLE, Key::Enter),
    ];
    merges(&rt, &nothing, &tape, &keys);

    let script = parse(&rt, b"1 raise 1\n9 raise 2\n9 raise 3");
    let all = [
        key(0, Key::Verb),
        raise(1, 1),
        key(6, Key::Three),
        key(8, Key::Five),
        raise(9, 2),
        raise(9, 3),
        key(LAST_CYCLE, Key::Enter),
    ];
    merges(&rt, &script, &tape, &all);
}

#[test]
fn merge_limit(rt: HostRuntime) {
    let full = parse(&rt, b"every 1 0 65535 raise 1");
    let mut tape = Tape::new(rt.alloc());
    merges(&rt, &full, &tape, listed(&rt, &full).as_slice());
    assert!(rt; tape.push(5, Key::Verb).is_ok());
    let nearly = parse(&rt, b"every 1 0 65534 raise 1");
    equal(&rt, merge(&rt, &nearly, &tape).len(), MOST_EVENTS);
    let (line, kind) = (0, FaultKind::TooMany);
    let refused = full.merge(rt.alloc(), &tape).err();
    equal(&rt, refused, Some(ScriptFault { line, kind }));
}
