//! Tests scripts that grow, are joined, and are printed.
use super::*;
use agc_script::push_what;

/// A line for each event; numbers in octal without leading zeros, words in five digits, cycles and interrupts in
/// decimal. An `every` is printed event by event.
#[test]
fn each_event_is_a_line(rt: HostRuntime) {
    let script = parse(
        &rt,
        b"0 key KEYREL\n3 pro down\n3 pro up\n7 input 033 00005\n8 pulse 24 mcdu\n9 raise 010\n\
        10 poke 3 0100 77777\nevery 5 11 17 key 0\n1000000000000 key +\n",
    );
    let mut text = String::new(rt.alloc());
    assert!(rt; script.push_text(&mut text).is_ok());
    let want = "0 key KEYREL\n3 pro down\n3 pro up\n7 input 33 00005\n8 pulse 24 mcdu\n9 raise 10\n\
        10 poke 3 100 77777\n11 key 0\n16 key 0\n1000000000000 key +\n";
    equal(&rt, text.as_str(), want);
    let again = parse(&rt, text.as_bytes());
    has(&rt, &again, listed(&rt, &script).as_slice());
}

#[test]
fn a_command_is_written_without_its_cycle(rt: HostRuntime) {
    let mut text = String::new(rt.alloc());
    assert!(rt; push_what(&mut text, What::Raise(5)).is_ok());
    equal(&rt, text.as_str(), "raise 5");
}

/// Events of one cycle stay in the order in which they were added.
#[test]
#[tactic(auto, unfolding(agc_script::specs::Event::IsWhatInRange))]
fn events_are_added_after_the_last(rt: HostRuntime) {
    let mut script = Script::empty(rt.alloc());
    assert!(rt; script.push(4, What::Raise(9)).is_ok());
    assert!(rt; script.push(4, What::Key(Key::Verb)).is_ok());
    assert!(rt; script.push(6, What::Raise(1)).is_ok());
    let want = [raise(4, 9), key(4, Key::Verb), raise(6, 1)];
    has(&rt, &script, &want);
}

/// Each injected event comes after the script's events of its cycle, and injected events of one cycle keep their
/// order.
#[test]
fn given_events_come_after_those_of_their_cycle(rt: HostRuntime) {
    let script = parse(&rt, b"5 raise 1\n6 raise 2");
    let given = parse(&rt, b"0 raise 7\n5 raise 3\n5 raise 4\n9 raise 5");
    let joined = script.join(rt.alloc(), &given).expect(&rt, "room");
    let want = [
        raise(0, 7),
        raise(5, 1),
        raise(5, 3),
        raise(5, 4),
        raise(6, 2),
        raise(9, 5),
    ];
    has(&rt, &joined, &want);
}

#[test]
fn a_script_before_a_cycle_ends_before_it(rt: HostRuntime) {
    let script = parse(&rt, b"5 raise 1\n6 raise 2\n6 raise 3\n7 raise 4");
    let early = script.before(rt.alloc(), 6).expect(&rt, "memory");
    has(&rt, &early, &[raise(5, 1)]);
    let all = script.before(rt.alloc(), 8).expect(&rt, "memory");
    equal(&rt, all.len(), 4);
}
