//! Tests the commands: what they mean, and the numbers that they accept.
use super::*;

#[test]
fn commands(rt: HostRuntime) {
    let file = b"0 key VERB
1 pro down
2 pro up
3 input 777 77777
4 pulse 24 pinc
5 pulse 60 shanc
6 raise 010
7 poke 7 377 40000
1000000000000 poke 0 10 000000";
    let input = What::Input {
        channel: 0o777,
        value: Narrow::with_bits(0o77777),
    };
    lists(
        &rt,
        file,
        &[
            key(0, Key::Verb),
            event(1, What::Pro(true)),
            event(2, What::Pro(false)),
            event(3, input),
            pulse(4, 0o24, Pulse::Pinc),
            pulse(5, 0o60, Pulse::Shanc),
            raise(6, 10),
            poke(7, 7, 0o377, Narrow::with_bits(0o40000)),
            poke(LAST_CYCLE, 0, 0o10, Narrow::PLUS_ZERO),
        ],
    );
}

fn pulse(cycle: u64, counter: u16, kind: Pulse) -> Event {
    event(cycle, What::Pulse { counter, kind })
}

fn poke(cycle: u64, bank: u8, offset: u16, value: Narrow) -> Event {
    let what = What::Poke {
        bank,
        offset,
        value,
    };
    event(cycle, what)
}

/// The events from a place on: from the first, from the last, and past it.
#[test]
fn events_from_a_place(rt: HostRuntime) {
    let script = parse(&rt, b"1 raise 1\n2 raise 2");
    equal(&rt, script.rest(0), &[raise(1, 1), raise(2, 2)]);
    equal(&rt, script.rest(1), &[raise(2, 2)]);
    assert!(rt; script.rest(2).is_empty());
    assert!(rt; script.rest(3).is_empty());
}

/// Each kind of pulse by its name.
#[test]
fn pulse_kinds(rt: HostRuntime) {
    lists(&rt, b"0 pulse 45 pinc", &[pulse(0, 0o45, Pulse::Pinc)]);
    lists(&rt, b"0 pulse 45 minc", &[pulse(0, 0o45, Pulse::Minc)]);
    lists(&rt, b"0 pulse 45 pcdu", &[pulse(0, 0o45, Pulse::Pcdu)]);
    lists(&rt, b"0 pulse 45 mcdu", &[pulse(0, 0o45, Pulse::Mcdu)]);
    lists(&rt, b"0 pulse 45 shinc", &[pulse(0, 0o45, Pulse::Shinc)]);
    lists(&rt, b"0 pulse 45 shanc", &[pulse(0, 0o45, Pulse::Shanc)]);
}

/// The first and the last number of each range, and their neighbours.
#[test]
fn ranges(rt: HostRuntime) {
    accepts(
        &rt,
        &[
            b"0 input 5 0\n0 input 777 77777",
            b"0 pulse 24 pinc\n0 pulse 60 pinc",
            b"0 raise 1\n0 raise 10",
            b"0 poke 0 10 0\n0 poke 0 377 77777\n0 poke 1 0 0\n0 poke 7 377 77777",
        ],
    );
    let inputs = b"0 input 0 0; 0 input 4 0; 0 input 1000 0; 0 input 5 100000";
    refuses_each(&rt, FaultKind::OutOfRange, inputs);
    let others = b"0 pulse 23 pinc; 0 pulse 61 pinc; 0 raise 0; 0 raise 11";
    refuses_each(&rt, FaultKind::OutOfRange, others);
    let pokes = b"0 poke 0 7 0; 0 poke 0 400 0; 0 poke 10 0 0; 0 poke 7 400 0; 0 poke 1 0 100000";
    refuses_each(&rt, FaultKind::OutOfRange, pokes);
}

/// How many digits a number may have, and which bytes are digits.
#[test]
fn numbers(rt: HostRuntime) {
    accepts(
        &rt,
        &[
            b"0000000000005 raise 000010\n5 input 000777 077777",
            b"every 0000000000001 0000000000000 0000000000002 raise 1",
        ],
    );
    let cycles = b"00000000000005 raise 1; 9999999999999 raise 1; -1 raise 1; 1.0 raise 1; raise 1";
    refuses_each(&rt, FaultKind::BadCycle, cycles);
    let raised = b"0 raise 0000010; 0 raise -1; 0 raise a";
    refuses_each(&rt, FaultKind::BadNumber, raised);
    let octal = b"0 input 0000777 0; 0 input 30 8; 0 pulse 38 pinc; 0 poke 1 0o10 0";
    refuses_each(&rt, FaultKind::BadNumber, octal);
}
