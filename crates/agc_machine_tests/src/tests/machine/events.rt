//! Tests events from outside: keys, inputs, pulses, and the channels that show them.
use super::*;
use agc_script::{Key, Tape, What};
use agc_test_support::IDLE;
use agc_word::Pulse;

/// KEYRUPT1 is taken at cycle 0 before INHINT runs; RESUME at 3, INHINT at 5, TCF 4001 from 6 on.
#[test]
fn key_interrupt(rt: HostRuntime) {
    let listing = "
4000 00004 INHINT
4001 14001 TCF 4001
4024 50017 RESUME";
    let machine = run(&rt, listing, "0 key VERB", 10);
    equal(&rt, cell(&machine, 0o15), 0o04001);
    equal(&rt, cell(&machine, 0o17), 0o00004);
    equal(&rt, channel(&machine, 0o15), 0o00021);
}

/// A live key is taken at once, at cycle 0, and its interrupt (3 cycles) follows. No key is wanted while an event is
/// due, nor at the limit.
#[test]
fn live_key(rt: HostRuntime) {
    let mut machine = machine(&rt, IDLE, "0 pro down", 3);
    equal(&rt, machine.wants_key(), false);
    quiet(&rt, &mut machine);
    assert!(rt; machine.wants_key());
    equal(&rt, machine.step(Some(Key::Verb)), Stepped::Quiet);
    equal(
        &rt,
        (machine.cycle(), channel(&machine, 0o15)),
        (0, 0o00021),
    );
    quiet(&rt, &mut machine);
    equal(&rt, (machine.cycle(), cell(&machine, 0o15)), (3, 0o04001));
    equal(&rt, machine.wants_key(), false);
    equal(&rt, machine.step(None), Stepped::Stopped(Stop::Limit));
}

/// An injected event happens at once, as an event of the present cycle: PRO clears bit 14 of channel 32 and takes no
/// cycle, nor does a request; a pulse counts its cell up and takes one.
#[test]
#[tactic(auto, unfolding(agc_script::specs::Event::IsWhatInRange))]
fn given_events_happen_at_once(rt: HostRuntime) {
    let mut machine = machine(&rt, IDLE, "", 10);
    assert!(rt; machine.wants_key());
    machine.inject(What::Pro(true));
    equal(
        &rt,
        (machine.cycle(), channel(&machine, 0o32)),
        (0, 0o57777),
    );
    assert!(rt; machine.wants_key());
    machine.inject(What::Raise(9));
    equal(&rt, machine.cycle(), 0);
    assert!(rt; machine.wants_key());
    let (counter, kind) = (0o40, Pulse::Pinc);
    machine.inject(What::Pulse { counter, kind });
    equal(&rt, (machine.cycle(), cell(&machine, 0o40)), (1, 0o00001));
    assert!(rt; machine.wants_key());
}

/// Another run of the same rope begins at cycle 0 with its own events.
#[test]
fn a_machine_begins_anew(rt: HostRuntime) {
    let mut machine = machine(&rt, IDLE, "0 pro down", 5);
    stopped(&rt, &mut machine, Stop::Limit, 5);
    let restart_with = machine.restart_with(parse(&rt, b"2 raise 1"));
    equal(&rt, (restart_with.cycle(), restart_with.fresh()), (0, true));
    equal(&rt, channel(&restart_with, 0o32), 0o77777);
    equal(&rt, restart_with.events_left().len(), 1);
}

/// The event of cycle 0 comes first. At cycle 4, after four one-cycle orders, the other event is still pending, and
/// comes at the next boundary.
#[test]
fn events_are_left_until_they_are_met(rt: HostRuntime) {
    let mut machine = machine(&rt, IDLE, "0 pro down\n4 pro up\n", 10);
    equal(&rt, machine.events_left().len(), 2);
    quiet(&rt, &mut machine);
    for cycle in 0..5 {
        equal(&rt, machine.cycle(), cycle);
        equal(&rt, machine.events_left().len(), 1);
        let next = machine.events_left().first().map(|event| event.cycle);
        equal(&rt, next, Some(4));
        quiet(&rt, &mut machine);
    }
    equal(&rt, machine.cycle(), 4);
    assert!(rt; machine.events_left().is_empty());
}

/// PRO is bit 14 of channel 32, which is 0 while PRO is down, and no other bit.
#[test]
fn pro_key(rt: HostRuntime) {
    let script = "0 pro down\n0 pro up\n0 input 32 0\n0 pro up\n";
    let mut machine = machine(&rt, IDLE, script, 10);
    for word in [0o57777, 0o77777, 0o00000, 0o20000] {
        quiet(&rt, &mut machine);
        equal(&rt, channel(&machine, 0o32), word);
    }
    equal(&rt, machine.cycle(), 0);
}

/// Only the shift that carries requests UPRUPT on INLINK (45): RNRAD (46) carries at 0, INLINK at 10. Pulses take a
/// cycle, so the interrupt begins at 11, and the service at 4034 is in hand at 14.
#[test]
fn uprupt_by_a_shift(rt: HostRuntime) {
    let script = "0 poke 0 46 40000\n0 pulse 46 shinc\n10 poke 0 45 40001\n10 pulse 45 shanc\n";
    let fresh = machine(&rt, IDLE, script, 20);
    let mut machine = until(&rt, fresh, 0, 0o4034);
    stopped(&rt, &mut machine, Stop::Reached, 14);
    equal(
        &rt,
        [cell(&machine, 0o46), cell(&machine, 0o45)],
        [0o00000, 0o00003],
    );
}

/// CA, EXTEND, WRITE 7 of 37777: the channel keeps bits 7 to 5.
#[test]
fn channel_seven_keeps_three_bits(rt: HostRuntime) {
    let listing = "
4000 34004 CA 4004
4001 00006 EXTEND
4002 01007 WRITE 7
4003 14003 TCF 4003
4004 37777";
    let mut machine = machine(&rt, listing, "", 10);
    wrote(&rt, &mut machine, 3, 0o7, 0o00160);
    equal(&rt, channel(&machine, 7), 0o00160);
    assert!(rt; machine.store().superbank());
}

/// WOR 7 of 00777 leaves all of it in A (TS 100) and its bits 7 to 5 in the channel; WAND 7 of 00127 leaves 00120 in
/// both. Bit 7 is the superbank.
#[test]
fn or_and_and_to_channel_seven(rt: HostRuntime) {
    let listing = "
4000 34010 CA 4010
4001 00006 EXTEND
4002 05007 WOR 7
4003 54100 TS 100
4004 34011 CA 4011
4005 00006 EXTEND
4006 03007 WAND 7
4007 14007 TCF 4007
4010 00777
4011 00127";
    let mut machine = machine(&rt, listing, "", 15);
    wrote(&rt, &mut machine, 3, 0o7, 0o00160);
    wrote(&rt, &mut machine, 10, 0o7, 0o00120);
    stopped(&rt, &mut machine, Stop::Limit, 15);
    equal(&rt, cell(&machine, 0o100), 0o00777);
    equal(&rt, machine.store().a().bits(), 0o000120);
    assert!(rt; machine.store().superbank());
}

/// A script's input switches the superbank too, and is not a channel write.
#[test]
fn input_switches_the_superbank(rt: HostRuntime) {
    let mut machine = machine(&rt, IDLE, "0 input 7 77777\n5 input 7 37\n", 10);
    quiet(&rt, &mut machine);
    equal(&rt, channel(&machine, 7), 0o00160);
    assert!(rt; machine.store().superbank());
    stopped(&rt, &mut machine, Stop::Limit, 10);
    equal(&rt, channel(&machine, 7), 0o00020);
    assert!(rt; !machine.store().superbank());
}

/// A service of KEYRUPT1 that shows the key's code in channel 10: it begins 3 cycles after the key, and its WRITE,
/// after TCF, EXTEND, READ and EXTEND, 5 cycles later.
const ECHO: &str = "
4000 14000 TCF 4000
4024 14100 TCF 4100
4100 00006 EXTEND
4101 00015 READ 15
4102 00006 EXTEND
4103 01010 WRITE 10
4104 50017 RESUME";

/// Two live keys, at 5 and at 30; the script's own key comes first and is overtaken. Then the same run, from the
/// script with their tape in it.
#[test]
fn live_keys_replay(rt: HostRuntime) {
    let mut live = machine(&rt, ECHO, "30 key 1", 100);
    press_at(&rt, &mut live, 5, Key::Verb);
    wrote(&rt, &mut live, 13, 0o10, 0o00021);
    press_at(&rt, &mut live, 30, Key::Seven);
    wrote(&rt, &mut live, 38, 0o10, 0o00007);
    stopped(&rt, &mut live, Stop::Limit, 100);

    let mut again = from_a_tape(&rt);
    wrote(&rt, &mut again, 13, 0o10, 0o00021);
    wrote(&rt, &mut again, 38, 0o10, 0o00007);
    stopped(&rt, &mut again, Stop::Limit, 100);
}

/// Returns the machine at the start of that run, from the script with the tape.
fn from_a_tape(rt: &(impl AllocGlobal + Abort)) -> Machine {
    let mut tape = Tape::new(rt.alloc());
    assert!(rt; tape.push(5, Key::Verb).is_ok());
    assert!(rt; tape.push(30, Key::Seven).is_ok());
    let script = parse(rt, b"30 key 1").merge(rt.alloc(), &tape);
    machine_of(rt, ECHO, script.ok().expect(rt, "room"), 100)
}

/// Runs to the first boundary at or after a cycle at which a key is wanted, and presses the key there.
fn press_at(rt: &impl Abort, machine: &mut Machine, cycle: u64, key: Key) {
    for _ in 0..=cycle {
        if machine.cycle() >= cycle && machine.wants_key() {
            break;
        }
        quiet(rt, machine);
    }
    equal(rt, machine.cycle(), cycle);
    assert!(rt; machine.wants_key());
    equal(rt, machine.step(Some(key)), Stepped::Quiet);
}
