//! Tests timers, the scaler and interrupts: when they come, and what they leave.
use super::*;
use agc_test_support::IDLE;

/// The scaler counts every 320 pulses, 12 a cycle: 12 * 54 / 320 is 2, and 12 * 53 / 320 is 1.
#[test]
fn scaler_channels(rt: HostRuntime) {
    for (limit, low) in [(54, 0o00002), (53, 0o00001)] {
        let machine = run(&rt, IDLE, "", limit);
        equal(&rt, [channel(&machine, 3), channel(&machine, 4)], [0, low]);
    }
}

/// TIME5 steps at 427, TIME4 at 640, TIME1 with its carry into TIME2 at 854, TIME3 at 856.
#[test]
fn timers_step(rt: HostRuntime) {
    let machine = run(&rt, IDLE, "0 poke 0 25 37777", 900);
    equal(&rt, timers(&machine), [1, 0, 1, 1, 1]);
}

/// With limit 854 the step of TIME1 does not come; TIME3's would come after it.
#[test]
fn timers_before_the_step(rt: HostRuntime) {
    let machine = run(&rt, IDLE, "0 poke 0 25 37777", 854);
    equal(&rt, timers(&machine), [0, 0o37777, 0, 1, 1]);
}

/// Returns TIME2, TIME1, TIME3, TIME4 and TIME5.
fn timers(machine: &Machine) -> [u16; 5] {
    [
        cell(machine, 0o24),
        cell(machine, 0o25),
        cell(machine, 0o26),
        cell(machine, 0o27),
        cell(machine, 0o30),
    ]
}

/// TIME6 goes from 1 to -0 at 54; its next step at 107 finds zero: T6RUPT at 108, switch off.
#[test]
fn time6_interrupt(rt: HostRuntime) {
    let listing = "
4000 14000 TCF 4000
4004 50017 RESUME";
    let script = "0 poke 0 31 1\n0 input 13 40000\n";
    let machine = run(&rt, listing, script, 120);
    equal(&rt, cell(&machine, 0o31), 0o77777);
    equal(&rt, cell(&machine, 0o15), 0o04001);
    equal(&rt, cell(&machine, 0o17), 0o14000);
    equal(&rt, channel(&machine, 0o13), 0o00000);
}

/// TIME6 counts periods of 640 pulses from its switch. From 5, on at 0: a step at 54 (period 1). Off from 60 to 200,
/// while periods 1 to 3 go by: the next step is at 214 (period 4), and the word at 214 that leaves the switch on does
/// not change that. So 3 is left.
#[test]
fn time6_mark_at_a_second_switching(rt: HostRuntime) {
    let script = "0 poke 0 31 5\n0 input 13 40000\n60 input 13 0\n\
                  200 input 13 40000\n214 input 13 50000\n";
    let machine = run(&rt, IDLE, script, 215);
    equal(&rt, cell(&machine, 0o31), 0o00003);
    equal(&rt, channel(&machine, 0o13), 0o50000);
}

/// At 427, TIME5's first step (5120 pulses), a key and an interrupt are all due: first the event, which takes no
/// cycle, then the step, which takes one, then the interrupt, which takes three.
#[test]
fn event_before_timer_before_interrupt(rt: HostRuntime) {
    let mut machine = machine(&rt, IDLE, "427 key 5", 900);
    for _ in 0..427 {
        quiet(&rt, &mut machine);
    }
    equal(&rt, seen(&machine), (427, [0, 0, 0]));
    quiet(&rt, &mut machine);
    equal(&rt, seen(&machine), (427, [0o00005, 0, 0]));
    quiet(&rt, &mut machine);
    equal(&rt, seen(&machine), (428, [0o00005, 1, 0]));
    quiet(&rt, &mut machine);
    equal(&rt, seen(&machine), (431, [0o00005, 1, 0o04001]));
}

/// Returns the cycle, the key's code, TIME5 and ZRUPT.
fn seen(machine: &Machine) -> (u64, [u16; 3]) {
    let words = [
        channel(machine, 0o15),
        cell(machine, 0o30),
        cell(machine, 0o15),
    ];
    (machine.cycle(), words)
}

/// INHINT runs from 0 to 1; the request of cycle 1 waits for CA (1 to 3) and RELINT (3 to 4). The service begins
/// before the order at 4003.
#[test]
fn inhint_holds_a_request(rt: HostRuntime) {
    let listing = "
4000 00004 INHINT
4001 34004 CA 4004
4002 00003 RELINT
4003 14003 TCF 4003
4004 12345
4014 50017 RESUME";
    let machine = run(&rt, listing, "1 raise 3", 10);
    equal(&rt, cell(&machine, 0o15), 0o04004);
    equal(&rt, cell(&machine, 0o17), 0o14003);
    equal(&rt, registers(&machine), [0o012345, 0, 0, 0o4004]);
}

/// Both are requested at 0, RUPT10 first and T3RUPT twice: T3RUPT has the lower vector, and is served once. Each
/// service writes a channel: interrupt 3, EXTEND 1, WRITE 2, RESUME 2 cycles.
#[test]
fn interrupts_in_order_of_vectors(rt: HostRuntime) {
    let listing = "
4000 14000 TCF 4000
4014 00006 EXTEND
4015 01010 WRITE 10
4016 50017 RESUME
4050 00006 EXTEND
4051 01011 WRITE 11
4052 50017 RESUME";
    let script = "0 raise 10\n0 raise 3\n0 raise 3\n";
    let mut machine = machine(&rt, listing, script, 30);
    wrote(&rt, &mut machine, 4, 0o10, 0o00000);
    wrote(&rt, &mut machine, 12, 0o11, 0o00000);
    stopped(&rt, &mut machine, Stop::Limit, 30);
}

/// DOWNRUPT every 20 cycles; its service writes channel 10 four cycles later.
#[test]
fn every_downrupt(rt: HostRuntime) {
    let listing = "
4000 14000 TCF 4000
4040 00006 EXTEND
4041 01010 WRITE 10
4042 50017 RESUME";
    let mut machine = machine(&rt, listing, "every 20 0 100 raise 8", 120);
    for cycle in [4, 24, 44, 64, 84, 104] {
        wrote(&rt, &mut machine, cycle, 0o10, 0o00000);
    }
    stopped(&rt, &mut machine, Stop::Limit, 120);
}
