//! Tests what `upcoming` returns for the next boundary.
use super::*;
use agc_machine::{InHand, Upcoming};
use agc_processor::{Rupt, Timer};
use agc_script::{Key, What};
use agc_test_support::{IDLE, RELAY_WORD};
use agc_word::Narrow;

fn reports(rt: &impl Abort, machine: &Machine, next: Upcoming) {
    equal(rt, machine.upcoming(), next);
}

/// Checks that `upcoming` returns the order in hand at an address of the fixed banks 02 and 03.
fn order_reported(rt: &impl Abort, machine: &Machine, address: u16, word: u16, extracode: bool) {
    bank_order_reported(rt, machine, 0, address, word, extracode);
}

/// Checks that `upcoming` returns the order in hand in a bank.
fn bank_order_reported(
    rt: &impl Abort,
    machine: &Machine,
    bank: u8,
    address: u16,
    word: u16,
    extracode: bool,
) {
    let order = InHand {
        bank,
        address: Addr::new(address).expect(rt, "an address of twelve bits"),
        word: Narrow::with_bits(word % 0o100000),
        extracode,
    };
    reports(rt, machine, Upcoming::Order(order));
}

/// CA 4004, EXTEND, WRITE 10 and TCF 4003 from 0, 2, 3 and 5 on; the limit stops at 10.
#[test]
fn orders_reported(rt: HostRuntime) {
    let mut machine = machine(&rt, RELAY_WORD, "", 10);
    order_reported(&rt, &machine, 0o4000, 0o34004, false);
    quiet(&rt, &mut machine);
    order_reported(&rt, &machine, 0o4001, 0o00006, false);
    quiet(&rt, &mut machine);
    order_reported(&rt, &machine, 0o4002, 0o01010, true);
    wrote(&rt, &mut machine, 3, 0o10, 0o54171);
    for _ in 0..5 {
        order_reported(&rt, &machine, 0o4003, 0o14003, false);
        quiet(&rt, &mut machine);
    }
    reports(&rt, &machine, Upcoming::Stop(Stop::Limit));
    stopped(&rt, &mut machine, Stop::Limit, 10);
    reports(&rt, &machine, Upcoming::Stop(Stop::Limit));
}

/// The key's event and its interrupt come before INHINT; RESUME at 4024 brings INHINT back.
#[test]
fn key_and_interrupt_reported(rt: HostRuntime) {
    let listing = "
4000 00004 INHINT
4001 14001 TCF 4001
4024 50017 RESUME";
    let mut machine = machine(&rt, listing, "0 key VERB", 10);
    reports(&rt, &machine, Upcoming::Event(What::Key(Key::Verb)));
    quiet(&rt, &mut machine);
    reports(&rt, &machine, Upcoming::Interrupt(Rupt::Keyrupt1));
    quiet(&rt, &mut machine);
    order_reported(&rt, &machine, 0o4024, 0o50017, false);
    quiet(&rt, &mut machine);
    order_reported(&rt, &machine, 0o4000, 0o00004, false);
}

/// The first steps: TIME5 at 427, TIME4 at 640, and TIME1 at 854, before TIME3.
#[test]
fn timers_reported(rt: HostRuntime) {
    let mut machine = machine(&rt, IDLE, "", 900);
    timer_reported(&rt, &mut machine, 427, Timer::Time5);
    timer_reported(&rt, &mut machine, 640, Timer::Time4);
    timer_reported(&rt, &mut machine, 854, Timer::Time1);
    timer_reported(&rt, &mut machine, 855, Timer::Time3);
}

/// Checks that `upcoming` returns the step of a timer at this cycle, if no write comes before.
fn timer_reported(rt: &impl Abort, machine: &mut Machine, cycle: u64, timer: Timer) {
    equal_at(rt, cycle, machine.next_write_before(cycle), Stepped::Quiet);
    reports(rt, machine, Upcoming::Timer(timer));
}

/// CA 4003 and TS FB bring bank 04 into the window, and TCF 2000 goes there, where there is no word.
#[test]
fn switched_bank_reported(rt: HostRuntime) {
    let listing = "
4000 34003 CA 4003
4001 54004 TS FB
4002 12000 TCF 2000
4003 10000";
    let mut machine = machine(&rt, listing, "", 10);
    for _ in 0..3 {
        quiet(&rt, &mut machine);
    }
    bank_order_reported(&rt, &machine, 0o04, 0o2000, 0o00000, false);
}

/// The stop address is reached after the order at 4000, and is returned again after the stop.
#[test]
fn stop_address_reported(rt: HostRuntime) {
    let listing = "
4000 14001 TCF 4001
4001 14001 TCF 4001";
    let fresh = machine(&rt, listing, "", 10);
    let mut machine = until(&rt, fresh, 0, 0o4001);
    quiet(&rt, &mut machine);
    reports(&rt, &machine, Upcoming::Stop(Stop::Reached));
    stopped(&rt, &mut machine, Stop::Reached, 1);
    reports(&rt, &machine, Upcoming::Stop(Stop::Reached));
}
