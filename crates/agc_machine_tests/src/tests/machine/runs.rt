//! Tests whole runs: their channel writes, their limits and their stops.
use super::*;
use agc_machine::{LimitFault, Refused, StopAddress};
use agc_store::Store;
use agc_test_support::{DIVISION, IDLE, RELAY_WORD, WRITES};
use agc_word::{ChannelWrite, Narrow};

/// EXTEND, WRITE 10, TCF 4000 in a loop: a write of +0 every four cycles, the first at cycle 1 and the last, after 17
/// one-cycle timer steps, at 4 * 999 + 1 + 17.
#[test]
fn thousand_writes(rt: HostRuntime) {
    let mut machine = machine(&rt, WRITES, "", 4018);
    wrote(&rt, &mut machine, 1, 0o10, 0o00000);
    wrote(&rt, &mut machine, 5, 0o10, 0o00000);
    for _ in 2..999 {
        next_cycle(&rt, &mut machine, 0o10, 0o00000);
    }
    wrote(&rt, &mut machine, 4014, 0o10, 0o00000);
    stopped(&rt, &mut machine, Stop::Limit, 4018);
}

/// DV of 2 by 1: a stop after the write of A that leaves A, L and the cycle.
#[test]
fn undefined_division_stops(rt: HostRuntime) {
    let mut machine = machine(&rt, DIVISION, "0 poke 0 100 1", 100);
    division_stops(&rt, &mut machine);
}

/// The same run under the largest limit.
#[test]
fn largest_limit(rt: HostRuntime) {
    let mut machine = machine(&rt, DIVISION, "0 poke 0 100 1", 1_000_000_000_000);
    division_stops(&rt, &mut machine);
}

/// Checks for one write, then a permanent stop at cycle 6.
fn division_stops(rt: &impl Abort, machine: &mut Machine) {
    wrote(rt, machine, 3, 0o10, 0o00002);
    stopped(rt, machine, Stop::DivisionUndefined, 6);
    stopped(rt, machine, Stop::DivisionUndefined, 6);
    equal(rt, registers(machine), [0o000002, 0, 0, 0o4005]);
    equal(rt, machine.wants_key(), false);
}

/// Returns a write of +0 to channel 10 at this cycle.
fn write_at(cycle: u64) -> ChannelWrite {
    ChannelWrite {
        cycle,
        channel: 0o10,
        value: Narrow::PLUS_ZERO,
    }
}

/// EXTEND, WRITE 10, TCF 4000 write at cycles 1 and 5. EXTEND ends at 1, the first write at 3, TCF at 4 and EXTEND
/// again at 5: that is how far runs up to the cycles 1, 5, 4 and 5 get.
#[test]
fn the_way_to_a_cycle(rt: HostRuntime) {
    let mut machine = machine(&rt, WRITES, "", 7);
    equal(&rt, machine.next_write_before(1), Stepped::Quiet);
    equal(&rt, machine.cycle(), 1);
    equal(
        &rt,
        machine.next_write_before(5),
        Stepped::Wrote(write_at(1)),
    );
    equal(&rt, machine.cycle(), 3);
    equal(&rt, machine.next_write_before(4), Stepped::Quiet);
    equal(&rt, machine.cycle(), 4);
    equal(&rt, machine.next_write_before(5), Stepped::Quiet);
    equal(&rt, machine.cycle(), 5);
    equal(
        &rt,
        machine.next_write_before(1000),
        Stepped::Wrote(write_at(5)),
    );
    equal(
        &rt,
        machine.next_write_before(1000),
        Stepped::Stopped(Stop::Limit),
    );
    equal(
        &rt,
        machine.next_write_before(0),
        Stepped::Stopped(Stop::Limit),
    );
}

/// EXTEND, EDRUPT: the stop is at cycle 1, because EDRUPT takes no cycle.
#[test]
fn edrupt_stops(rt: HostRuntime) {
    let listing = "
4000 00006 EXTEND
4001 07000 EDRUPT";
    let mut machine = machine(&rt, listing, "", 10);
    equal(&rt, machine.fresh(), true);
    stopped(&rt, &mut machine, Stop::Edrupt, 1);
    equal(&rt, machine.fresh(), false);
}

/// Limit 1: CA, which takes two cycles, ends past it.
#[test]
fn last_order_passes_limit(rt: HostRuntime) {
    let mut machine = machine(&rt, RELAY_WORD, "", 1);
    stopped(&rt, &mut machine, Stop::Limit, 2);
}

#[test]
fn until_an_order(rt: HostRuntime) {
    let fresh = machine(&rt, RELAY_WORD, "", 10);
    let mut machine = until(&rt, fresh, 0, 0o4003);
    wrote(&rt, &mut machine, 3, 0o10, 0o54171);
    stopped(&rt, &mut machine, Stop::Reached, 5);
}

/// The order at 4000 is in hand at the start.
#[test]
fn until_the_start(rt: HostRuntime) {
    let fresh = machine(&rt, RELAY_WORD, "", 10);
    let mut machine = until(&rt, fresh, 0, 0o4000);
    stopped(&rt, &mut machine, Stop::Reached, 0);
}

/// TCF 2000 with FB 0: bank 0 matches the window, bank 1 does not.
#[test]
fn until_a_bank(rt: HostRuntime) {
    for (bank, stop, cycle) in [(0, Stop::Reached, 1), (1, Stop::Limit, 10)] {
        let fresh = machine(&rt, "4000 12000 TCF 2000", "", 10);
        let mut machine = until(&rt, fresh, bank, 0o2000);
        stopped(&rt, &mut machine, stop, cycle);
    }
}

/// Limit 0 and limits above 1,000,000,000,000 are rejected; rope and script come back.
#[test]
fn limits(rt: HostRuntime) {
    refuses(&rt, 0, LimitFault::Zero);
    refuses(&rt, 1_000_000_000_001, LimitFault::TooLarge);
}

/// Checks why a limit is rejected. The rope comes back with its first word, and the script with its event.
fn refuses(rt: &(impl AllocGlobal + Abort), limit: u64, wanted: LimitFault) {
    let made = Machine::new(rope(rt, IDLE), parse(rt, b"0 raise 1"), limit);
    equal_at(rt, limit, made.is_err(), true);
    let Refused {
        fault,
        rope,
        script,
    } = made.err().expect(rt, "a refusal");
    equal_at(rt, limit, fault, wanted);
    equal(rt, Store::new(rope).fixed(2, 0).bits(), 0o14000);
    equal(rt, script.len(), 1);
}

/// The largest limit is accepted, and the memory comes out with the rope's words.
#[test]
fn machine_gives_its_store(rt: HostRuntime) {
    let machine = machine(&rt, RELAY_WORD, "", 1_000_000_000_000);
    equal(&rt, machine.fresh(), true);
    let store = machine.into_store();
    equal(&rt, store.fixed(2, 4).bits(), 0o54171);
    equal(&rt, store.z().bits(), 0o4001);
}

/// Bank and address are octal numbers, up to 47 and 7777, and nothing else may be beside them.
#[test]
fn stop_addresses_are_read(rt: HostRuntime) {
    reads_the_last(&rt, "47,7777");
    reads_the_last(&rt, "000047,007777");
    for text in [
        "",
        "47",
        "47,",
        "50,7777",
        "47,10000",
        "47,7778",
        "47, 7777",
        "0000047,7777",
    ] {
        equal(&rt, StopAddress::read(text), None);
    }
}

/// Checks that a text names the last address of the last bank.
fn reads_the_last(rt: &impl Abort, text: &str) {
    let at = StopAddress::read(text).expect(rt, "a stop address");
    equal(rt, at.bank, 0o47);
    equal(rt, at.address.bits(), 0o7777);
}
