//! Tests runs of small programs, worked out by hand. The numbers are octal, except for cycles.
mod events;
mod idle;
mod order_runs;
mod runs;
mod timing;
mod upcoming;

use super::{equal, equal_at, parse, rope};
use agc_machine::{Machine, Next, Stepped, Stop};
use agc_script::Script;
use agc_store::Addr;
use std::process::Abort;

/// Returns the machine of a listing at the start of a run.
fn machine(rt: &(impl AllocGlobal + Abort), listing: &str, script: &str, limit: u64) -> Machine {
    machine_of(rt, listing, parse(rt, script.as_bytes()), limit)
}

/// The same with a script that was already read or made.
fn machine_of(
    rt: &(impl AllocGlobal + Abort),
    listing: &str,
    script: Script,
    limit: u64,
) -> Machine {
    Machine::new(rope(rt, listing), script, limit)
        .ok()
        .expect(rt, "the limit is in range")
}

/// Returns the machine of such a run, stopped exactly at its limit without a channel write.
fn run(rt: &(impl AllocGlobal + Abort), listing: &str, script: &str, limit: u64) -> Machine {
    let mut machine = machine(rt, listing, script, limit);
    stopped(rt, &mut machine, Stop::Limit, limit);
    machine
}

/// Returns the pattern of a cell of erasable bank 0.
fn cell(machine: &Machine, offset: u8) -> u16 {
    machine.store().cell(0, u16::from(offset)).bits()
}

/// Returns A, L, Q and Z; A and Q are wide.
fn registers(machine: &Machine) -> [u16; 4] {
    let store = machine.store();
    [
        store.a().bits(),
        store.l().bits(),
        store.q().bits(),
        store.z().bits(),
    ]
}

/// Returns a channel's pattern at the present cycle.
fn channel(machine: &Machine, number: u8) -> u16 {
    machine.channel(u16::from(number)).bits()
}

/// Checks that the next write is of this value to this channel; returns its cycle.
fn next_cycle(rt: &impl Abort, machine: &mut Machine, channel: u16, value: u16) -> u64 {
    let Next::Wrote(write) = machine.next_write() else {
        panic!(rt; "stopped before the write");
    };
    equal(rt, write.channel, channel);
    equal(rt, write.value.bits(), value);
    write.cycle
}

/// Checks that this is the next write.
fn wrote(rt: &impl Abort, machine: &mut Machine, cycle: u64, channel: u16, value: u16) {
    equal(rt, next_cycle(rt, machine, channel, value), cycle);
}

/// Checks that no write comes, and that the machine stops at this cycle.
fn stopped(rt: &impl Abort, machine: &mut Machine, why: Stop, cycle: u64) {
    equal(rt, machine.next_write(), Next::Stopped(why));
    equal(rt, machine.cycle(), cycle);
}

/// Checks that one boundary shows nothing outside.
fn quiet(rt: &impl Abort, machine: &mut Machine) {
    equal(rt, machine.step(None), Stepped::Quiet);
}

/// Returns the run of a fresh machine up to an address.
fn until(rt: &impl Abort, machine: Machine, bank: u8, address: u16) -> Machine {
    assert!(rt; machine.fresh());
    machine.until(
        bank,
        Addr::new(address).expect(rt, "an address of twelve bits"),
    )
}
