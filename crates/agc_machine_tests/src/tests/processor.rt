//! Tests each public call once, with values worked out by hand. The numbers are octal, except for cycles.
mod orders;

use super::{equal, equal_at, rope};
use agc_processor::{Halt, Processor, Ran, Rupt, Timer, WRITE_MCT};
use agc_test_support::IDLE;
use agc_word::{Carry, Narrow, Pulse};
use std::process::Abort;

/// Returns the processor at the start of a run of this listing.
fn processor_with(rt: &(impl AllocGlobal + Abort), listing: &str) -> Processor {
    Processor::new(rope(rt, listing))
}

/// Runs orders one after another while fewer cycles than `limit` have gone by.
fn run(processor: &mut Processor, limit: u8) {
    let mut cycle = 0;
    for _ in 0..limit {
        if cycle >= u64::from(limit) {
            return;
        }
        match processor.run(cycle) {
            Ran::Quiet(cycles) => cycle += cycles,
            Ran::Wrote(_, _) => cycle += WRITE_MCT,
            Ran::Halted(_) => return,
        }
    }
}

/// Returns the pattern of a cell of erasable bank 0.
fn cell(processor: &Processor, offset: u8) -> u16 {
    processor.store.cell(0, u16::from(offset)).bits()
}

/// Returns A, L, Q and Z; A and Q are wide.
fn registers(processor: &Processor) -> [u16; 4] {
    let store = &processor.store;
    [
        store.a().bits(),
        store.l().bits(),
        store.q().bits(),
        store.z().bits(),
    ]
}

/// The word at 4003 shows in channel 10.
#[test]
fn orders_run(rt: HostRuntime) {
    let listing = "
4000 34003 CA 4003
4001 00006 EXTEND
4002 01010 WRITE 10
4003 12345";
    let mut processor = processor_with(&rt, listing);
    equal(&rt, processor.run(0), Ran::Quiet(2));
    equal(&rt, processor.run(2), Ran::Quiet(1));
    equal(
        &rt,
        processor.run(3),
        Ran::Wrote(0o10, Narrow::with_bits(0o12345)),
    );
    equal(&rt, processor.channel(5, 0o10).bits(), 0o012345);
}

/// DV A with +0 in A, and EDRUPT.
#[test]
fn orders_halt(rt: HostRuntime) {
    let division = "4000 00006 EXTEND\n4001 10000 DV A";
    halts(&rt, division, Halt::DivisionUndefined);
    halts(&rt, "4000 00006 EXTEND\n4001 07000 EDRUPT", Halt::Edrupt);
}

/// Checks that the second order halts.
fn halts(rt: &(impl AllocGlobal + Abort), listing: &str, halt: Halt) {
    let mut processor = processor_with(rt, listing);
    equal_at(rt, listing, processor.run(0), Ran::Quiet(1));
    equal_at(rt, listing, processor.run(1), Ran::Halted(halt));
}

/// TIME5 is due first, after 5120 pulses, 12 a cycle: at 427.
#[test]
fn timers_step(rt: HostRuntime) {
    let mut processor = processor_with(&rt, IDLE);
    equal(&rt, processor.timers_quiet_until(), 427);
    equal(&rt, processor.due_timer(426), None);
    let due = processor.due_timer(427).expect(&rt, "a timer is due");
    equal(&rt, due, Timer::Time5);
    equal(&rt, processor.step_timer(due), 1);
    equal(&rt, processor.store.cell(0, 0o30).bits(), 0o00001);
}

/// The vector of KEYRUPT1 is 4024; an interrupt takes 3 cycles.
#[test]
fn interrupt_is_taken(rt: HostRuntime) {
    let mut processor = processor_with(&rt, IDLE);
    processor.request(Rupt::Keyrupt1);
    assert!(rt; processor.is_requested());
    equal(&rt, processor.pending(), Some(Rupt::Keyrupt1));
    processor.interrupt(Rupt::Keyrupt1);
    equal(&rt, processor.store.z().bits(), 0o4025);
    equal(&rt, processor.store.cell(0, 0o15).bits(), 0o04001);
    assert!(rt; !processor.is_requested());
    equal(&rt, processor.pending(), None);
}

/// Channel 7 keeps bits 7 to 5, and bit 7 is the superbank; a PINC of 37777 carries.
#[test]
fn comes_from_outside(rt: HostRuntime) {
    let mut processor = processor_with(&rt, IDLE);
    processor.set_channel(0, 7, Narrow::with_bits(0o77777));
    equal(&rt, processor.channel(0, 7).bits(), 0o000160);
    assert!(rt; processor.store.superbank());
    processor.store.poke(0, 0o25, Narrow::with_bits(0o37777));
    equal(&rt, processor.pulse(0o25, Pulse::Pinc), Carry::Out);
    equal(&rt, processor.store.cell(0, 0o25).bits(), 0o00000);
}
