//! Tests runs shown by two threads, with gates that delay one of them.
use super::super::{Host, machine_of, script_of};
use super::memory::{AFTER_DIVISION, AFTER_EDRUPT, AFTER_WRITES, holds};
use agc_machine::{Machine, Next, Stop};
use agc_panel::Panel;
use agc_pipe::{ShowFault, Shown, run_shown, run_shown_in};
use agc_ring::{Gate, Open, Slots};
use agc_store::Store;
use agc_test_support::{Counting, DIVISION, EDRUPT, Rendezvous, Slow, WRITES};
use agc_word::ChannelWrite;

/// The thousandth write begins at cycle 4014, and the run ends at 4018.
const LIMIT: u64 = 4018;

/// How often a gate looks for what must come.
const TURNS: u32 = 1_000_000;

/// How often a gate looks for what must not come.
const FEW_TURNS: u32 = 20_000;

/// How long a slow thread spins at each write.
const SPIN: u32 = 1000;

/// Returns what a run of a listing shows through this gate.
fn shown_of<G: Gate + Sync>(
    rt: &impl Host,
    (listing, script, limit): (&str, &[u8], u64),
    slots: usize,
    gate: &G,
) -> Shown {
    let machine = machine_of(rt, listing, script_of(rt, script), limit);
    run_shown(rt, rt.alloc(), machine, slots, gate).expect(rt, "a run")
}

/// Returns whether the log has the thousand writes, each once and in order, and nothing after them.
fn is_thousand(shown: &Shown) -> bool {
    let log = shown.log.as_slice();
    let cycle = |place: usize| log.get(place).map_or(0, |write| write.cycle);
    log.len() == 1000
        && (cycle(0), cycle(1), cycle(999)) == (1, 5, 4014)
        && log
            .iter()
            .all(|write| write.channel == 0o10 && write.value.bits() == 0)
        && (shown.stop, shown.cycle) == (Stop::Limit, LIMIT)
        && shown.panel == Panel::new()
}

/// Returns whether there was one write to channel 10, at this cycle and of this value, on a panel that stays blank.
fn is_one_write(shown: &Shown, cycle: u64, value: u16) -> bool {
    let written = shown.log.as_slice().first().is_some_and(|write| (
        write.cycle,
        write.channel,
        write.value.bits(),
    ) == (cycle, 0o10, value));
    written && shown.log.len() == 1 && shown.panel == Panel::new()
}

/// Shows the thousand writes through this gate.
fn assert_shown<G: Gate + Sync>(rt: &impl Host, slots: usize, gate: &G) {
    let shown = shown_of(rt, (WRITES, b"", LIMIT), slots, gate);
    assert!(rt; is_thousand(&shown));
    assert!(rt; holds(&shown.store, &AFTER_WRITES));
}

/// Shows through this gate the run that EDRUPT ends.
fn assert_edrupt(rt: &impl Host, slots: usize, gate: &Slow) {
    let shown = shown_of(rt, (EDRUPT, b"", 100), slots, gate);
    assert!(rt; is_one_write(&shown, 1, 0));
    assert!(rt;
        (shown.stop, shown.cycle) == (Stop::Edrupt, 4) && holds(&shown.store, &AFTER_EDRUPT)
    );
}

/// Shows through this gate the run that a division ends: the accumulator stays 2, and the divisor 1.
fn assert_division(rt: &impl Host, slots: usize, gate: &Slow) {
    let shown = shown_of(rt, (DIVISION, b"0 poke 0 100 1\n", 100), slots, gate);
    assert!(rt; is_one_write(&shown, 3, 2));
    assert!(rt; (shown.stop, shown.cycle) == (Stop::DivisionUndefined, 6));
    assert!(rt; holds(&shown.store, &AFTER_DIVISION) && is_two_by_one(&shown.store));
}

/// Returns whether the accumulator is 2 and the divisor 1.
fn is_two_by_one(store: &Store) -> bool {
    (store.cell(0, 0).bits(), store.cell(0, 0o100).bits()) == (2, 1)
}

#[test]
fn thousand_writes(rt: HostRuntime) {
    assert_shown(&rt, 1, &Open);
    assert_shown(&rt, 256, &Open);
}

/// A long run: the log has each write of the machine, and no other.
#[test]
fn hundred_thousand_writes(rt: HostRuntime) {
    let shown = shown_of(&rt, (WRITES, b"", 450_000), 256, &Open);
    let mut machine = machine_of(&rt, WRITES, script_of(&rt, b""), 450_000);
    assert!(rt; makes(&mut machine, shown.log.as_slice()));
    assert!(rt; shown.log.len() > 100_000);
}

/// Returns whether a machine makes these writes, and no other, up to its limit.
fn makes(machine: &mut Machine, writes: &[ChannelWrite]) -> bool {
    for write in writes {
        if machine.next_write() != Next::Wrote(*write) {
            return false;
        }
    }
    machine.next_write() == Next::Stopped(Stop::Limit)
}

#[test]
fn slots_are_refused(rt: HostRuntime) {
    refuses(&rt, 0);
    refuses(&rt, 65_537);
}

/// Checks that this number of slots is rejected.
fn refuses(rt: &impl Host, slots: usize) {
    let machine = machine_of(rt, WRITES, script_of(rt, b""), 10);
    let shown = run_shown(rt, rt.alloc(), machine, slots, &Open);
    assert!(rt; shown.err() == Some(ShowFault::Slots), "{slots} slots");
}

/// WRITE 10 comes at cycle 1, and again four cycles later.
#[test]
fn slots_looked_at_before_serve(rt: HostRuntime) {
    let machine = machine_of(&rt, WRITES, script_of(&rt, b""), 6);
    let slots = Slots::new(1).expect(&rt, "slots");
    let shown = run_shown_in(&rt, rt.alloc(), machine, slots, &Open).expect(&rt, "a run");
    assert!(rt; shown.log.len() == 2);
    let last = shown.log.as_slice().last();
    assert!(rt; last.is_some_and(|write| write.cycle == 5));
}

/// In one slot a block is one write, so write 1 is in the ring when the machine reaches write 2. The machine waits
/// there until the display has taken write 1, and the display holds write 1 until the machine has reached write 2:
/// both continue only if each is on a thread of its own.
#[test]
fn both_threads_run(rt: HostRuntime) {
    let meeting = Rendezvous::new(2, TURNS, TURNS);
    assert_shown(&rt, 1, &meeting);
    assert!(rt; meeting.machine_met.is_up());
    assert!(rt; meeting.display_met.is_up());
}

/// While the display holds write 1, the one slot is free for write 2: the machine sends it, and reaches write 3.
#[test]
fn ring_has_room_for_a_write(rt: HostRuntime) {
    let meeting = Rendezvous::new(3, 0, TURNS);
    assert_shown(&rt, 1, &meeting);
    assert!(rt; meeting.display_met.is_up());
}

/// While the display holds write 1, write 2 fills the one slot, and write 3 waits for it: the machine reaches write 4
/// only when the display continues.
#[test]
fn ring_has_no_more_room(rt: HostRuntime) {
    let meeting = Rendezvous::new(4, TURNS, FEW_TURNS);
    assert_shown(&rt, 1, &meeting);
    assert!(rt; meeting.machine_met.is_up());
    assert!(rt; !meeting.display_met.is_up());
    assert!(rt; meeting.sent.is_up());
}

/// In 256 slots the first block carries 64 writes, and the gate is called for write 2 before the block is sent:
/// however long the machine waits there, the display has nothing to take.
#[test]
fn first_block_has_64(rt: HostRuntime) {
    let meeting = Rendezvous::new(2, FEW_TURNS, 0);
    assert_shown(&rt, 256, &meeting);
    assert!(rt; meeting.sent.is_up());
    assert!(rt; meeting.received.is_up());
    assert!(rt; !meeting.machine_met.is_up());
}

/// Neither the end of the run nor a block that had to wait is reported as a write.
#[test]
fn each_write_is_counted(rt: HostRuntime) {
    for slots in [1, 256] {
        let counting = Counting::new();
        assert_shown(&rt, slots, &counting);
        assert!(rt; counting.is_whole());
        assert!(rt; counting.received() == 1000);
    }
}

/// A slow machine leaves the ring empty, and a slow display leaves it full: what is shown is the same.
#[test]
fn slow_threads(rt: HostRuntime) {
    for slots in [1, 2, 65_536] {
        assert_all_shown(&rt, slots, &Slow::machine(SPIN));
        assert_all_shown(&rt, slots, &Slow::display(SPIN));
    }
}

/// Shows all three runs through this gate.
fn assert_all_shown(rt: &impl Host, slots: usize, gate: &Slow) {
    assert_shown(rt, slots, gate);
    assert_edrupt(rt, slots, gate);
    assert_division(rt, slots, gate);
}
