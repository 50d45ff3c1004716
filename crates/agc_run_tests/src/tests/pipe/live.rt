//! Tests live runs: keys taken while the machine runs, and the replay of the same run.
use super::super::{Host, machine_of, script_of};
use agc_pipe::{Live, ShowFault, Shown, Spacing, run_live, run_live_in, run_shown};
use agc_ring::{Gate, Open, Slots};
use agc_script::{Key, Tape};
use agc_store::Store;
use agc_test_support::{KEYED_WRITES, KeyRendezvous, Rendezvous, Slow};
use std::process::Abort;

const LIMIT: u64 = 100_000;

/// A tenth of a second.
const SPACING: u64 = 8533;

const KEYS: [Key; 3] = [Key::Verb, Key::Three, Key::Five];

/// Writes the relay word of PROG 12 to channel 10 all the time, with an end to the interrupt of a key.
const KEYED_RELAY_WORDS: &str = "
4000 34004 CA 4004
4001 00006 EXTEND
4002 01010 WRITE 10
4003 14000 TCF 4000
4004 54171
4024 50017 RESUME";

/// How often a gate looks for what must come.
const TURNS: u32 = 1_000_000;

/// How long a slow thread spins at each write or key.
const SPIN: u32 = 1000;

/// Returns the three keys.
fn three_keys(rt: &(impl AllocGlobal + Abort)) -> Vec<Key> {
    Vec::from_array(rt.alloc(), KEYS).expect(rt, "memory")
}

/// Runs live with the three keys through this gate.
fn live<G: Gate + Sync>(rt: &impl Host, spacing: u64, slots: usize, gate: &G) -> Live {
    let machine = machine_of(rt, KEYED_WRITES, script_of(rt, b""), LIMIT);
    run_live(
        rt,
        rt.alloc(),
        machine,
        three_keys(rt),
        spacing,
        slots,
        gate,
    )
    .expect(rt, "a live run")
}

/// Checks that the tape's keys followed by the rest are the three keys.
fn assert_conserved(rt: &(impl AllocGlobal + Abort), live: &Live) {
    let mut keys = Vec::new(rt.alloc());
    for i in 0..live.tape.len() {
        keys.push(live.tape.at(i).1).expect(rt, "memory");
    }
    keys.extend_from_slice(live.rest.as_slice())
        .expect(rt, "memory");
    assert!(rt; keys.as_slice() == KEYS.as_slice());
}

/// Returns whether every cell of the erasable memory, and the superbank, are the same.
fn is_same_memory(a: &Store, b: &Store) -> bool {
    for bank in 0..8 {
        for offset in 0..256 {
            if a.cell(bank, offset) != b.cell(bank, offset) {
                return false;
            }
        }
    }
    a.superbank() == b.superbank()
}

fn is_same(a: &Shown, b: &Shown) -> bool {
    a.log.as_slice() == b.log.as_slice()
        && a.panel == b.panel
        && (a.stop, a.cycle) == (b.stop, b.cycle)
        && is_same_memory(&a.store, &b.store)
}

/// Returns the plain run of a listing on a tape.
fn replayed(rt: &impl Host, listing: &str, tape: &Tape, limit: u64) -> Shown {
    let script = script_of(rt, b"")
        .merge(rt.alloc(), tape)
        .expect(rt, "a script");
    let machine = machine_of(rt, listing, script, limit);
    run_shown(rt, rt.alloc(), machine, 256, &Open).expect(rt, "a plain run")
}

/// Checks that the plain run on the script merged with the tape shows the same.
fn assert_replays(rt: &impl Host, live: &Live) {
    let shown = replayed(rt, KEYED_WRITES, &live.tape, LIMIT);
    assert!(rt; is_same(&shown, &live.shown));
}

#[test]
fn live_keys_replay(rt: HostRuntime) {
    let live = live(&rt, SPACING, 256, &Open);
    assert_conserved(&rt, &live);
    assert_replays(&rt, &live);
}

/// The machine reaches its first send before the second key is fed, and continues when the third is. This detects a
/// machine that takes no key, or that gets all keys at once.
fn assert_keys_meet(rt: &impl Host, spacing: u64) -> Live {
    let meeting = KeyRendezvous::new(TURNS);
    let live = live(rt, spacing, 256, &meeting);
    assert!(rt; meeting.machine_met.is_up() && meeting.display_met.is_up());
    assert!(rt; (live.tape.len(), live.rest.len()) == (3, 0));
    assert_conserved(rt, &live);
    assert_replays(rt, &live);
    live
}

#[test]
fn keys_are_taken_while_the_machine_runs(rt: HostRuntime) {
    let live = assert_keys_meet(&rt, SPACING);
    assert!(rt; is_spaced(&live.tape));
}

/// Returns whether each key of a tape comes at least a tenth of a second after the one before it.
fn is_spaced(tape: &Tape) -> bool {
    let mut least = 0;
    for i in 0..tape.len() {
        let (cycle, _) = tape.at(i);
        if cycle < least {
            return false;
        }
        least = cycle.saturating_add(SPACING);
    }
    true
}

/// Write 64 is in the first block, and the second key is not fed before that block.
#[test]
fn the_next_key_comes_after_the_first_block(rt: HostRuntime) {
    let live = assert_keys_meet(&rt, 1);
    let block_end = cycle_of_write(&live.shown, 63);
    assert!(rt; live.tape.len() == 3 && live.tape.at(1).0 > block_end);
}

/// Returns the cycle of the write at this place of the log, or the limit.
fn cycle_of_write(shown: &Shown, place: usize) -> u64 {
    shown
        .log
        .as_slice()
        .get(place)
        .map_or(LIMIT, |write| write.cycle)
}

/// The two threads of a live run meet as those of a plain run do.
#[test]
fn both_threads_of_a_live_run_meet(rt: HostRuntime) {
    let meeting = Rendezvous::new(2, TURNS, TURNS);
    let _live = live(&rt, SPACING, 1, &meeting);
    assert!(rt; meeting.machine_met.is_up() && meeting.display_met.is_up());
}

/// Whatever is slow, only the tape may differ: the run is still that of its tape.
#[test]
fn slow_threads_change_the_tape_alone(rt: HostRuntime) {
    for slots in [1, 2, 65_536] {
        assert_changes_no_more(&rt, slots, &Slow::machine(SPIN));
        assert_changes_no_more(&rt, slots, &Slow::display(SPIN));
        assert_changes_no_more(&rt, slots, &Slow::keys(SPIN));
    }
}

/// Checks that a live run through this gate conserves its keys, and is that of its tape.
fn assert_changes_no_more(rt: &impl Host, slots: usize, gate: &Slow) {
    let live = live(rt, 1, slots, gate);
    assert_conserved(rt, &live);
    assert_replays(rt, &live);
}

/// Three keys are fed before the first block is sent. The run ends before a second key may follow the first: so that
/// one is on the tape, and the others are left.
#[test]
fn spacing_looked_at_before_serves(rt: HostRuntime) {
    let live = spaced(&rt);
    assert!(rt; live.tape.len() == 1 && live.tape.at(0).1 == Key::Verb);
    assert!(rt; live.rest.as_slice() == [Key::Three, Key::Five].as_slice());
    assert!(rt; shows_prog_twelve(&rt, &live.shown));
    let replayed = replayed(&rt, KEYED_RELAY_WORDS, &live.tape, SPACING);
    assert!(rt; is_same(&replayed, &live.shown));
}

/// Returns that live run.
fn spaced(rt: &impl Host) -> Live {
    let machine = machine_of(rt, KEYED_RELAY_WORDS, script_of(rt, b""), SPACING);
    let spacing = Spacing::new(SPACING).expect(rt, "a spacing");
    let slots = Slots::new(256).expect(rt, "slots");
    let gate = KeyRendezvous::new(TURNS);
    run_live_in(
        rt,
        rt.alloc(),
        machine,
        three_keys(rt),
        spacing,
        slots,
        &gate,
    )
    .expect(rt, "a live run")
}

/// Returns whether the first write is the relay word, and the panel shows its digits.
fn shows_prog_twelve(rt: &(impl AllocGlobal + Abort), shown: &Shown) -> bool {
    let first = shown.log.as_slice().first();
    let panel = shown.panel.text(rt.alloc()).expect(rt, "memory");
    first.is_some_and(|write| (write.channel, write.value.bits()) == (0o10, 0o54171))
        && panel.as_str().starts_with("PROG 12\nVERB __\n")
}

/// The slots are checked before the spacing.
#[test]
fn spacing_is_refused(rt: HostRuntime) {
    refuses(&rt, 0, ShowFault::Slots);
    refuses(&rt, 1, ShowFault::Spacing);
    refuses(&rt, 65_536, ShowFault::Spacing);
    refuses(&rt, 65_537, ShowFault::Slots);
}

/// Checks how a live run with no cycles between its keys is rejected.
fn refuses(rt: &impl Host, slots: usize, fault: ShowFault) {
    let machine = machine_of(rt, KEYED_WRITES, script_of(rt, b""), 10);
    let answer = run_live(rt, rt.alloc(), machine, three_keys(rt), 0, slots, &Open);
    assert!(rt; answer.err() == Some(fault), "{slots} slots");
}
