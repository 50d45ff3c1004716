//! Tests the two threads of a session with gates that delay one of them. A session that runs the machine itself, or
//! that ignores the gate or the number of slots, does not pass.
use super::*;
use agc_test_support::{Rendezvous, Slow};

/// How often a gate looks for what must come.
const TURNS: u32 = 1_000_000;

/// How often a gate looks for what must not come.
const FEW_TURNS: u32 = 20_000;

/// How long a slow thread spins at each write.
const SPIN: u32 = 1000;

/// What follows the log without live keys, and with live keys but no key.
const WAYS: [(&str, &str); 2] = [("", ""), (" --live", "REST 0\n")];

/// Runs the thousand writes through a gate: each write once and in order, with nothing after them.
fn shows_thousand<G: Gate + Sync>(rt: &impl Host, slots: &str, way: (&str, &str), gate: &G) {
    let line = format!(in rt.alloc(); "--limit 4018 --log{slots}{}", way.0).expect(rt, "memory");
    let line = line.as_str();
    let ended = run_gated(rt, without_keys(line, WRITES, b""), gate);
    let text = text_of(rt, line, ended);
    let text = text.as_str().strip_suffix(way.1);
    lists_thousand(rt, line, text.expect(rt, "the lines of the keys"));
}

/// Checks the lines of that run.
fn lists_thousand(rt: &impl Abort, line: &str, text: &str) {
    let is_write = |line: &&str| line.ends_with(" 010 00000");
    assert!(rt; text.lines().count() == 1009, "{line}");
    assert!(rt; text.lines().filter(is_write).count() == 1000, "{line}");
    has_line(rt, text, 8, "STOP Limit CYCLE 4018 WRITES 1000");
    has_line(rt, text, 9, "1 010 00000");
    has_line(rt, text, 10, "5 010 00000");
    has_line(rt, text, 1008, "4014 010 00000");
}

#[test]
fn thousand_writes(rt: HostRuntime) {
    shows_thousand(&rt, " --slots 1", WAYS[0], &Open);
    shows_thousand(&rt, "", WAYS[0], &Open);
}

/// In one slot a block is one write, so write 1 is in the ring when the machine reaches write 2. The machine waits
/// there until the display has taken write 1, and the display holds write 1 until the machine has reached write 2:
/// both continue only if each is on a thread of its own.
#[test]
fn both_threads_run(rt: HostRuntime) {
    for way in WAYS {
        let meeting = Rendezvous::new(2, TURNS, TURNS);
        shows_thousand(&rt, " --slots 1", way, &meeting);
        assert!(rt; meeting.machine_met.is_up(), "the machine{}", way.0);
        assert!(rt; meeting.display_met.is_up(), "the display{}", way.0);
    }
}

/// While the display holds write 1, write 2 fills the one slot, and write 3 waits for it: the machine reaches write 4
/// only when the display continues.
#[test]
fn ring_has_no_more_room(rt: HostRuntime) {
    for way in WAYS {
        let meeting = Rendezvous::new(4, TURNS, FEW_TURNS);
        shows_thousand(&rt, " --slots 1", way, &meeting);
        assert!(rt; meeting.machine_met.is_up(), "the machine{}", way.0);
        assert!(rt; !meeting.display_met.is_up(), "the display{}", way.0);
        assert!(rt; meeting.sent.is_up(), "write 4{}", way.0);
    }
}

/// The default is 256 slots. The first block carries 64 writes, and the gate is called for write 2 before the block
/// is sent: however long the machine waits there, the display has nothing to take.
#[test]
fn ring_has_256_slots_by_default(rt: HostRuntime) {
    for way in WAYS {
        let meeting = Rendezvous::new(2, FEW_TURNS, 0);
        shows_thousand(&rt, "", way, &meeting);
        assert!(rt;
            meeting.sent.is_up() && meeting.received.is_up(),
            "both{}",
            way.0
        );
        assert!(rt; !meeting.machine_met.is_up(), "the machine{}", way.0);
    }
}

/// A slow machine leaves the ring empty, and a slow display leaves it full: the text is the same.
#[test]
fn slow_threads(rt: HostRuntime) {
    for slots in [" --slots 1", " --slots 2", " --slots 65536"] {
        shows_slowly(&rt, slots, &Slow::machine(SPIN));
        shows_slowly(&rt, slots, &Slow::display(SPIN));
    }
}

/// Runs all three programs through a gate, without and with live keys.
fn shows_slowly(rt: &impl Host, slots: &str, gate: &Slow) {
    for way in WAYS {
        shows_thousand(rt, slots, way, gate);
        stops_slowly(rt, slots, way, gate, (DIVISION, ONE_POKED, DIVIDED));
        stops_slowly(rt, slots, way, gate, (EDRUPT, b"", EDRUPTED));
    }
}

/// Runs a program of one write through a gate and checks its lines after `STOP `. The program is its listing, its
/// script and those lines.
fn stops_slowly(
    rt: &impl Host,
    slots: &str,
    way: (&str, &str),
    gate: &Slow,
    (listing, script, after): (&str, &[u8], &str),
) {
    let line = format!(in rt.alloc(); "--limit 100 --log{slots}{}", way.0).expect(rt, "memory");
    let line = line.as_str();
    let ended = run_gated(rt, without_keys(line, listing, script), gate);
    let out = format!(in rt.alloc(); "PROG __\n{REST}STOP {after}{}", way.1).expect(rt, "memory");
    has_ended(rt, line, &ended, OK, out.as_str(), "");
}
