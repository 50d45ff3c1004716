//! Tests live keys: the printed tape and remaining keys.
use super::*;
use agc_test_support::{KeyRendezvous, Slow};

/// How often the keyboard's gate looks for what must come.
const TURNS: u32 = 1_000_000;

/// Spaces, tabs, carriage returns and line feeds separate the names of keys. A run of one cycle takes the first of the
/// 18 keys, at its start, or none.
#[test]
fn key_names(rt: HostRuntime) {
    let line = "--limit 1 --live";
    let keys = b"0 1\t2\r3\n4 5  6\t\t7\r\n8 9 VERB NOUN RSET KEYREL + - ENTR CLR\n";
    let requested = with_keys(line, RELAY_WORD, keys);
    let text = text_of(&rt, line, run_gated(&rt, requested, &Open));
    assert!(rt;
        is_first_or_none(&taken_apart(&rt, text.as_str())),
        "{text}"
    );
}

/// Returns whether the first of 18 keys is taken at the start, or none is.
fn is_first_or_none(apart: &Apart) -> bool {
    let tape = apart.tape.as_str();
    tape == "" && apart.left == 18 || tape == "0 key 0\n" && apart.left == 17
}

/// The text of a live run in parts: the lines of the tape, the number of keys left, and all other lines.
#[derive(Drop)]
struct Apart {
    tape: String,
    left: usize,
    shown: String,
}

fn taken_apart(rt: &(impl AllocGlobal + Abort), text: &str) -> Apart {
    let mut apart = Apart {
        tape: String::new(rt.alloc()),
        left: usize::MAX,
        shown: String::new(rt.alloc()),
    };
    for line in text.lines() {
        if let Some(number) = line.strip_prefix("REST ") {
            apart.left = number.parse::<usize>().unwrap_or(usize::MAX);
        } else if line.contains(" key ") {
            push_line(rt, &mut apart.tape, line);
        } else {
            push_line(rt, &mut apart.shown, line);
        }
    }
    apart
}

/// Appends a line to a text.
fn push_line(rt: &impl Abort, text: &mut String, line: &str) {
    text.push_str(line).expect(rt, "memory");
    text.push('\n').expect(rt, "memory");
}

/// Returns whether each line of a tape has its key in order, at least `spacing` cycles after the last one.
fn is_tape(tape: &str, spacing: u64) -> bool {
    let mut least = 0;
    for (line, name) in tape.lines().zip(["VERB", "3", "5"]) {
        let cycle = cycle_of_key(line, name).unwrap_or(u64::MAX);
        if cycle < least || cycle >= 100_000 {
            return false;
        }
        least = cycle.saturating_add(spacing);
    }
    true
}

/// Returns the cycle of a tape's line if the key is this one.
fn cycle_of_key(line: &str, name: &str) -> Option<u64> {
    let cycle = line.strip_suffix(name)?.strip_suffix(" key ")?;
    cycle.parse::<u64>().ok()
}

/// Presses VERB, 3 and 5 while the writes run, and checks the lines of the tape and of the keys left: the keys are in
/// order, and none is lost. Then replays the run. Returns how many keys were taken.
fn pressed<G: Gate + Sync>(rt: &impl Host, spacing: u64, gate: &G) -> usize {
    let apart = taken_apart(rt, text_of_pressed(rt, spacing, gate).as_str());
    let tape = apart.tape.as_str();
    let taken = tape.lines().count();
    assert!(rt; is_tape(tape, spacing), "{tape}");
    assert!(rt; taken.saturating_add(apart.left) == 3);
    plays_again(rt, tape, apart.shown.as_str());
    taken
}

/// Returns the text of that run.
fn text_of_pressed<G: Gate + Sync>(rt: &impl Host, spacing: u64, gate: &G) -> String {
    let line = format!(in rt.alloc(); "--limit 100000 --log --live --spacing {spacing}").expect(
        rt, "memory",
    );
    let requested = with_keys(line.as_str(), KEYED_WRITES, b"VERB 3 5\n");
    let ended = run_gated(rt, requested, gate);
    text_of(rt, line.as_str(), ended)
}

/// Checks that the tape's lines are lines of a script, and that the text of the plain run is the same except for
/// them.
fn plays_again(rt: &impl Host, tape: &str, shown: &str) {
    let line = "--limit 100000 --log";
    let again = run_gated(rt, without_keys(line, KEYED_WRITES, tape.as_bytes()), &Open);
    assert!(rt; again.status == OK);
    assert!(rt; again.out.as_slice() == shown.as_bytes(), "another run");
}

#[test]
fn live_keys_replay(rt: HostRuntime) {
    for spacing in [8533, 1] {
        pressed(&rt, spacing, &Open);
        let gate = KeyRendezvous::new(TURNS);
        assert_eq!(rt; pressed(&rt, spacing, &gate), 3);
        assert!(rt; gate.machine_met.is_up() && gate.display_met.is_up());
    }
}

/// However slow the threads are, no key is lost, and the tape replays the run.
#[test]
fn slow_keyboards(rt: HostRuntime) {
    pressed(&rt, 8533, &Slow::machine(1000));
    pressed(&rt, 8533, &Slow::display(1000));
    pressed(&rt, 8533, &Slow::keys(100_000));
}
