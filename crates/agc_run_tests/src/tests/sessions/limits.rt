//! Tests files that return one byte a read, and long texts.
use super::streams::Source;
use super::*;

/// Files that return one byte a read: 4098 bytes of rope, 5000 of script and 5000 of key text.
#[test]
fn one_byte_a_read(rt: HostRuntime) {
    let (rope, blank) = (parity_rope(&rt), many(&rt, b'\n', 5000));
    let mut rope = Source::new(rope.as_slice(), 1, 0);
    let mut script = Source::new(blank.as_slice(), 1, 0);
    let mut keys = Source::new(blank.as_slice(), 1, 0);
    let line = "--limit 10 --form parity --live";
    let ended = run_files(&rt, line, &mut rope, &mut script, &mut keys, &Open);
    let text = format!(in rt.alloc(); "PROG __\n{REST}STOP {IDLED}REST 0\n").expect(&rt, "memory");
    has_ended(&rt, line, &ended, OK, text.as_str(), "");
}

/// A text above a megabyte is written completely: in 400,000 cycles each write has its line.
#[test]
fn long_text(rt: HostRuntime) {
    let line = "--limit 400000 --log";
    let ended = run_gated(&rt, without_keys(line, WRITES, b""), &Open);
    let text = text_of(&rt, line, ended);
    assert!(rt; text.len() > 1_048_576);
    counts_its_writes(&rt, text.as_str());
}

/// Checks that the stop's line gives the number of write lines that follow it.
fn counts_its_writes(rt: &(impl AllocGlobal + Abort), text: &str) {
    let lines = text.lines().count();
    let stop = text.lines().nth(8).expect(rt, "the stop line");
    let writes = format!(in rt.alloc(); " WRITES {}", lines.saturating_sub(9)).expect(rt, "memory");
    let is_so = stop.starts_with("STOP Limit CYCLE 40000") && stop.ends_with(writes.as_str());
    assert!(rt; is_so, "{stop}");
}
