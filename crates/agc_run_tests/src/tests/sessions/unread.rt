//! Tests reads and writes that fail, each in turn.
use super::streams::{Sink, Source};
use super::*;
use agc_io::WRITE_FAILED;

/// Runs the relay word with `0 raise 1` and one live key, from sources of few bytes a read that each fail at one
/// read.
fn reads_fail(rt: &impl Host, fails_at: [u32; 3], reported: &str) {
    let file = file_of(rt, RELAY_WORD);
    let mut rope = Source::new(file.as_slice(), 4, fails_at[0]);
    let mut script = Source::new(b"0 raise 1", 4, fails_at[1]);
    let mut keys = Source::new(b" \tKEYREL\n", 4, fails_at[2]);
    let line = "--limit 2 --live";
    let ended = run_files(rt, line, &mut rope, &mut script, &mut keys, &Open);
    ends_with(rt, &ended, reported);
    let all_read = rope.is_at_end() && script.is_at_end() && keys.is_at_end();
    assert!(rt; ended.status == REFUSED || all_read);
}

/// Ten and nine bytes are read in three reads, and the end in a fourth.
#[test]
fn one_read_fails(rt: HostRuntime) {
    for at in 1..5 {
        reads_fail(&rt, [at, 0, 0], "agc: cannot read rope\n");
        reads_fail(&rt, [at, at, at], "agc: cannot read rope\n");
        reads_fail(&rt, [0, at, 0], "agc: cannot read script\n");
        reads_fail(&rt, [0, at, at], "agc: cannot read script\n");
        reads_fail(&rt, [0, 0, at], "agc: cannot read keys\n");
    }
    reads_fail(&rt, [5, 5, 5], "");
}

/// Returns the status if `out` takes few bytes a write and fails at a write.
fn output_fails(rt: &impl Host, at: u32) -> u8 {
    let mut out = Sink::new(rt.alloc(), 5, at);
    let mut err = Vec::new(rt.alloc());
    let status = status_of(rt, "--limit 10 --log", RELAY_WORD, &mut out, &mut err);
    assert!(rt; err.is_empty(), "a line after a failed write {at}");
    status
}

/// The text has 116 bytes, which 24 writes of at most five bytes take.
#[test]
fn one_write_fails(rt: HostRuntime) {
    for at in 1..25 {
        assert!(rt; output_fails(&rt, at) == WRITE_FAILED, "write {at}");
    }
    assert!(rt; output_fails(&rt, 25) == OK);
}

#[test]
fn refusal_is_not_written(rt: HostRuntime) {
    let mut out = Vec::new(rt.alloc());
    let mut err = Sink::new(rt.alloc(), 100, 1);
    let status = status_of(&rt, "--limit 0", IDLE, &mut out, &mut err);
    assert!(rt; status == WRITE_FAILED);
    assert!(rt; out.is_empty() && err.bytes.is_empty());
}
