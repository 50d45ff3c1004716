//! Tests stops at the service of a live key.
use super::*;
use std::sync::atomic::{AtomicBool, Ordering};
use std::thread;

/// Returns the text of a live run of VERB and 3 that stops at the service of a key, which is the order at 4024.
fn run_to_the_service<G: Gate + Sync>(
    rt: &impl Host,
    listing: &str,
    limit: u64,
    gate: &G,
) -> String {
    let line = format!(in rt.alloc(); "--limit {limit} --log --live --until 0,4024").expect(
        rt, "memory",
    );
    let requested = with_keys(line.as_str(), listing, b"VERB 3");
    let ended = run_gated(rt, requested, gate);
    text_of(rt, line.as_str(), ended)
}

/// TCF 4000 takes a cycle, and an interrupt 3: the stop is 3 cycles after the key, and the second key is left.
/// Without a key the run stops at the limit, which is below the first step of a timer.
#[test]
fn until_the_service_of_a_key(rt: HostRuntime) {
    let idle = "
4000 14000 TCF 4000
4024 50017 RESUME";
    let text = run_to_the_service(&rt, idle, 400, &Open);
    let text = text.as_str();
    let want = match text.split_once(" key VERB\n") {
        Some((before, _)) => text_with_a_key(&rt, cycle_in_last_line(before)),
        None => text_without_a_key(&rt),
    };
    assert!(rt; text == want.as_str(), "{text}");
}

/// Returns the number on the last line of a text, or 0.
fn cycle_in_last_line(text: &str) -> u64 {
    let line = text.lines().last().unwrap_or("");
    line.parse::<u64>().unwrap_or(0)
}

/// Returns the text of that run with a key at this cycle.
fn text_with_a_key(rt: &(impl AllocGlobal + Abort), cycle: u64) -> String {
    let stop = cycle.saturating_add(3);
    format!(in rt.alloc();
        "PROG __\n{REST}STOP Reached CYCLE {stop} WRITES 0\n{cycle} key VERB\nREST 1\n"
    ).expect(rt, "memory")
}

/// Returns the text of that run without a key.
fn text_without_a_key(rt: &(impl AllocGlobal + Abort)) -> String {
    format!(in rt.alloc(); "PROG __\n{REST}STOP Limit CYCLE 400 WRITES 0\nREST 2\n").expect(
        rt, "memory",
    )
}

/// Delays the machine before write 1 until a key is in the key ring.
#[derive(Drop)]
struct KeyFirst {
    fed: AtomicBool,
}

impl Gate for KeyFirst {
    fn before_send(&self, n: u64) {
        for _ in 0..1_000_000u32 {
            if n != 1 || self.fed.load(Ordering::SeqCst) {
                return;
            }
            thread::yield_now();
        }
    }

    fn after_receive(&self, _n: u64) {}

    fn key_sent(&self, _n: u64) {
        self.fed.store(true, Ordering::SeqCst);
    }
}

/// If a key is available before the first block of writes is sent, the run reaches the service with one key on the
/// tape. The tape as a script reaches it at the same cycle, after the same writes.
#[test]
fn until_the_service_of_a_key_that_comes(rt: HostRuntime) {
    let gate = KeyFirst {
        fed: AtomicBool::new(false),
    };
    let text = run_to_the_service(&rt, KEYED_WRITES, 100_000, &gate);
    let text = text.as_str();
    assert!(rt; text.contains("STOP Reached CYCLE "), "{text}");
    let tape = tape_in(text);
    let shown = run_of_tape(&rt, tape);
    let want = format!(in rt.alloc(); "{shown}{tape}\nREST 1\n").expect(&rt, "memory");
    assert!(rt; text == want.as_str(), "{text}");
}

/// Returns the line of the key in a text.
fn tape_in(text: &str) -> &str {
    text.lines()
        .find(|line| line.ends_with(" key VERB"))
        .unwrap_or("none")
}

/// Returns the text of the plain run on a tape.
fn run_of_tape(rt: &impl Host, tape: &str) -> String {
    let line = "--limit 100000 --log --until 0,4024";
    let ended = run_gated(rt, without_keys(line, KEYED_WRITES, tape.as_bytes()), &Open);
    String::from_utf8(ended.out).ok().expect(rt, "a text")
}
