//! Tests whole sessions: gates that delay a thread, live keys, and streams that fail. Sessions that need none of these
//! are runs in `tests/agc.d`.
mod limits;
mod live;
mod streams;
mod threads;
mod unread;
mod until;

use super::{Host, file_of};
use agc_cli::{Options, parse_args};
use agc_io::{OK, REFUSED};
use agc_ring::{Gate, Open};
use agc_run::session;
use agc_test_support::{DIVISION, EDRUPT, IDLE, KEYED_WRITES, RELAY_WORD, WRITES};
use std::io::{Read, Write};
use std::process::Abort;

/// The panel's lines after `PROG ..` if no write sets their fields.
const REST: &str = "VERB __
NOUN __
R1 ______
R2 ______
R3 ______
FLASH off
LAMPS none
";

/// The script of the division: it sets the divisor's cell to 1.
const ONE_POKED: &[u8] = b"0 poke 0 100 1\n";

/// The output of the division after `STOP `, with the log.
const DIVIDED: &str = "DivisionUndefined CYCLE 6 WRITES 1\n3 010 00002\n";

/// The output of EDRUPT after `STOP `, with the log.
const EDRUPTED: &str = "Edrupt CYCLE 4 WRITES 1\n1 010 00000\n";

/// The output of the idle loop of ten cycles after `STOP `.
const IDLED: &str = "Limit CYCLE 10 WRITES 0\n";

/// Returns the bytes of a rope in the parity form, in which banks 00 and 01 come first: TCF 4000 is the word after
/// their 2048.
fn parity_rope(rt: &(impl AllocGlobal + Abort)) -> Vec<u8> {
    let mut rope = Vec::new(rt.alloc());
    for _ in 0..2048 {
        rope.extend_from_slice(&[0x00, 0x01]).expect(rt, "memory");
    }
    rope.extend_from_slice(&[0x30, 0x01]).expect(rt, "memory");
    rope
}

/// Returns `times` copies of a byte.
fn many(rt: &(impl AllocGlobal + Abort), byte: u8, times: usize) -> Vec<u8> {
    vec![in rt.alloc(); byte; times].expect(rt, "memory")
}

/// A session: the words after `agc rope script`, the listing of its rope, and the bytes of its other files.
#[derive(Clone, Copy)]
struct Requested<'a> {
    line: &'a str,
    listing: &'a str,
    script: &'a [u8],
    keys: &'a [u8],
}

/// Returns a session without live keys.
fn without_keys<'a>(line: &'a str, listing: &'a str, script: &'a [u8]) -> Requested<'a> {
    Requested {
        line,
        listing,
        script,
        keys: b"",
    }
}

/// Returns a session with live keys and an empty script.
fn with_keys<'a>(line: &'a str, listing: &'a str, keys: &'a [u8]) -> Requested<'a> {
    Requested {
        line,
        listing,
        script: b"",
        keys,
    }
}

/// The outcome of a session: its status, and what it wrote to each stream.
#[derive(Drop)]
struct Ended {
    status: u8,
    out: Vec<u8>,
    err: Vec<u8>,
}

/// Parses the options of a command line after `agc rope script`.
fn options(rt: &(impl AllocGlobal + Abort), line: &str) -> Options {
    let mut words = Vec::new(rt.alloc());
    for word in ["agc", "rope", "script"] {
        words.push(word).expect(rt, "memory");
    }
    for word in line.split(' ') {
        words.push(word).expect(rt, "memory");
    }
    parse_args(rt.alloc(), words.as_slice())
        .ok()
        .expect(rt, "a good command line")
}

/// Runs a session over memory through a gate.
fn run_gated<G: Gate + Sync>(rt: &impl Host, requested: Requested<'_>, gate: &G) -> Ended {
    let file = file_of(rt, requested.listing);
    let (mut rope, mut script, mut keys) = (file.as_slice(), requested.script, requested.keys);
    run_files(rt, requested.line, &mut rope, &mut script, &mut keys, gate)
}

/// Runs a session on these files through a gate.
fn run_files<P: Read, S: Read, K: Read, G: Gate + Sync>(
    rt: &impl Host,
    line: &str,
    rope: &mut P,
    script: &mut S,
    keys: &mut K,
    gate: &G,
) -> Ended {
    let mut out = Vec::new(rt.alloc());
    let mut err = Vec::new(rt.alloc());
    let options = options(rt, line);
    let status = session(
        rt,
        rt.alloc(),
        &options,
        rope,
        script,
        keys,
        gate,
        &mut out,
        &mut err,
    );
    Ended { status, out, err }
}

/// Returns the status of a session on a listing with empty files that writes to these two streams.
fn status_of<W: Write, E: Write>(
    rt: &impl Host,
    line: &str,
    listing: &str,
    out: &mut W,
    err: &mut E,
) -> u8 {
    let file = file_of(rt, listing);
    let options = options(rt, line);
    let (mut rope, mut script, mut keys): (&[u8], &[u8], &[u8]) = (file.as_slice(), b"", b"");
    session(
        rt,
        rt.alloc(),
        &options,
        &mut rope,
        &mut script,
        &mut keys,
        &Open,
        out,
        err,
    )
}

/// Checks the status of a session and what it wrote.
fn has_ended(rt: &impl Abort, line: &str, ended: &Ended, status: u8, out: &str, err: &str) {
    assert_eq!(rt; ended.status, status, "{line}");
    assert!(rt;
        ended.out.as_slice() == out.as_bytes(),
        "{line}: another output"
    );
    assert!(rt;
        ended.err.as_slice() == err.as_bytes(),
        "{line}: another error"
    );
}

/// Checks that a session ended with this error line, or with a text if there is no line.
fn ends_with(rt: &impl Abort, ended: &Ended, reported: &str) {
    let status = if reported.is_empty() { OK } else { REFUSED };
    assert!(rt; ended.err.as_slice() == reported.as_bytes(), "{reported}");
    assert!(rt; ended.status == status, "{reported}");
    assert!(rt; ended.out.is_empty() != reported.is_empty());
}

/// Returns the text of a session that ended at a stop and wrote no error.
fn text_of(rt: &impl Abort, line: &str, ended: Ended) -> String {
    assert!(rt; ended.status == OK && ended.err.is_empty(), "{line}");
    String::from_utf8(ended.out).ok().expect(rt, "a text")
}

/// Checks that this is the line at a place of a text.
fn has_line(rt: &impl Abort, text: &str, place: usize, line: &str) {
    assert_eq!(rt; text.lines().nth(place), Some(line));
}
