//! Tests one session over memory that stops and one that is rejected, and reads the files of a session.
use super::{Host, file_of};
use agc_cli::Options;
use agc_io::{OK, REFUSED};
use agc_load::{LoadFault, read_rope, read_script};
use agc_ring::Open;
use agc_run::session;
use agc_script::{FaultKind, ScriptFault, What};
use agc_store::{RopeFault, RopeForm, Store};
use agc_test_support::RELAY_WORD;
use std::process::Abort;

/// Returns the options of a run of ten cycles with its log.
fn options(rt: &(impl AllocGlobal + Abort), slots: usize) -> Options {
    let alloc = rt.alloc();
    Options {
        rope: String::from_str(alloc, "rope").expect(rt, "memory"),
        script: String::from_str(alloc, "script").expect(rt, "memory"),
        limit: 10,
        slots,
        watch: None,
        log: true,
        form: RopeForm::Classic,
        until: None,
        live: false,
        spacing: 8533,
    }
}

/// The relay word is shown, and a ring of no slots is rejected.
#[test]
fn relay_word_shows_prog(rt: HostRuntime) {
    let text = "PROG 12
VERB __
NOUN __
R1 ______
R2 ______
R3 ______
FLASH off
LAMPS none
STOP Limit CYCLE 10 WRITES 1
3 010 54171
";
    let file = file_of(&rt, RELAY_WORD);
    ends(&rt, 1, file.as_slice(), (OK, text, ""));
    ends(&rt, 0, file.as_slice(), (REFUSED, "", "agc: slots\n"));
}

/// Checks the status of a session with a ring of `slots` slots, and what it writes to its two streams.
fn ends(
    rt: &impl Host,
    slots: usize,
    mut rope: &[u8],
    (status, reported, refused): (u8, &str, &str),
) {
    let (mut script, mut keys): (&[u8], &[u8]) = (b"", b"");
    let mut out = Vec::new(rt.alloc());
    let mut err = Vec::new(rt.alloc());
    let options = options(rt, slots);
    let ended = session(
        rt,
        rt.alloc(),
        &options,
        &mut rope,
        &mut script,
        &mut keys,
        &Open,
        &mut out,
        &mut err,
    );
    let is_so = ended == status
        && out.as_slice() == reported.as_bytes()
        && err.as_slice() == refused.as_bytes();
    assert!(rt; is_so, "{slots} slots");
}

/// A rope of one word, which is at the start of bank 2 in a classic file, and a rope that ends within a word.
#[test]
fn a_rope_is_read(rt: HostRuntime) {
    let mut file: &[u8] = &[0x30, 0x02];
    let rope = read_rope(rt.alloc(), RopeForm::Classic, &mut file)
        .ok()
        .expect(&rt, "a rope");
    assert!(rt; Store::new(rope).fixed(2, 0).bits() == 0o14001);
    let mut odd: &[u8] = &[0x30];
    let refusal = read_rope(rt.alloc(), RopeForm::Classic, &mut odd).err();
    assert!(rt; refusal == Some(LoadFault::Rope(RopeFault::OddLength)));
}

/// A script of one event, and a script whose second line is not an event.
#[test]
fn a_script_is_read(rt: HostRuntime) {
    let mut file: &[u8] = b"7 raise 5\n";
    let script = read_script(rt.alloc(), &mut file)
        .ok()
        .expect(&rt, "a script");
    assert!(rt; script.len() == 1);
    assert!(rt; script.at(0).cycle == 7 && script.at(0).what == What::Raise(5));
    let mut faulty: &[u8] = b"7 raise 5\n8 lower 5\n";
    let refusal = read_script(rt.alloc(), &mut faulty).err();
    let fault = ScriptFault {
        line: 2,
        kind: FaultKind::UnknownWord,
    };
    assert!(rt; refusal == Some(LoadFault::Script(fault)));
}
