//! Tests of listings, traces, profiles, comparisons, films and reports, worked out by hand.
ghost use Rattle.std.specs.Prelude.{◌≡◌, false};

mod check;
mod count;
mod dumps;
mod film;
mod includes;
mod jobs;
mod merging;
mod misnamed;
mod names;
mod progress;
mod restore;
mod rope_listing;
mod study;
mod trace;

use agc_cli::ArgsFault;
use agc_machine::Machine;
use agc_script::Script;
use agc_store::Rope;
use agc_study_args::Args;
use agc_study_cli::parse;
use agc_symbols::SymbolTable;
use agc_test_support::rope_file;
use agc_trace::{Only, Selection};
use std::fmt::Debug;
use std::process::Abort;

// The helpers end the test if a value is missing, and each row of a test is one call: a test that returned failures,
// or that asserted much by itself beside values that are dropped, would take the prover many times as long.

/// Shows a program's number, and waits.
static SHOWS_PROG: &str = "
4000 34004 CA 4004
4001 00006 EXTEND
4002 01010 WRITE 10
4003 14003 TCF 4003
4004 54171 a relay word: PROG 12
";

/// Returns the rope of a listing.
fn rope_of(rt: &(impl AllocGlobal + Abort), listing: &str) -> Rope {
    let bytes = rope_file(rt.alloc(), listing)
        .ok()
        .expect(rt, "a rope file");
    Rope::read(rt.alloc(), bytes.as_slice())
        .ok()
        .expect(rt, "a rope")
}

/// Reads a symbol file.
fn symbols(rt: &(impl AllocGlobal + Abort), text: &str) -> SymbolTable {
    SymbolTable::read(rt.alloc(), text.as_bytes())
        .ok()
        .expect(rt, "names")
}

/// Parses a command line.
fn parsed(rt: &(impl AllocGlobal + Abort), line: &str) -> Result<Args, ArgsFault> {
    let mut words = Vec::new(rt.alloc());
    for word in line.split(' ') {
        words.push(word).expect(rt, "memory");
    }
    parse(rt.alloc(), words.as_slice())
}

/// Returns the machine of a listing and a script at the start of a run up to a limit of cycles.
fn machine_of(rt: &(impl AllocGlobal + Abort), listing: &str, script: &str, limit: u64) -> Machine
    ensures { result.begun ≡ false }
{
    let script = Script::parse(rt.alloc(), script.as_bytes())
        .ok()
        .expect(rt, "a script");
    let machine = new_machine(rt, rope_of(rt, listing), script, limit);
    assert!(rt; machine.fresh());
    machine
}

/// Returns the machine of a rope. It has no contract, so that the contract above rests on `fresh` alone.
fn new_machine(rt: &impl Abort, rope: Rope, script: Script, limit: u64) -> Machine {
    Machine::new(rope, script, limit)
        .ok()
        .expect(rt, "the limit is in range")
}

/// Returns a selection of trace lines: some or all lines in a range of cycles.
fn between(rt: &impl AllocGlobal, from: u64, to: u64, only: Option<Only>) -> Selection {
    Selection {
        from,
        to,
        only,
        places: Vec::new(rt.alloc()),
        orders: Vec::new(rt.alloc()),
        channels: Vec::new(rt.alloc()),
        cells: Vec::new(rt.alloc()),
        last: None,
    }
}

/// Returns an owned copy of a text.
fn owned(rt: &(impl AllocGlobal + Abort), text: &str) -> String {
    String::from_str(rt.alloc(), text).ok().expect(rt, "memory")
}

/// Returns `times` copies of this byte.
fn repeated(rt: &(impl AllocGlobal + Abort), byte: u8, times: usize) -> Vec<u8> {
    vec![in rt.alloc(); byte; times].ok().expect(rt, "memory")
}

/// Checks that two values are equal, in the named row.
fn same<T: PartialEq + Debug + Drop>(rt: &impl Abort, reported: T, wanted: T, row: &str) {
    assert_eq!(rt; reported, wanted, "{row}");
}

/// Checks the lines of a text.
fn has_lines(rt: &impl Abort, text: &str, lines: &[&str]) {
    let mut reported = text.lines();
    for line in lines {
        same(rt, reported.next(), Some(*line), "line");
    }
    same(rt, reported.next(), None, "end");
}
