//! Tests of the panel, the ring, command lines and sessions, with values and runs worked out by hand.
ghost use Rattle.std.specs.Prelude.{◌≡◌, false};

mod args;
mod gate;
mod panel;
mod pipe;
mod session;
mod sessions;
mod surface;
mod watch_spec;
mod watcher;
mod words;

use agc_machine::Machine;
use agc_script::Script;
use agc_store::Rope;
use agc_test_support::rope_file;
use std::process::Abort;
use std::sync::Wait;
use std::thread::Threads;

/// The runtime that the tests' sessions need.
trait Host: AllocGlobal + Abort + Threads + Wait + Sync {}

impl<H: AllocGlobal + Abort + Threads + Wait + Sync> Host for H {}

/// Returns the rope file of a listing, or ends the test; so do the helpers beside it. A test that returned failures
/// would take the prover many times as long.
fn file_of(rt: &(impl AllocGlobal + Abort), listing: &str) -> Vec<u8> {
    rope_file(rt.alloc(), listing).expect(rt, "a good listing")
}

/// Returns the rope of a listing.
fn rope_of(rt: &(impl AllocGlobal + Abort), listing: &str) -> Rope {
    let file = file_of(rt, listing);
    Rope::read(rt.alloc(), file.as_slice()).expect(rt, "a rope")
}

/// Parses the script of a text.
fn script_of(rt: &(impl AllocGlobal + Abort), text: &[u8]) -> Script {
    Script::parse(rt.alloc(), text).expect(rt, "a script")
}

/// Returns the machine of a listing and a script at the start of a run up to a limit of cycles.
fn machine_of(rt: &(impl AllocGlobal + Abort), listing: &str, script: Script, limit: u64) -> Machine
    ensures { result.begun ≡ false }
{
    let machine = new_machine(rt, rope_of(rt, listing), script, limit);
    assert!(rt; machine.fresh());
    machine
}

/// Does the same for a rope. It has no contract, so that the contract above rests on `fresh` alone.
fn new_machine(rt: &impl Abort, rope: Rope, script: Script, limit: u64) -> Machine {
    Machine::new(rope, script, limit)
        .ok()
        .expect(rt, "the limit is in range")
}
