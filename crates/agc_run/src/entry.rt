//! One run of `agc`: from the files and the options to the printed text, or to the line of a refusal.
ghost use Rattle.std.specs.Prelude.{◌≡◌, ◌⊎◌, ◌++◌, false, true, OnOk, IfSome};
ghost use Rattle.std.specs.Io.KnownBytes.{Keeps, Appends, IsAtEnd};
ghost use Rattle.agc_panel.specs.WatchSpec.{spec_of};
ghost use Rattle.agc_run.specs.Entry.{IsAccepted, IsAnswered, IsKeysReport, IsPrinted};
ghost use Rattle.agc_run.specs.Entry.{IsReported, IsRunReport, session_steps};
ghost use Rattle.agc_load.specs.Files.{given_files, keys_steps};
ghost use Rattle.agc_load.specs.Options.{parsed_by};
ghost use Rattle.agc_load.specs.Prepare.{run_steps};
ghost use Rattle.agc_load.specs.Steps.{ComesOf, IsOutcome};
ghost use Rattle.agc_load.specs.Fault.{refusal_line};
ghost use Rattle.agc_load.specs.declared.fault.LoadFault.{LoadFault};

use crate::print::print;
use crate::report::Report;
use crate::run::{report_live_run, report_run};
use crate::run_options::{check_live_run, check_run};
use agc_cli::Options;
use agc_io::{OK, REFUSED, WRITE_FAILED, status_of};
use agc_load::{LoadFault, Loaded, load, read_keys, read_rope, read_script};
use agc_ring::Gate;
use std::alloc::Global;
use std::io::{Read, Write};
use std::sync::Wait;
use std::thread::Threads;

/// Runs `agc` once: reads both files to their end, and the text of live keys if the options request
/// them, runs the machine on its own thread with the display on the caller's, and writes the report
/// to `out`, or the line of the first refusal to `err`. Returns the status: `OK` at any stop,
/// `REFUSED` with a line on `err`, `WRITE_FAILED` if a write failed. All text is made before any is
/// written. Both threads call the gate.
pub fn session<H, R: Read, S: Read, K: Read, G: Gate + Sync, W: Write, E: Write>(
    rt: &H,
    alloc: Global,
    options: &Options,
    rope: &mut R,
    script: &mut S,
    keys: &mut K,
    gate: &G,
    out: &mut W,
    err: &mut E,
) -> u8
where
    H: Threads + Wait + Sync,
    ensures status { (result ≡ OK) ⊎ ((result ≡ REFUSED) ⊎ (result ≡ WRITE_FAILED)) }
    ensures accepted { result ≡ OK → IfSome (given_files options.now (R.remaining rope.old)
        (S.remaining script.old) (K.remaining keys.old)) (IsAccepted options.now) }
    ensures printed { result ≡ OK → IfSome (given_files options.now (R.remaining rope.old)
        (S.remaining script.old) (K.remaining keys.old))
        (IsPrinted options.now (W.contents out.old) (W.contents out.new)) }
    ensures stderr_unchanged { result ≡ OK → Keeps (E.contents err.old) (E.contents err.new) }
    ensures rope_end { result ≡ OK → IsAtEnd (R.remaining rope.new) }
    ensures script_end { result ≡ OK → IsAtEnd (S.remaining script.new) }
    ensures keys_end { result ≡ OK → options.now.live ≡ true → IsAtEnd (K.remaining keys.new) }
    ensures untouched { options.now.live ≡ false → keys.new ≡ keys.old }
    ensures refused { result ≡ REFUSED → (r : LoadFault)
        × Appends (E.contents err.old) (E.contents err.new) (refusal_line r)
        × IfSome (given_files options.now (R.remaining rope.old) (S.remaining script.old)
        (K.remaining keys.old)) (λ files. IsOutcome (session_steps options.now files) r) }
    ensures stdout_unchanged { result ≡ REFUSED → Keeps (W.contents out.old) (W.contents out.new) }

    // Whichever write failed, the other stream is unchanged.
    ensures unwritten { result ≡ WRITE_FAILED → Keeps (W.contents out.old) (W.contents out.new)
        ⊎ Keeps (E.contents err.old) (E.contents err.new) }
{
    match answer(rt, alloc, options, rope, script, keys, gate) {
        Ok(text) => status_of(OK, out.write_all(text.as_bytes())),
        Err(refusal) => status_of(REFUSED, refusal.write_to(err)),
    }
}

/// Returns the whole text, or the refusal.
fn answer<H: Threads + Wait + Sync, R: Read, S: Read, K: Read, G: Gate + Sync>(
    rt: &H,
    alloc: Global,
    options: &Options,
    rope: &mut R,
    script: &mut S,
    keys: &mut K,
    gate: &G,
) -> Result<String, LoadFault>
    ensures answered { IfSome (given_files options.now (R.remaining rope.old)
        (S.remaining script.old) (K.remaining keys.old)) (IsAnswered options.now result) }
    ensures rope_end { OnOk result (IsAtEnd (R.remaining rope.new)) }
    ensures script_end { OnOk result (IsAtEnd (S.remaining script.new)) }
    ensures keys_end { OnOk result (options.now.live ≡ true → IsAtEnd (K.remaining keys.new)) }
    ensures untouched { options.now.live ≡ false → keys.new ≡ keys.old }
{
    let report = report(rt, alloc, options, rope, script, keys, gate)?;
    print(alloc, &report)
}

/// Returns the report of the run, or the refusal.
fn report<H: Threads + Wait + Sync, R: Read, S: Read, K: Read, G: Gate + Sync>(
    rt: &H,
    alloc: Global,
    options: &Options,
    rope: &mut R,
    script: &mut S,
    keys: &mut K,
    gate: &G,
) -> Result<Report, LoadFault>
    ensures reported { IfSome (given_files options.now (R.remaining rope.old)
        (S.remaining script.old) (K.remaining keys.old)) (IsReported options.now result) }
    ensures rope_end { OnOk result (IsAtEnd (R.remaining rope.new)) }
    ensures script_end { OnOk result (IsAtEnd (S.remaining script.new)) }
    ensures keys_end { OnOk result (options.now.live ≡ true → IsAtEnd (K.remaining keys.new)) }
    ensures untouched { options.now.live ≡ false → keys.new ≡ keys.old }
{
    let rope = read_rope(alloc, options.form, rope)?;
    let script = read_script(alloc, script)?;
    let watch = options.watch.as_ref();
    let prepared = load(rope, script, options.limit, &options.until, watch)?;
    if options.live {
        live_report(rt, alloc, options, prepared, keys, gate)
    } else {
        plain_report(rt, alloc, options, prepared, gate)
    }
}

/// Returns the report of a run without live keys, or the refusal.
fn plain_report<H: Threads + Wait + Sync, G: Gate + Sync>(
    rt: &H,
    alloc: Global,
    options: &Options,
    prepared: Loaded,
    gate: &G,
) -> Result<Report, LoadFault>
    requires live { options.now.live ≡ false }
    requires fresh { prepared.machine.begun ≡ false }
    requires watch { prepared.watch ≡ parsed_by spec_of options.now.watch }
    ensures { ComesOf (run_steps options.now) (IsRunReport options.now prepared.machine) result }
{
    let Loaded { machine, watch } = prepared;
    let run = check_run(rt, options, &watch)?;
    report_run(rt, alloc, options, machine, &run, gate)
}

/// Returns the report of a run with live keys, or the refusal.
fn live_report<H: Threads + Wait + Sync, K: Read, G: Gate + Sync>(
    rt: &H,
    alloc: Global,
    options: &Options,
    prepared: Loaded,
    keys: &mut K,
    gate: &G,
) -> Result<Report, LoadFault>
    requires live { options.now.live ≡ true }
    requires fresh { prepared.machine.begun ≡ false }
    requires watch { prepared.watch ≡ parsed_by spec_of options.now.watch }
    ensures report { IfSome (K.remaining keys.old)
        (λ file. ComesOf (keys_steps file ++ run_steps options.now)
        (IsKeysReport options.now prepared.machine file) result) }
    ensures end { OnOk result (IsAtEnd (K.remaining keys.new)) }
{
    let Loaded { machine, watch } = prepared;
    let keys = read_keys(alloc, keys)?;
    let (run, spacing) = check_live_run(rt, options, &watch)?;
    report_live_run(rt, alloc, options, machine, keys, spacing, &run, gate)
}
