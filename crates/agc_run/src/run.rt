//! Runs a machine to its stop, and reports the result.
ghost use Rattle.std.specs.Prelude.{◌≡◌, ◌⊎◌, ◌<◌, ◌^◌, All, false, true, IfOk, IfErr, None, Some};
ghost use Rattle.agc_machine.specs.Run.{Run, run_of};
ghost use Rattle.agc_panel.specs.WatchSpec.{spec_of};
ghost use Rattle.agc_pipe.specs.Shown.{ShowsRun};
ghost use Rattle.agc_load.specs.Options.{parsed_by};
ghost use Rattle.agc_run.specs.Entry.{show_refusal};
ghost use Rattle.agc_run.specs.Report.{IsLiveReport, IsReport, log_requested, tables_requested};
ghost use Rattle.agc_load.specs.declared.fault.LoadFault.TheVariants as refusal;

use crate::report::{LiveKeys, Log, Report};
use crate::run_options::RunOptions;
use agc_cli::Options;
use agc_load::LoadFault;
use agc_machine::Machine;
use agc_panel::{CheckedSpec, Tables};
use agc_pipe::{Live, ShowFault, Shown, Spacing, run_live_in, run_shown_in};
use agc_ring::Gate;
use agc_script::Key;
use agc_store::Store;
use agc_word::ChannelWrite;
use std::alloc::Global;
use std::sync::Wait;
use std::thread::Threads;

/// Runs a machine that is at its start, and reports the result.
pub fn report_run<H: Threads + Wait + Sync, G: Gate + Sync>(
    rt: &H,
    alloc: Global,
    options: &Options,
    machine: Machine,
    run: &RunOptions,
    gate: &G,
) -> Result<Report, LoadFault>
    requires fresh { machine.begun ≡ false }
    requires watch { run.now.watch ≡ parsed_by spec_of options.now.watch }
    ensures report { IfOk result (IsReport options.now (run_of machine) None) }
    ensures refused { IfErr result (λ r. (r ≡ LoadFault.Thread) ⊎ (r ≡ LoadFault.Memory)) }
{
    match run_shown_in(rt, alloc, machine, run.slots, gate) {
        Ok(shown) => Ok(report_shown(options, shown, None, &run.watch)),
        Err(fault) => Err(show_refusal(fault)),
    }
}

/// Runs a machine that is at its start with live keys, and reports the result.
pub fn report_live_run<H: Threads + Wait + Sync, G: Gate + Sync>(
    rt: &H,
    alloc: Global,
    options: &Options,
    machine: Machine,
    keys: Vec<Key>,
    spacing: Spacing,
    run: &RunOptions,
    gate: &G,
) -> Result<Report, LoadFault>
    requires fresh { machine.begun ≡ false }
    requires spacing { spacing ≡ options.now.spacing }
    requires watch { run.now.watch ≡ parsed_by spec_of options.now.watch }
    ensures report { IfOk result (IsLiveReport options.now machine keys.items) }
    ensures refused { IfErr result (λ r. (r ≡ LoadFault.Thread) ⊎ (r ≡ LoadFault.Memory)) }
{
    let live = match run_live_in(rt, alloc, machine, keys, spacing, run.slots, gate) {
        Ok(live) => live,
        Err(fault) => return Err(show_refusal(fault)),
    };
    let Live { shown, tape, rest } = live;
    let left = rest.len();
    let keys = LiveKeys { tape, left };
    Ok(report_shown(options, shown, Some(keys), &run.watch))
}

/// Returns the refusal for a run that failed.
pub fn show_refusal(fault: ShowFault) -> LoadFault
    ensures { result ≡ show_refusal fault }
{
    match fault {
        ShowFault::Slots => LoadFault::Slots,
        ShowFault::Spacing => LoadFault::Spacing,
        ShowFault::Memory => LoadFault::Memory,
        ShowFault::Thread => LoadFault::Thread,
    }
}

/// Makes the report that the options request from the result of a run.
fn report_shown(
    options: &Options,
    shown: Shown,
    keys: Option<LiveKeys>,
    watch: &Option<CheckedSpec>,
) -> Report
    requires channels { All (λ write. write.channel < 2 ^ 9) shown.log.items }
    requires watch { watch.now ≡ parsed_by spec_of options.now.watch }
    ensures { (run : Run) → ShowsRun run shown → IsReport options.now run keys result }
{
    let tables = watched_tables(&shown.store, watch);
    let Shown {
        log,
        panel,
        stop,
        cycle,
        ..
    } = shown;
    Report {
        panel,
        stop,
        cycle,
        writes: log.len(),
        log: requested_log(options.log, log),
        keys,
        tables,
    }
}

/// Returns the log if it was requested.
fn requested_log(requested: bool, writes: Vec<ChannelWrite>) -> Option<Log>
    requires { All (λ write. write.channel < 2 ^ 9) writes.items }
    ensures { result ≡ log_requested requested writes.items }
{
    if requested {
        Some(Log::new(writes))
    } else {
        None
    }
}

/// Returns the watched tables, if any.
fn watched_tables(store: &Store, places: &Option<CheckedSpec>) -> Option<Tables>
    ensures { result ≡ tables_requested places.now store.now }
{
    match places {
        Some(places) => Some(Tables::read(store, places)),
        None => None,
    }
}
