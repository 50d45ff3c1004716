//! Runs `jobs`: writes how the Executive's tables change in a run, or the page that shows who had the processor.
ghost use Rattle.std.specs.Prelude.{◌≡◌, ◌≢◌, ◌⊎◌};
ghost use Rattle.std.specs.Io.KnownBytes.{Appends, Keeps};
ghost use Rattle.agc_run_commands.specs.Fault.{error_line};
ghost use Rattle.agc_run_commands.specs.Watched.{IsWatchCut, IsWatchRefused, IsWatched};
ghost use Rattle.agc_run_commands.specs.declared.fault.AnalysisFault.TheVariants as analysis;
ghost use Rattle.agc_load.specs.declared.fault.LoadFault.{LoadFault};
ghost use Rattle.agc_run_commands.specs.Ended.{EndsWith};

use crate::fault::AnalysisFault;
use crate::inputs::read_symbols;
use crate::remarks::{remark_on_start, stop_of};
use crate::streams::Streams;
use crate::timelines::run_timeline;
use crate::traces::status_of_trace_error;
use crate::watches::watch_files;
use agc_io::{OK, ProgressLine};
use agc_load::LoadFault;
use agc_study_args::{JobsArgs, RunInputs, open_run, resolve_until};
use agc_symbols::SymbolTable;
use std::alloc::Global;
use std::io::{Read, Write};
use std::rt::Files;

/// Writes the table changes in the run of two files, or the page of `--timeline`. A remark warns if the run stops before the requested cycles.
/// The stop address may be a symbol.
pub fn run_jobs<R, W: Write, E: Write, N: Write, P: ProgressLine>(
    rt: &R,
    args: &mut JobsArgs,
    io: &mut Streams<W, E, N, P>,
) -> u8
where
    R: Files + AllocGlobal,
    ensures ended { EndsWith W.contents E.contents result io.old io.new }
    ensures faulty { result ≢ 1 }
{
    let names = match read_symbols(rt, &args.names, io) {
        Ok(names) => names,
        Err(status) => return status,
    };
    if resolve_until(rt.alloc(), &names, &mut args.options.until).is_err() {
        return AnalysisFault::Refused(LoadFault::Memory).report_to(&mut io.err);
    }
    if let Some(path) = &args.timeline {
        return run_timeline(rt, args, path.as_str(), &names, io);
    }
    let mut inputs = open_run(rt, &args.files);
    let status = write_jobs(rt.alloc(), args, &names, &mut inputs, io);
    inputs.remark_fault(rt.alloc(), &mut io.remarks);
    status
}

/// Writes the changes of the tables in the run of a rope and a script.
fn write_jobs<R: Read, W: Write, E: Write, N: Write, P: ProgressLine>(
    alloc: Global,
    args: &JobsArgs,
    names: &Option<SymbolTable>,
    inputs: &mut RunInputs<R>,
    io: &mut Streams<W, E, N, P>,
) -> u8
    ensures ended { EndsWith W.contents E.contents result io.old io.new }
    ensures no_note { result ≡ 2 → Keeps (N.contents io.old.remarks) (N.contents io.new.remarks) }
    ensures faulty { result ≢ 1 }
    ensures watched { result ≡ 0 → IsWatched args.now names.now
        (R.remaining inputs.old.rope) (R.remaining inputs.old.script)
        (W.contents io.old.out) (W.contents io.new.out) }
    ensures cut { result ≡ 3 → Keeps (W.contents io.old.out) (W.contents io.new.out)
        ⊎ IsWatchCut args.now names.now
        (R.remaining inputs.old.rope) (R.remaining inputs.old.script)
        (W.contents io.old.out) (W.contents io.new.out) }
    ensures refused { result ≡ 2 → (r : LoadFault) × IsWatchRefused args.now
        (R.remaining inputs.old.rope) (R.remaining inputs.old.script) r
        × Appends (E.contents io.old.err) (E.contents io.new.err) (error_line (analysis.Refused r)) }
{
    let watched = watch_files(alloc, args, names, inputs, &mut io.out, &mut io.progress);
    io.progress.wipe();
    match watched {
        Ok(machine) => {
            remark_on_start(stop_of(&machine), args.span.from, &mut io.remarks);
            OK
        }
        Err(unwatched) => status_of_trace_error(unwatched, &mut io.err),
    }
}
