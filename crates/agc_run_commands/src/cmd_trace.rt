//! Runs `trace`: writes the trace of a run.
ghost use Rattle.std.specs.Prelude.{◌≡◌, ◌≢◌, ◌⊎◌};
ghost use Rattle.std.specs.Io.KnownBytes.{Keeps};
ghost use Rattle.agc_run_commands.specs.Ended.{EndsWith};
ghost use Rattle.agc_run_commands.specs.Traced.{IsCutOff, IsTraceWritten};

use crate::fault::FAULTY;
use crate::inputs::read_symbols;
use crate::remarks::{remark_on_start, stop_of};
use crate::streams::Streams;
use crate::traces::{Traced, remark_service, status_of_trace_error, trace_files};
use agc_cli::exit_usage;
use agc_io::{OK, ProgressLine};
use agc_study_args::{NAME, RunInputs, TraceArgs, open_run, resolve_locations};
use agc_trace::LineForm;
use std::alloc::Global;
use std::io::{Read, Write};
use std::rt::Files;

/// Traces the run of a rope file and a script file. A value of `--at`, `--cell` or `--channel` that names nothing, with
/// the symbol file in use, is reported as a command-line error. Remarks warn if the run stops before the range, and if the
/// service of an interrupt is still in progress at the stop.
pub fn run_trace<R, W: Write, E: Write, N: Write, P: ProgressLine>(
    rt: &R,
    args: &mut TraceArgs,
    io: &mut Streams<W, E, N, P>,
) -> u8
where
    R: Files + AllocGlobal,
    ensures ended { EndsWith W.contents E.contents result io.old io.new }
    ensures faulty { result ≢ 1 }
{
    let names = match read_symbols(rt, &args.names, io) {
        Ok(names) => names,
        Err(status) => return status,
    };
    let form = LineForm::new(rt.alloc(), names, args.operands);
    if let Err(fault) = resolve_locations(rt.alloc(), &form.names, &form.channels, args) {
        return exit_usage(NAME, fault, FAULTY, &mut io.out, &mut io.err);
    }
    let mut inputs = open_run(rt, &args.files);
    let status = write_trace(rt.alloc(), args, &form, &mut inputs, io);
    inputs.remark_fault(rt.alloc(), &mut io.remarks);
    status
}

/// Traces the run of a rope and a script with lines in this form.
fn write_trace<R: Read, W: Write, E: Write, N: Write, P: ProgressLine>(
    alloc: Global,
    args: &TraceArgs,
    form: &LineForm,
    inputs: &mut RunInputs<R>,
    io: &mut Streams<W, E, N, P>,
) -> u8
    ensures ended { EndsWith W.contents E.contents result io.old io.new }
    ensures no_note { result ≡ 2 → Keeps (N.contents io.old.remarks) (N.contents io.new.remarks) }
    ensures faulty { result ≢ 1 }
    ensures traced { result ≡ 0 → IsTraceWritten args.now form.now
        (R.remaining inputs.old.rope) (R.remaining inputs.old.script)
        (W.contents io.old.out) (W.contents io.new.out) }
    ensures cut { result ≡ 3 → Keeps (W.contents io.old.out) (W.contents io.new.out)
        ⊎ IsCutOff args.now form.now (R.remaining inputs.old.rope) (R.remaining inputs.old.script)
        (W.contents io.old.out) (W.contents io.new.out) }
{
    let traced = trace_files(alloc, args, form, inputs, &mut io.out, &mut io.progress);
    io.progress.wipe();
    match traced {
        Ok(traced) => {
            remark_on_trace(&traced, args.selection.from, &mut io.remarks);
            OK
        }
        Err(error) => status_of_trace_error(error, &mut io.err),
    }
}

/// Reports that the run stopped before the range, and the service in progress at the stop. A failed remark changes
/// nothing.
fn remark_on_trace<N: Write>(traced: &Traced, from: u64, remarks: &mut N) {
    remark_on_start(stop_of(&traced.machine), from, remarks);
    if let Some(service) = traced.service {
        let _written = remark_service(service, remarks);
    }
}
