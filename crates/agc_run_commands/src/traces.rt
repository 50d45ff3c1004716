//! Reads a rope and a script, and writes the trace of their run.
ghost use Rattle.std.specs.Prelude.{IfErr, IfOk, OnOk, string_bytes};
ghost use Rattle.std.specs.Io.KnownBytes.{Appends};
ghost use Rattle.agc_run_commands.specs.Traced.{EndsUntraced, IsTraced, IsUntraced, service_line};

use crate::fault::AnalysisFault;
use agc_io::{Progress, WRITE_FAILED, write_in_full};
use agc_load::LoadFault;
use agc_machine::Machine;
use agc_study_args::{RunInputs, TraceArgs, read_machine};
use agc_trace::{LineForm, Service, TraceFault, trace};
use std::alloc::Global;
use std::io::{self, Read, Write};

/// The result of a trace.
#[derive(Drop)]
pub struct Traced {
    /// The machine at the end of the run.
    pub machine: Machine,
    /// The service that an interrupt began in the range and that is still in progress at the stop.
    pub service: Option<Service>,
}

/// Why the trace is not complete.
#[derive(Clone, Copy, Debug, PartialEq, Eq)]
pub enum TraceError {
    /// Nothing was run.
    Refused(LoadFault),
    /// The trace was cut off.
    Cut(TraceFault),
}

/// Reads a rope and a script, and writes the lines of their run in a form. Fails with the first fault,
/// checked in this order: rope, script, limit, `--until`; or if memory runs out. Nothing is written in that case.
pub fn trace_files<R: Read, W: Write, P: Progress>(
    alloc: Global,
    args: &TraceArgs,
    form: &LineForm,
    inputs: &mut RunInputs<R>,
    out: &mut W,
    progress: &mut P,
) -> Result<Traced, TraceError>
    ensures traced { IfOk result (λ traced. IsTraced args.now form.now
        (R.remaining inputs.old.rope) (R.remaining inputs.old.script)
        (W.contents out.old) (W.contents out.new) traced.service) }
    ensures error { IfErr result (IsUntraced args.now form.now
        (R.remaining inputs.old.rope) (R.remaining inputs.old.script)
        (W.contents out.old) (W.contents out.new)) }
{
    let mut machine = match read_machine(alloc, &args.options, inputs) {
        Ok(machine) => machine,
        Err(refusal) => return Err(TraceError::Refused(refusal)),
    };
    match trace(alloc, &mut machine, &args.selection, form, out, progress) {
        Ok(service) => Ok(Traced { machine, service }),
        Err(fault) => Err(TraceError::Cut(fault)),
    }
}

/// Writes a text. If that fails, what is written of a run is cut off.
pub fn write_text<W: Write>(text: &String, out: &mut W) -> Result<(), TraceFault>
    ensures { OnOk result
        (Appends (W.contents out.old) (W.contents out.new) (string_bytes text.now)) }
{
    match write_in_full(out, text.as_bytes()) {
        Ok(()) => Ok(()),
        Err(_) => Err(TraceFault::Write),
    }
}

/// Reports which service is still in progress at the stop, and since when.
pub fn remark_service<N: Write>(service: Service, remarks: &mut N) -> io::Result<()>
    ensures { OnOk result
        (Appends (N.contents remarks.old) (N.contents remarks.new) (service_line service)) }
{
    let Service { rupt, cycle } = service;
    let name = rupt.name();
    writeln!(
        remarks,
        "agc-study: the service of {name}, begun at cycle {cycle}, has not ended"
    )
}

/// Returns the exit status of an incomplete trace. Faults and out of memory are reported. A trace that was cut off is
/// incomplete, whatever was written before.
pub fn status_of_trace_error<E: Write>(error: TraceError, err: &mut E) -> u8
    ensures { EndsUntraced error result (E.contents err.old) (E.contents err.new) }
{
    match error {
        TraceError::Refused(refusal) => AnalysisFault::Refused(refusal).report_to(err),
        TraceError::Cut(TraceFault::Write) => WRITE_FAILED,
        TraceError::Cut(TraceFault::Memory) => {
            let _written = AnalysisFault::Refused(LoadFault::Memory).write_to(err);
            WRITE_FAILED
        }
    }
}
