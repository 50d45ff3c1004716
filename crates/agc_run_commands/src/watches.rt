//! Reads a rope and a script, and writes how the Executive's tables change in their run.
ghost use Rattle.std.specs.Prelude.{IfErr, IfOk};
ghost use Rattle.agc_run_commands.specs.Watched.{IsUnwatched, IsWatched};

use crate::traces::TraceError;
use agc_io::Progress;
use agc_machine::Machine;
use agc_study_args::{JobsArgs, RunInputs, read_start};
use agc_symbols::SymbolTable;
use agc_timeline::write_changes;
use std::alloc::Global;
use std::io::{Read, Write};

/// Reads a rope and a script, and writes a line for each change of the tables in their run, with these names. Returns the machine at
/// the end of the run. Fails with the first fault, checked in this order: rope, script, limit, `--watch`, `--until`,
/// addresses of the tables; or if memory runs out. Nothing is written in that case.
pub fn watch_files<R: Read, W: Write, P: Progress>(
    alloc: Global,
    args: &JobsArgs,
    names: &Option<SymbolTable>,
    inputs: &mut RunInputs<R>,
    out: &mut W,
    progress: &mut P,
) -> Result<Machine, TraceError>
    ensures watched { IfOk result (λ _. IsWatched args.now names.now
        (R.remaining inputs.old.rope) (R.remaining inputs.old.script)
        (W.contents out.old) (W.contents out.new)) }
    ensures unwatched { IfErr result (IsUnwatched args.now names.now
        (R.remaining inputs.old.rope) (R.remaining inputs.old.script)
        (W.contents out.old) (W.contents out.new)) }
{
    let start = match read_start(alloc, &args.options, Some(&args.watch), inputs) {
        Ok(start) => start,
        Err(refusal) => return Err(TraceError::Refused(refusal)),
    };
    let mut machine = start.machine;
    let spec = start.tables.unwrap();
    match write_changes(alloc, names, &mut machine, args.span, &spec, out, progress) {
        Ok(()) => Ok(machine),
        Err(fault) => Err(TraceError::Cut(fault)),
    }
}
