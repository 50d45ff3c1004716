//! Runs `trace --interpretive`: writes the operations of the interpretive language that a run carries out.
ghost use Rattle.std.specs.Prelude.{◌≢◌};
ghost use Rattle.agc_run_commands.specs.Ended.{EndsWith};

use crate::interpreter::interpreter_named;
use crate::operations::OperationPlan;
use crate::run_tables::{RunTable, write_run};
use agc_cli::exit_usage;
use agc_io::ProgressLine;
use agc_load::LoadFault;
use agc_run_commands::{AnalysisFault, FAULTY, Streams, read_symbols};
use agc_study_args::{NAME, OperationsArgs, open_run, resolve_until};
use std::io::Write;
use std::rt::Files;

/// Writes the operations of the run of two files. A value of `--interpretive` that does not name the interpreter's places and
/// cells, with the symbol file in use, is reported as a command-line error. A remark warns if the run stops before the range, or
/// if no operation was written.
pub fn run_operations<R, W: Write, E: Write, N: Write, P: ProgressLine>(
    rt: &R,
    args: &mut OperationsArgs,
    io: &mut Streams<W, E, N, P>,
) -> u8
where
    R: Files + AllocGlobal,
    ensures ended { EndsWith W.contents E.contents result io.old io.new }
    ensures faulty { result ≢ 1 }
{
    let names = match read_symbols(rt, &args.names, io) {
        Ok(names) => names,
        Err(status) => return status,
    };
    if resolve_until(rt.alloc(), &names, &mut args.options.until).is_err() {
        return AnalysisFault::Refused(LoadFault::Memory).report_to(&mut io.err);
    }
    let interpreter = match interpreter_named(rt.alloc(), &names, args.interpreter.as_str()) {
        Ok(interpreter) => interpreter,
        Err(fault) => return exit_usage(NAME, fault, FAULTY, &mut io.out, &mut io.err),
    };
    let table = RunTable::Operations(OperationPlan {
        interpreter,
        span: args.span,
        names,
    });
    let mut inputs = open_run(rt, &args.files);
    let (options, from) = (&args.options, args.span.from);
    let status = write_run(rt.alloc(), options, &table, from, &mut inputs, io);
    inputs.remark_fault(rt.alloc(), &mut io.remarks);
    status
}
