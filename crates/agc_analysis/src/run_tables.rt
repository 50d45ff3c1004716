//! Reads a rope and a script, and writes their run as a table: quantities over time, or the operations of its interpreter.
ghost use Rattle.std.specs.Prelude.{◌≢◌, IfErr};
ghost use Rattle.agc_analysis.specs.Sampled.{KeepsIfRefused};
ghost use Rattle.agc_run_commands.specs.Ended.{EndsWith};

use crate::operations::{OperationPlan, write_operations};
use crate::samples::{SampleTable, write_rows};
use agc_io::{OK, Progress, ProgressLine};
use agc_machine::Machine;
use agc_run_commands::{Streams, TraceError, remark_on_start, status_of_trace_error, stop_of};
use agc_study_args::{RunInputs, RunOptions, read_machine};
use agc_trace::TraceFault;
use std::alloc::Global;
use std::io::{Read, Write};

const NONE_BEGAN: &str =
    "agc-study: no operation began in these cycles; the places of --interpretive may be those of another rope\n";

/// What is written of a run.
#[derive(Drop)]
pub(crate) enum RunTable {
    Samples(SampleTable),
    Operations(OperationPlan),
}

/// The end of a run whose table was written.
#[derive(Drop)]
pub(crate) struct TableEnd {
    pub machine: Machine,
    /// Whether nothing was written: no operation began.
    pub is_empty: bool,
}

/// Writes the table of the run of a rope and a script. Remarks warn if the run stops before a cycle, or if no operation was
/// written.
pub(crate) fn write_run<R: Read, W: Write, E: Write, N: Write, P: ProgressLine>(
    alloc: Global,
    options: &RunOptions,
    table: &RunTable,
    from: u64,
    inputs: &mut RunInputs<R>,
    io: &mut Streams<W, E, N, P>,
) -> u8
    ensures ended { EndsWith W.contents E.contents result io.old io.new }
    ensures faulty { result ≢ 1 }
{
    let written = table_files(alloc, options, table, inputs, &mut io.out, &mut io.progress);
    io.progress.wipe();
    match written {
        Ok(TableEnd { machine, is_empty }) => {
            remark_on_start(stop_of(&machine), from, &mut io.remarks);
            remark_on_nothing(is_empty, &mut io.remarks);
            OK
        }
        Err(error) => status_of_trace_error(error, &mut io.err),
    }
}

/// Warns if no operation was written.
fn remark_on_nothing<N: Write>(is_empty: bool, remarks: &mut N) {
    if is_empty {
        let _written = remarks.write_all(NONE_BEGAN.as_bytes());
    }
}

/// Reads a rope and a script, and writes the table of their run. Returns the machine at the end of the run. Fails with
/// the first fault, checked in this order: rope, script, limit, `--until`; or if memory runs out. Nothing is written in
/// that case.
fn table_files<R: Read, W: Write, P: Progress>(
    alloc: Global,
    options: &RunOptions,
    table: &RunTable,
    inputs: &mut RunInputs<R>,
    out: &mut W,
    progress: &mut P,
) -> Result<TableEnd, TraceError>
    ensures { IfErr result (KeepsIfRefused (W.contents out.old) (W.contents out.new)) }
{
    let mut machine = match read_machine(alloc, options, inputs) {
        Ok(machine) => machine,
        Err(refusal) => return Err(TraceError::Refused(refusal)),
    };
    match write_table(alloc, table, &mut machine, out, progress) {
        Ok(is_empty) => Ok(TableEnd { machine, is_empty }),
        Err(fault) => Err(TraceError::Cut(fault)),
    }
}

/// Writes a table. Returns whether nothing was written; one of quantities has a heading.
fn write_table<W: Write, P: Progress>(
    alloc: Global,
    table: &RunTable,
    machine: &mut Machine,
    out: &mut W,
    progress: &mut P,
) -> Result<bool, TraceFault> {
    match table {
        RunTable::Samples(table) => {
            write_rows(alloc, table, machine, out, progress)?;
            Ok(false)
        }
        RunTable::Operations(plan) => write_operations(alloc, plan, machine, out, progress),
    }
}
