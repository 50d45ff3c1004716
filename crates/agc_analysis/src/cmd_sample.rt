//! Runs `sample`: writes quantities of a program over time.
ghost use Rattle.std.specs.Prelude.{◌≡◌, ◌≢◌, ◌⊎◌, IfErr, OnOk};
ghost use Rattle.agc_run_commands.specs.Ended.{EndsWith};

use crate::run_tables::{RunTable, write_run};
use crate::samples::SampleTable;
use agc_cli::{ArgsFault, exit_usage};
use agc_io::{ProgressLine, ReadError, read_limited, status_of};
use agc_load::LoadFault;
use agc_quantities::{
    FILE_BYTES, Plan, QuantitiesFault, Quantity, Schedule, push_fault, read_quantities,
};
use agc_run_commands::{AnalysisFault, FAULTY, Streams, read_symbols};
use agc_study_args::{
    NAME, SampleArgs, SampleTimes, open_file, open_run, resolve_at, resolve_until,
};
use agc_symbols::SymbolTable;
use std::alloc::{AllocError, Global};
use std::io::Write;
use std::rt::Files;

/// Writes the table of quantities of the run of two files. A value of `--at` that names nothing, with the symbol file in
/// use, is reported as a command-line error. A remark warns if the run stops before the range.
pub fn run_sample<R, W: Write, E: Write, N: Write, P: ProgressLine>(
    rt: &R,
    args: &mut SampleArgs,
    io: &mut Streams<W, E, N, P>,
) -> u8
where
    R: Files + AllocGlobal,
    ensures ended { EndsWith W.contents E.contents result io.old io.new }
    ensures faulty { result ≢ 1 }
{
    let names = match read_symbols(rt, &args.names, io) {
        Ok(names) => names,
        Err(status) => return status,
    };
    if resolve_until(rt.alloc(), &names, &mut args.options.until).is_err() {
        return AnalysisFault::Refused(LoadFault::Memory).report_to(&mut io.err);
    }
    let plan = match plan_of(rt.alloc(), args, &names) {
        Ok(plan) => plan,
        Err(fault) => return exit_usage(NAME, fault, FAULTY, &mut io.out, &mut io.err),
    };
    let quantities = match quantities_of(rt, &args.quantities, &names, io) {
        Ok(quantities) => quantities,
        Err(status) => return status,
    };
    let table = RunTable::Samples(SampleTable {
        quantities,
        plan,
        shows_minus_zero: args.shows_minus_zero,
    });
    let mut inputs = open_run(rt, &args.files);
    let (options, from) = (&args.options, args.span.from);
    let status = write_run(rt.alloc(), options, &table, from, &mut inputs, io);
    inputs.remark_fault(rt.alloc(), &mut io.remarks);
    status
}

/// Returns which states are sampled.
fn plan_of(
    alloc: Global,
    args: &SampleArgs,
    names: &Option<SymbolTable>,
) -> Result<Plan, ArgsFault> {
    let schedule = match &args.times {
        SampleTimes::Every(period) => Schedule::Every(*period),
        SampleTimes::At(text) => Schedule::At(resolve_at(alloc, names, text.as_str())?),
        SampleTimes::Changes => Schedule::Changes,
    };
    Ok(Plan {
        schedule,
        from: args.span.from,
        to: args.span.to,
    })
}

/// Reads the file of quantities at a path. If it is at fault, reports that and returns the exit status.
fn quantities_of<R, W: Write, E: Write, N: Write, P>(
    rt: &R,
    path: &String,
    names: &Option<SymbolTable>,
    io: &mut Streams<W, E, N, P>,
) -> Result<Vec<Quantity>, u8>
where
    R: Files + AllocGlobal,
    ensures unchanged { OnOk result (io.new ≡ io.old) }
    ensures ended { IfErr result (λ status. EndsWith W.contents E.contents status io.old io.new) }
    ensures faulty { IfErr result (λ status. status ≢ 1) }
{
    let mut file = open_file(rt, path, FILE_BYTES);
    match read_limited(rt.alloc(), &mut file, FILE_BYTES) {
        Ok(text) => quantities_in(rt.alloc(), text.as_slice(), names, io),
        Err(ReadError::Memory) => {
            Err(AnalysisFault::Refused(LoadFault::Memory).report_to(&mut io.err))
        }
        Err(ReadError::CannotRead(_)) => {
            let status = status_of(
                FAULTY,
                writeln!(io.err, "agc-study: cannot read quantities"),
            );
            file.remark_fault(rt.alloc(), &mut io.remarks);
            Err(status)
        }
    }
}

/// Parses the text of the file of quantities. If it is at fault, reports that and returns the exit status.
fn quantities_in<W: Write, E: Write, N: Write, P>(
    alloc: Global,
    text: &[u8],
    names: &Option<SymbolTable>,
    io: &mut Streams<W, E, N, P>,
) -> Result<Vec<Quantity>, u8>
    ensures unchanged { OnOk result (io.new ≡ io.old) }
    ensures ended { IfErr result (λ status. EndsWith W.contents E.contents status io.old io.new) }
    ensures faulty { IfErr result (λ status. status ≢ 1) }
{
    match read_quantities(alloc, text, names) {
        Ok(quantities) => Ok(quantities),
        Err(fault) => Err(report_quantities(alloc, text, names, fault, &mut io.err)),
    }
}

/// Reports what is wrong with the text of the file of quantities, and returns the exit status.
fn report_quantities<E: Write>(
    alloc: Global,
    text: &[u8],
    names: &Option<SymbolTable>,
    fault: QuantitiesFault,
    err: &mut E,
) -> u8
    ensures { (result ≡ 2) ⊎ (result ≡ 3) }
{
    match fault_line(alloc, text, names, fault) {
        Ok(line) => status_of(FAULTY, err.write_all(line.as_bytes())),
        Err(AllocError) => AnalysisFault::Refused(LoadFault::Memory).report_to(err),
    }
}

fn fault_line(
    alloc: Global,
    text: &[u8],
    names: &Option<SymbolTable>,
    fault: QuantitiesFault,
) -> Result<String, AllocError> {
    let mut line = String::from_str(alloc, "agc-study: ")?;
    push_fault(alloc, &mut line, text, names, fault)?;
    line.push_str("\n")?;
    Ok(line)
}
