//! Writes the page that shows who had the processor in a run to a new file.
ghost use Rattle.std.specs.Prelude.{◌≡◌, ◌≢◌, ◌⊎◌};
ghost use Rattle.agc_run_commands.specs.Ended.{EndsWith};

use crate::fault::{AnalysisFault, FAULTY};
use crate::new_files::{check_new_file, is_written, refused};
use crate::remarks::{remark_on_start, stop_of};
use crate::streams::Streams;
use agc_cli::{ArgsFault, exit_usage};
use agc_io::{OK, ProgressLine, WRITE_FAILED};
use agc_load::LoadFault;
use agc_machine::Machine;
use agc_page::{JobsPlan, Mark, jobs_page};
use agc_study_args::{JobsArgs, NAME, RunInputs, open_run, read_start, resolve_at};
use agc_symbols::SymbolTable;
use std::alloc::{AllocError, Global};
use std::io::{Read, Write};
use std::rt::Files;

/// The options as command-line errors name them.
const TIMELINE: &str = "--timeline <NEW>";

const MARK: &str = "--mark <PLACES>";

/// Writes the page of the run of two files to a file that does not exist yet. A value of `--mark` that names nothing,
/// with the symbol file in use, is reported as a command-line error. A remark warns if the run stops before the range.
pub(crate) fn run_timeline<R, W: Write, E: Write, N: Write, P: ProgressLine>(
    rt: &R,
    args: &JobsArgs,
    path: &str,
    names: &Option<SymbolTable>,
    io: &mut Streams<W, E, N, P>,
) -> u8
where
    R: Files + AllocGlobal,
    ensures ended { EndsWith W.contents E.contents result io.old io.new }
    ensures faulty { result ≢ 1 }
{
    match read_marks(rt, args, path, names) {
        Ok(marks) => write_page(rt, args, path, names, marks.as_slice(), io),
        Err(fault) => exit_usage(NAME, fault, FAULTY, &mut io.out, &mut io.err),
    }
}

/// Checks the path of the new file, and resolves the values of `--mark`.
fn read_marks<R>(
    rt: &R,
    args: &JobsArgs,
    path: &str,
    names: &Option<SymbolTable>,
) -> Result<Vec<Mark>, ArgsFault>
where
    R: Files + AllocGlobal,
{
    check_new_file(rt, TIMELINE, path)?;
    marks_of(rt.alloc(), args.marks.as_slice(), names)
}

/// Writes the page of the run of two files.
fn write_page<R, W: Write, E: Write, N: Write, P: ProgressLine>(
    rt: &R,
    args: &JobsArgs,
    path: &str,
    names: &Option<SymbolTable>,
    marks: &[Mark],
    io: &mut Streams<W, E, N, P>,
) -> u8
where
    R: Files + AllocGlobal,
    ensures ended { EndsWith W.contents E.contents result io.old io.new }
    ensures faulty { result ≢ 1 }
{
    let mut inputs = open_run(rt, &args.files);
    let drawn = draw(
        rt.alloc(),
        args,
        names,
        marks,
        &mut inputs,
        &mut io.progress,
    );
    io.progress.wipe();
    let status = end_timeline(rt, args, path, &drawn, io);
    inputs.remark_fault(rt.alloc(), &mut io.remarks);
    status
}

/// Writes a page, or reports why there is none.
fn end_timeline<R, W: Write, E: Write, N: Write, P: ProgressLine>(
    rt: &R,
    args: &JobsArgs,
    path: &str,
    drawn: &Result<Timeline, LoadFault>,
    io: &mut Streams<W, E, N, P>,
) -> u8
where
    R: Files + AllocGlobal,
    ensures ended { EndsWith W.contents E.contents result io.old io.new }
    ensures faulty { result ≢ 1 }
{
    match drawn {
        Ok(timeline) => write_timeline(rt, args, path, timeline, &mut io.remarks),
        Err(refusal) => AnalysisFault::Refused(*refusal).report_to(&mut io.err),
    }
}

/// A page, and the machine at the end of its run.
#[derive(Drop)]
struct Timeline {
    page: String,
    machine: Machine,
}

/// Reads a rope and a script, and makes the page of their run. Fails with the first fault, checked in this order: rope,
/// script, limit, `--watch`, `--until`, addresses of the tables; or if memory runs out.
fn draw<R: Read, P: ProgressLine>(
    alloc: Global,
    args: &JobsArgs,
    names: &Option<SymbolTable>,
    marks: &[Mark],
    inputs: &mut RunInputs<R>,
    progress: &mut P,
) -> Result<Timeline, LoadFault> {
    let start = read_start(alloc, &args.options, Some(&args.watch), inputs)?;
    let mut machine = start.machine;
    let Some(spec) = start.tables else {
        return Err(LoadFault::BadWatchSpec);
    };
    let plan = JobsPlan {
        files: &args.files,
        limit: args.options.limit,
        span: args.span,
        marks,
    };
    let page = jobs_page(alloc, plan, names, &mut machine, &spec, progress)?;
    Ok(Timeline { page, machine })
}

/// Writes a page to its file, and returns the exit status.
fn write_timeline<R, N: Write>(
    rt: &R,
    args: &JobsArgs,
    path: &str,
    timeline: &Timeline,
    remarks: &mut N,
) -> u8
where
    R: Files + AllocGlobal,
    ensures { (result ≡ 0) ⊎ (result ≡ 3) }
{
    if !is_written(rt, path, timeline.page.as_bytes(), remarks) {
        return WRITE_FAILED;
    }
    remark_on_start(stop_of(&timeline.machine), args.span.from, remarks);
    OK
}

/// Resolves the values of `--mark`.
fn marks_of(
    alloc: Global,
    texts: &[String],
    names: &Option<SymbolTable>,
) -> Result<Vec<Mark>, ArgsFault> {
    let mut marks = Vec::new(alloc);
    for text in texts {
        push_mark(&mut marks, mark_of(alloc, text.as_str(), names)?)?;
    }
    Ok(marks)
}

fn push_mark(marks: &mut Vec<Mark>, mark: Mark) -> Result<(), AllocError> {
    marks.push(mark)?;
    Ok(())
}

fn mark_of(alloc: Global, text: &str, names: &Option<SymbolTable>) -> Result<Mark, ArgsFault> {
    match resolve_at(alloc, names, text) {
        Ok(places) => Ok(Mark {
            name: String::from_str(alloc, text)?,
            places,
        }),
        Err(ArgsFault::Memory) => Err(ArgsFault::Memory),
        Err(_) => Err(refused(alloc, MARK, text, why_no_mark(names))),
    }
}

fn why_no_mark(names: &Option<SymbolTable>) -> &'static str {
    match names {
        Some(_) => "no such place or range, and no such name in the file of --names",
        None =>
            "no such place or range: octal 4100, 05,2071, E3,1400 or 4100-4177; a name needs --names FILE",
    }
}
