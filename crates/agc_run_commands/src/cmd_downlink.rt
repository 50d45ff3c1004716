//! Runs `downlink`: writes the lists that a program sends down, from a log.
ghost use Rattle.std.specs.Prelude.{◌≡◌, ◌≢◌, ◌⊎◌, IfErr, OnOk};
ghost use Rattle.agc_run_commands.specs.Ended.{EndsWith};

use crate::fault::{AnalysisFault, FAULTY};
use crate::streams::Streams;
use crate::traces::{TraceError, status_of_trace_error, write_text};
use agc_io::{OK, ReadError, TEXT_BYTES, read_limited, status_of};
use agc_load::LoadFault;
use agc_quantities::{
    FILE_BYTES, Pair, QuantitiesFault, SentList, list_at, pairs_in, push_list_fault,
    push_list_heading, push_list_row, read_lists,
};
use agc_study_args::{DownlinkArgs, open_file};
use agc_trace::TraceFault;
use std::alloc::{AllocError, Global};
use std::io::Write;
use std::rt::Files;

/// Out of memory.
const NO_MEMORY: AnalysisFault = AnalysisFault::Refused(LoadFault::Memory);

/// Writes the table of the lists that a log has. A remark says if it has none.
pub fn run_downlink<R, W: Write, E: Write, N: Write, P>(
    rt: &R,
    args: &DownlinkArgs,
    io: &mut Streams<W, E, N, P>,
) -> u8
where
    R: Files + AllocGlobal,
    ensures ended { EndsWith W.contents E.contents result io.old io.new }
    ensures faulty { result ≢ 1 }
{
    let lists = match lists_of(rt, &args.lists, io) {
        Ok(lists) => lists,
        Err(status) => return status,
    };
    let mut file = open_file(rt, &args.log, TEXT_BYTES);
    let status = match read_limited(rt.alloc(), &mut file, TEXT_BYTES) {
        Ok(log) => write_log(rt.alloc(), lists.as_slice(), log.as_slice(), io),
        Err(ReadError::Memory) => NO_MEMORY.report_to(&mut io.err),
        Err(ReadError::CannotRead(_)) => report_log("cannot read log", &mut io.err),
    };
    file.remark_fault(rt.alloc(), &mut io.remarks);
    status
}

/// Reports what is wrong with a log, and returns the exit status.
fn report_log<E: Write>(why: &str, err: &mut E) -> u8
    ensures { (result ≡ 2) ⊎ (result ≡ 3) }
{
    status_of(FAULTY, writeln!(err, "agc-study: {why}"))
}

/// Reads the file of lists at a path. If it is at fault, reports that and returns the exit status.
fn lists_of<R, W: Write, E: Write, N: Write, P>(
    rt: &R,
    path: &String,
    io: &mut Streams<W, E, N, P>,
) -> Result<Vec<SentList>, u8>
where
    R: Files + AllocGlobal,
    ensures unchanged { OnOk result (io.new ≡ io.old) }
    ensures ended { IfErr result (λ status. EndsWith W.contents E.contents status io.old io.new) }
    ensures faulty { IfErr result (λ status. status ≢ 1) }
{
    let mut file = open_file(rt, path, FILE_BYTES);
    match read_limited(rt.alloc(), &mut file, FILE_BYTES) {
        Ok(text) => lists_in(rt.alloc(), text.as_slice(), io),
        Err(ReadError::Memory) => Err(NO_MEMORY.report_to(&mut io.err)),
        Err(ReadError::CannotRead(_)) => {
            let status = report_log("cannot read lists", &mut io.err);
            file.remark_fault(rt.alloc(), &mut io.remarks);
            Err(status)
        }
    }
}

/// Parses the text of the file of lists. If it is at fault, reports that and returns the exit status.
fn lists_in<W: Write, E: Write, N: Write, P>(
    alloc: Global,
    text: &[u8],
    io: &mut Streams<W, E, N, P>,
) -> Result<Vec<SentList>, u8>
    ensures unchanged { OnOk result (io.new ≡ io.old) }
    ensures ended { IfErr result (λ status. EndsWith W.contents E.contents status io.old io.new) }
    ensures faulty { IfErr result (λ status. status ≢ 1) }
{
    match read_lists(alloc, text) {
        Ok(lists) => Ok(lists),
        Err(fault) => Err(report_lists(alloc, fault, &mut io.err)),
    }
}

/// Reports what is wrong with the text of the file of lists, and returns the exit status.
fn report_lists<E: Write>(alloc: Global, fault: QuantitiesFault, err: &mut E) -> u8
    ensures { (result ≡ 2) ⊎ (result ≡ 3) }
{
    match fault_line(alloc, fault) {
        Ok(line) => status_of(FAULTY, err.write_all(line.as_bytes())),
        Err(AllocError) => NO_MEMORY.report_to(err),
    }
}

fn fault_line(alloc: Global, fault: QuantitiesFault) -> Result<String, AllocError> {
    let mut line = String::from_str(alloc, "agc-study: ")?;
    push_list_fault(&mut line, fault)?;
    line.push_str("\n")?;
    Ok(line)
}

/// Writes the table of the lists in the text of a log.
fn write_log<W: Write, E: Write, N: Write, P>(
    alloc: Global,
    lists: &[SentList],
    log: &[u8],
    io: &mut Streams<W, E, N, P>,
) -> u8
    ensures ended { EndsWith W.contents E.contents result io.old io.new }
    ensures faulty { result ≢ 1 }
{
    let pairs = match pairs_in(alloc, log) {
        Ok(pairs) => pairs,
        Err(AllocError) => return NO_MEMORY.report_to(&mut io.err),
    };
    if pairs.is_empty() {
        return report_log(
            "the log has no words of channels 034 and 035; agc --log prints them",
            &mut io.err,
        );
    }
    match write_table(alloc, lists, pairs.as_slice(), &mut io.out) {
        Ok(rows) => {
            if rows == 0 {
                let _written = writeln!(io.remarks, "agc-study: no list of the file came whole");
            }
            OK
        }
        Err(fault) => status_of_trace_error(TraceError::Cut(fault), &mut io.err),
    }
}

/// Writes the heading, and a row for each list that comes whole with the pairs of a log. Returns the number of rows.
fn write_table<W: Write>(
    alloc: Global,
    lists: &[SentList],
    pairs: &[Pair],
    out: &mut W,
) -> Result<u64, TraceFault> {
    let mut text = String::new(alloc);
    push_list_heading(&mut text, lists)?;
    write_text(&text, out)?;
    let mut rows: u64 = 0;
    for first in 0..pairs.len() {
        let rest = &pairs[first..];
        if let Some(list) = list_at(lists, rest) {
            text.clear();
            push_list_row(&mut text, lists, list, rest)?;
            write_text(&text, out)?;
            rows = rows.saturating_add(1);
        }
    }
    Ok(rows)
}
