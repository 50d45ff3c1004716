//! Runs `check`: writes the report on a rope and a script, on live keys and on the text of a rope.
ghost use Rattle.std.specs.Prelude.{◌≡◌, ◌⊎◌, Bool, IfErr, OnOk, true, false, string_bytes};
ghost use Rattle.std.specs.Io.KnownBytes.{Appends, Keeps};
ghost use Rattle.agc_io.specs.Output.{IsBegun};
ghost use Rattle.agc_rope_commands.specs.Checked.{IsCheckWritten, IsUnchecked, IsWritten};
ghost use Rattle.agc_run_commands.specs.Ended.{EndsWith};
ghost use Rattle.agc_run_commands.specs.Fault.{IsReported};

use crate::checks::{
    CheckedListing, check_key_file, check_listing_file, check_rope_file, check_source, check_with,
    joined, report_on_rope,
};
use crate::included::in_files;
use crate::rope_pages::{check_page_path, write_rope_page};
use agc_include::{Expanded, has_include};
use agc_io::{
    KEY_BYTES, OK, ROPE_BYTES, ReadError, TEXT_BYTES, read_limited, status_of, write_in_full,
};
use agc_listing::Report;
use agc_load::LoadFault;
use agc_run_commands::{AnalysisFault, Streams, expanded_source, report_fault, report_include};
use agc_store::RopeForm;
use agc_study_args::{CheckArgs, RunInputs, open_file, open_run};
use std::alloc::{AllocError, Global};
use std::io::{Read, Write};
use std::rt::Files;

/// Out of memory.
const NO_MEMORY: AnalysisFault = AnalysisFault::Refused(LoadFault::Memory);

/// The exit status if the report contains a fault.
const FAULTY: u8 = 1;

/// Checks the files of the command line. Remarks warn about cells of a source that lie over registers or other cells.
pub fn run_check<R, W: Write, E: Write, N: Write, P>(
    rt: &R,
    args: &CheckArgs,
    io: &mut Streams<W, E, N, P>,
) -> u8
where
    R: Files + AllocGlobal,
    ensures ended { EndsWith W.contents E.contents result io.old io.new }
{
    if let Err(status) = check_page_path(rt, args, io) {
        return status;
    }
    let more = match check_texts(rt, args, io) {
        Ok(more) => more,
        Err(status) => return status,
    };
    let Some(files) = &args.run else {
        return match more {
            Some(report) => write_report(&report, &mut io.out),
            None => OK,
        };
    };
    let mut inputs = open_run(rt, files);
    let status = write_check(rt.alloc(), args.form, &mut inputs, &more, io);
    inputs.remark_fault(rt.alloc(), &mut io.remarks);
    status
}

/// Checks the text of live keys and the text of a rope, whichever are present. If one cannot be checked, reports that and
/// returns the exit status.
fn check_texts<R, W: Write, E: Write, N: Write, P>(
    rt: &R,
    args: &CheckArgs,
    io: &mut Streams<W, E, N, P>,
) -> Result<Option<Report>, u8>
where
    R: Files + AllocGlobal,
    ensures out { OnOk result (io.new.out ≡ io.old.out) }
    ensures err { OnOk result (io.new.err ≡ io.old.err) }
    ensures ended { IfErr result (λ status. EndsWith W.contents E.contents status io.old io.new) }
{
    let keys = check_keys(rt, &args.keys, io)?;
    let texts = join_reports(keys, check_listing(rt, &args.listing, io)?, io)?;
    join_reports(check_rope(rt, args, io)?, texts, io)
}

/// Joins two reports, whichever there are.
fn join_reports<W: Write, E: Write, N: Write, P>(
    first: Option<Report>,
    second: Option<Report>,
    io: &mut Streams<W, E, N, P>,
) -> Result<Option<Report>, u8>
    ensures unchanged { OnOk result (io.new ≡ io.old) }
    ensures ended { IfErr result (λ status. EndsWith W.contents E.contents status io.old io.new) }
{
    match (first, second) {
        (Some(first), Some(second)) => match joined(first, &second) {
            Ok(both) => Ok(Some(both)),
            Err(fault) => Err(fault.report_to(&mut io.err)),
        },
        (first, None) => Ok(first),
        (None, second) => Ok(second),
    }
}

/// Checks a rope alone, if there is one without a script, and writes its page if one is wanted.
fn check_rope<R, W: Write, E: Write, N: Write, P>(
    rt: &R,
    args: &CheckArgs,
    io: &mut Streams<W, E, N, P>,
) -> Result<Option<Report>, u8>
where
    R: Files + AllocGlobal,
    ensures out { OnOk result (io.new.out ≡ io.old.out) }
    ensures err { OnOk result (io.new.err ≡ io.old.err) }
    ensures ended { IfErr result (λ status. EndsWith W.contents E.contents status io.old io.new) }
{
    let Some(path) = &args.rope else {
        return Ok(None);
    };
    let mut file = open_file(rt, path, ROPE_BYTES);
    let rope = match check_rope_file(rt.alloc(), args.form, args.first_bank, &mut file) {
        Ok(rope) => rope,
        Err(fault) => return Err(report_fault(rt.alloc(), fault, &file, io)),
    };
    write_rope_page(rt, args, path.as_str(), &rope, io)?;
    match report_on_rope(rope) {
        Ok(report) => Ok(Some(report)),
        Err(fault) => Err(fault.report_to(&mut io.err)),
    }
}

/// Checks the text of live keys, if there is one.
fn check_keys<R, W: Write, E: Write, N: Write, P>(
    rt: &R,
    path: &Option<String>,
    io: &mut Streams<W, E, N, P>,
) -> Result<Option<Report>, u8>
where
    R: Files + AllocGlobal,
    ensures unchanged { OnOk result (io.new ≡ io.old) }
    ensures ended { IfErr result (λ status. EndsWith W.contents E.contents status io.old io.new) }
{
    let Some(path) = path else {
        return Ok(None);
    };
    let mut file = open_file(rt, path, KEY_BYTES);
    match check_key_file(rt.alloc(), &mut file) {
        Ok(report) => Ok(Some(report)),
        Err(fault) => Err(report_fault(rt.alloc(), fault, &file, io)),
    }
}

/// Checks the text of a rope, if there is one, and writes the remarks on its cells.
fn check_listing<R, W: Write, E: Write, N: Write, P>(
    rt: &R,
    path: &Option<String>,
    io: &mut Streams<W, E, N, P>,
) -> Result<Option<Report>, u8>
where
    R: Files + AllocGlobal,
    ensures out { OnOk result (io.new.out ≡ io.old.out) }
    ensures err { OnOk result (io.new.err ≡ io.old.err) }
    ensures ended { IfErr result (λ status. EndsWith W.contents E.contents status io.old io.new) }
{
    let Some(path) = path else {
        return Ok(None);
    };
    let mut file = open_file(rt, path, TEXT_BYTES);
    let source = match read_limited(rt.alloc(), &mut file, TEXT_BYTES) {
        Ok(source) => source,
        Err(ReadError::CannotRead(_)) => {
            return Err(report_fault(rt.alloc(), AnalysisFault::CannotReadText, &file, io));
        }
        Err(ReadError::Memory) => return Err(report_fault(rt.alloc(), NO_MEMORY, &file, io)),
    };
    if has_include(source.as_slice()) {
        return check_included(rt, path.as_str(), source, io);
    }
    let mut text = source.as_slice();
    match check_listing_file(rt.alloc(), &mut text) {
        Ok(checked) => {
            let _written = io.remarks.write_all(checked.remarks.as_bytes());
            Ok(Some(checked.report))
        }
        Err(fault) => Err(fault.report_to(&mut io.err)),
    }
}

/// Checks a source that includes files, and writes the remarks on its cells.
fn check_included<R, W: Write, E: Write, N: Write, P>(
    rt: &R,
    path: &str,
    source: Vec<u8>,
    io: &mut Streams<W, E, N, P>,
) -> Result<Option<Report>, u8>
where
    R: Files + AllocGlobal,
    ensures out { OnOk result (io.new.out ≡ io.old.out) }
    ensures err { OnOk result (io.new.err ≡ io.old.err) }
    ensures ended { IfErr result (λ status. EndsWith W.contents E.contents status io.old io.new) }
{
    let expanded = match expanded_source(rt, path, source) {
        Ok(expanded) => expanded,
        Err(fault) => return Err(report_include(fault, &mut io.err)),
    };
    match checked_in_files(rt.alloc(), &expanded) {
        Ok(checked) => {
            let _written = io.remarks.write_all(checked.remarks.as_bytes());
            Ok(Some(checked.report))
        }
        Err(_) => Err(NO_MEMORY.report_to(&mut io.err)),
    }
}

/// Checks an expanded source, however long it is, and names files and lines.
fn checked_in_files(alloc: Global, expanded: &Expanded) -> Result<CheckedListing, AllocError> {
    let CheckedListing { report, remarks } = check_source(alloc, expanded.text())?;
    Ok(CheckedListing {
        report: Report {
            text: in_files(alloc, expanded, report.text.as_str())?,
            is_sound: report.is_sound,
        },
        remarks: in_files(alloc, expanded, remarks.as_str())?,
    })
}

/// Checks a rope and a script and writes their report, followed by the report on other files.
fn write_check<R: Read, W: Write, E: Write, N: Write, P>(
    alloc: Global,
    form: RopeForm,
    inputs: &mut RunInputs<R>,
    more: &Option<Report>,
    io: &mut Streams<W, E, N, P>,
) -> u8
    ensures ended { EndsWith W.contents E.contents result io.old io.new }
    ensures sound { result ≡ 0 → IsCheckWritten Appends form
        (R.remaining inputs.old.rope) (R.remaining inputs.old.script) more.now true
        (W.contents io.old.out) (W.contents io.new.out) }
    ensures faulty { result ≡ 1 → IsCheckWritten Appends form
        (R.remaining inputs.old.rope) (R.remaining inputs.old.script) more.now false
        (W.contents io.old.out) (W.contents io.new.out) }
    ensures cut { result ≡ 3 → Keeps (W.contents io.old.out) (W.contents io.new.out)
        ⊎ ((is_sound : Bool) × IsCheckWritten IsBegun form
        (R.remaining inputs.old.rope) (R.remaining inputs.old.script) more.now is_sound
        (W.contents io.old.out) (W.contents io.new.out)) }
    ensures refused { result ≡ 2
        → IsReported (IsUnchecked (R.remaining inputs.old.rope) (R.remaining inputs.old.script))
        (E.contents io.old.err) (E.contents io.new.err) }
{
    match check_with(alloc, form, inputs, more) {
        Ok(report) => write_report(&report, &mut io.out),
        Err(fault) => fault.report_to(&mut io.err),
    }
}

/// Writes a report. Returns status 0 if nothing is wrong, or 1 if a file is at fault.
pub fn write_report<W: Write>(report: &Report, out: &mut W) -> u8
    ensures sound { result ≡ 0 → IsWritten Appends report.now true (W.contents out.old) (W.contents out.new) }
    ensures faulty { result ≡ 1 → IsWritten Appends report.now false (W.contents out.old) (W.contents out.new) }
    ensures cut { result ≡ 3
        → IsBegun (W.contents out.old) (W.contents out.new) (string_bytes report.now.text) }
    ensures status { (result ≡ 0) ⊎ ((result ≡ 1) ⊎ (result ≡ 3)) }
{
    let status = if report.is_sound { OK } else { FAULTY };
    status_of(status, write_in_full(out, report.text.as_bytes()))
}
