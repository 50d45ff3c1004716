//! Writes the page of `check --report`, which shows a rope, or two, for whoever restores it, to a new file.
ghost use Rattle.std.specs.Prelude.{◌≡◌, IfErr, OnOk};
ghost use Rattle.agc_run_commands.specs.Ended.{EndsWith};

use crate::checks::{CheckedRope, check_rope_file};
use agc_cli::exit_usage;
use agc_io::{ROPE_BYTES, WRITE_FAILED};
use agc_load::LoadFault;
use agc_report::{ShownRope, rope_page};
use agc_run_commands::{AnalysisFault, FAULTY, Streams, check_new_file, is_written, report_fault};
use agc_store::RopeForm;
use agc_study_args::{CheckArgs, NAME, ReportArgs, open_file};
use std::alloc::{AllocError, Global};
use std::io::Write;
use std::rt::Files;

/// The option as command-line errors name it.
const REPORT: &str = "--report <NEW>";

/// Checks that there is nothing at the path of the page, if one is wanted. If there is, reports that and returns the exit
/// status.
pub(crate) fn check_page_path<R, W: Write, E: Write, N: Write, P>(
    rt: &R,
    args: &CheckArgs,
    io: &mut Streams<W, E, N, P>,
) -> Result<(), u8>
where
    R: Files + AllocGlobal,
    ensures unchanged { OnOk result (io.new ≡ io.old) }
    ensures ended { IfErr result (λ status. EndsWith W.contents E.contents status io.old io.new) }
{
    let Some(report) = &args.report else {
        return Ok(());
    };
    match check_new_file(rt, REPORT, report.page.as_str()) {
        Ok(()) => Ok(()),
        Err(fault) => Err(exit_usage(NAME, fault, FAULTY, &mut io.out, &mut io.err)),
    }
}

/// Writes the page on the rope at a path, if one is wanted. If that fails, reports it and returns the exit status.
pub(crate) fn write_rope_page<R, W: Write, E: Write, N: Write, P>(
    rt: &R,
    args: &CheckArgs,
    path: &str,
    rope: &CheckedRope,
    io: &mut Streams<W, E, N, P>,
) -> Result<(), u8>
where
    R: Files + AllocGlobal,
    ensures out { OnOk result (io.new.out ≡ io.old.out) }
    ensures err { OnOk result (io.new.err ≡ io.old.err) }
    ensures ended { IfErr result (λ status. EndsWith W.contents E.contents status io.old io.new) }
{
    let Some(report) = &args.report else {
        return Ok(());
    };
    let page = page_text(rt, args.form, report, path, rope, io)?;
    if is_written(rt, report.page.as_str(), page.as_bytes(), &mut io.remarks) {
        Ok(())
    } else {
        Err(WRITE_FAILED)
    }
}

/// Returns the page on a rope, and on the rope of `--beside`. If that one cannot be read, reports it and returns the exit
/// status.
fn page_text<R, W: Write, E: Write, N: Write, P>(
    rt: &R,
    form: RopeForm,
    report: &ReportArgs,
    path: &str,
    rope: &CheckedRope,
    io: &mut Streams<W, E, N, P>,
) -> Result<String, u8>
where
    R: Files + AllocGlobal,
    ensures unchanged { OnOk result (io.new ≡ io.old) }
    ensures ended { IfErr result (λ status. EndsWith W.contents E.contents status io.old io.new) }
{
    let shown = shown_rope(path, form, rope);
    let Some(other_path) = &report.beside else {
        return page_or_fault(rt.alloc(), shown, None, io);
    };
    let mut file = open_file(rt, other_path, ROPE_BYTES);
    match check_rope_file(rt.alloc(), report.other_form, None, &mut file) {
        Ok(other) => {
            let beside = shown_rope(other_path.as_str(), report.other_form, &other);
            page_or_fault(rt.alloc(), shown, Some(beside), io)
        }
        Err(fault) => Err(report_fault(rt.alloc(), fault.of_second(), &file, io)),
    }
}

/// Returns a page. If memory runs out, reports that and returns the exit status.
fn page_or_fault<W: Write, E: Write, N: Write, P>(
    alloc: Global,
    rope: ShownRope<'_>,
    other: Option<ShownRope<'_>>,
    io: &mut Streams<W, E, N, P>,
) -> Result<String, u8>
    ensures unchanged { OnOk result (io.new ≡ io.old) }
    ensures ended { IfErr result (λ status. EndsWith W.contents E.contents status io.old io.new) }
{
    match rope_page(alloc, rope, other) {
        Ok(page) => Ok(page),
        Err(AllocError) => Err(AnalysisFault::Refused(LoadFault::Memory).report_to(&mut io.err)),
    }
}

fn shown_rope<'a>(name: &'a str, form: RopeForm, rope: &'a CheckedRope) -> ShownRope<'a> {
    ShownRope {
        name,
        form,
        is_placed: rope.is_placed,
        file: rope.file.as_slice(),
        holdings: rope.holdings.text.as_str(),
        findings: rope.findings.as_str(),
    }
}
