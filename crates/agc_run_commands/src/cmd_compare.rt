//! Runs `compare`: writes the comparison of two runs.
ghost use Rattle.std.specs.Prelude.{◌≡◌, ◌⊎◌, Bool, None, true, false, string_bytes};
ghost use Rattle.std.specs.Option.{option_or};
ghost use Rattle.std.specs.Io.KnownBytes.{Appends, Keeps};
ghost use Rattle.agc_io.specs.Output.{IsBegun};
ghost use Rattle.agc_run_commands.specs.Compared.{IsComparisonWritten, IsOutcomeWritten, other_options};
ghost use Rattle.agc_run_commands.specs.Ended.{EndsWith};
ghost use Rattle.agc_run_commands.specs.Pairs.{IsPairRefused};
ghost use Rattle.agc_run_commands.specs.Fault.{IsReported};

use crate::compares::{DiffOutcome, compare_files};
use crate::fault::AnalysisFault;
use crate::inputs::read_symbols;
use crate::streams::Streams;
use agc_io::{OK, ProgressLine, status_of, write_in_full};
use agc_load::LoadFault;
use agc_study_args::{CompareArgs, RunInputs, open_run, resolve_until};
use agc_symbols::SymbolTable;
use agc_text::SideNames;
use std::alloc::Global;
use std::io::{Read, Write};
use std::rt::Files;

/// The exit status if two runs differ.
const APART: u8 = 1;

/// Compares the runs of two rope and two script files. Symbols of the left run may name the stop address of both.
pub fn run_compare<R, W: Write, E: Write, N: Write, P: ProgressLine>(
    rt: &R,
    args: &mut CompareArgs,
    io: &mut Streams<W, E, N, P>,
) -> u8
where
    R: Files + AllocGlobal,
    ensures ended { EndsWith W.contents E.contents result io.old io.new }
{
    let names = match read_symbols(rt, &args.names, io) {
        Ok(names) => names,
        Err(status) => return status,
    };
    let other_names = match read_symbols(rt, &args.other_names, io) {
        Ok(names) => names,
        Err(status) => return status,
    };
    if resolve_until(rt.alloc(), &names, &mut args.options.until).is_err() {
        return AnalysisFault::Refused(LoadFault::Memory).report_to(&mut io.err);
    }
    let names = names_of_sides(&names, &other_names);
    let mut left = open_run(rt, &args.files);
    let mut right = open_run(rt, &args.other);
    let status = write_comparison(rt.alloc(), args, names, &mut left, &mut right, io);
    left.remark_fault(rt.alloc(), &mut io.remarks);
    right.remark_fault(rt.alloc(), &mut io.remarks);
    status
}

/// Returns the symbols of each run: those of the left run are used for both if the right run has none of its own.
fn names_of_sides<'a>(
    left: &'a Option<SymbolTable>,
    right: &'a Option<SymbolTable>,
) -> SideNames<'a>
    ensures left { result.left.now ≡ left.now }
    ensures right { result.right.now ≡ option_or right.now left.now }
{
    let right = if right.is_some() { right } else { left };
    SideNames { left, right }
}

/// Compares the runs of two ropes and two scripts, and writes the result.
fn write_comparison<R: Read, W: Write, E: Write, N: Write, P: ProgressLine>(
    alloc: Global,
    args: &CompareArgs,
    names: SideNames<'_>,
    left: &mut RunInputs<R>,
    right: &mut RunInputs<R>,
    io: &mut Streams<W, E, N, P>,
) -> u8
    ensures ended { EndsWith W.contents E.contents result io.old io.new }
    ensures same { result ≡ 0 → IsComparisonWritten Appends args.now
        (R.remaining left.old.rope) (R.remaining left.old.script)
        (R.remaining right.old.rope) (R.remaining right.old.script) true
        (W.contents io.old.out) (W.contents io.new.out) }
    ensures apart { result ≡ 1 → IsComparisonWritten Appends args.now
        (R.remaining left.old.rope) (R.remaining left.old.script)
        (R.remaining right.old.rope) (R.remaining right.old.script) false
        (W.contents io.old.out) (W.contents io.new.out) }
    ensures cut { result ≡ 3 → Keeps (W.contents io.old.out) (W.contents io.new.out)
        ⊎ ((is_same : Bool) × IsComparisonWritten IsBegun args.now
        (R.remaining left.old.rope) (R.remaining left.old.script)
        (R.remaining right.old.rope) (R.remaining right.old.script) is_same
        (W.contents io.old.out) (W.contents io.new.out)) }
    ensures refused { result ≡ 2 → IsReported (IsPairRefused args.now.options (other_options args.now) None
        (R.remaining left.old.rope) (R.remaining left.old.script)
        (R.remaining right.old.rope) (R.remaining right.old.script))
        (E.contents io.old.err) (E.contents io.new.err) }
{
    let compared = compare_files(alloc, args, names, left, right, &mut io.progress);
    io.progress.wipe();
    match compared {
        Ok(outcome) => {
            remark_silent(&outcome, &mut io.remarks);
            write_outcome(&outcome, &mut io.out)
        }
        Err(fault) => fault.report_to(&mut io.err),
    }
}

/// Warns if the runs are the same because neither showed anything.
fn remark_silent<N: Write>(outcome: &DiffOutcome, remarks: &mut N) {
    if outcome
        .text
        .as_str()
        .starts_with("The runs show the same: 0 ")
    {
        let _written = remarks.write_all(
            b"agc-study: neither run showed anything; check ROPE shows whether the form is right\n",
        );
    }
}

/// Writes the comparison. Returns status 0 if the runs are the same, or 1 if they differ.
pub fn write_outcome<W: Write>(outcome: &DiffOutcome, out: &mut W) -> u8
    ensures same { result ≡ 0 → IsOutcomeWritten Appends outcome.now true (W.contents out.old) (W.contents out.new) }
    ensures apart { result ≡ 1 → IsOutcomeWritten Appends outcome.now false (W.contents out.old) (W.contents out.new) }
    ensures cut { result ≡ 3
        → IsBegun (W.contents out.old) (W.contents out.new) (string_bytes outcome.now.text) }
    ensures status { (result ≡ 0) ⊎ ((result ≡ 1) ⊎ (result ≡ 3)) }
{
    let status = if outcome.is_same { OK } else { APART };
    status_of(status, write_in_full(out, outcome.text.as_bytes()))
}
