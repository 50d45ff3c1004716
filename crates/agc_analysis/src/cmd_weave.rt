//! Runs `weave`: writes the rope of a text, and its symbol file.
ghost use Rattle.std.specs.Prelude.{◌≡◌, ◌≢◌, ◌⊎◌};
ghost use Rattle.std.specs.Io.KnownBytes.{Appends, Keeps};
ghost use Rattle.agc_io.specs.Output.{IsBegun};
ghost use Rattle.agc_run_commands.specs.Ended.{EndsWith};
ghost use Rattle.agc_rope_commands.specs.Listed.{IsWeaveRefused, IsWeaveWritten};
ghost use Rattle.agc_run_commands.specs.Fault.{IsReported};

use agc_asm::{AssemblyFault, assemble, source_symbols, word_lines};
use agc_cli::exit_usage;
use agc_include::{Expanded, has_include, name_of_path};
use agc_io::{OK, ReadError, TEXT_BYTES, WRITE_FAILED, read_limited, status_of, write_in_full};
use agc_listing_check::{Misnamed, first_misnamed, line_remarks};
use agc_rope_commands::{
    Woven, in_files, misnamed_line, weave_text, write_expanded_faults, write_other_faults,
};
use agc_run_commands::{
    AnalysisFault, FAULTY, Streams, check_new_paths, check_paths_beside, expanded_source,
    is_written, report_include,
};
use agc_store::RopeForm;
use agc_study_args::{NAME, WeaveArgs, open_file, remark_on_file};
use agc_woven::{ListingFault, SumsFault, listing_of, used_file, with_sums};
use std::alloc::Global;
use std::io::{self, ErrorKind, Read, Write};
use std::rt::Files;

/// Why a listing is not written that is longer than `TEXT_BYTES`.
const LONG_LISTING: &str =
    "the listing has more than 16777216 bytes, and no command reads so much: leave out --write-listing";

/// Assembles a text file and writes its symbols. A path of the symbols that may not be written is a command-line error.
/// Remarks warn about the first line with a mismatched mnemonic, and skipped orders.
pub fn run_weave<R, W: Write, E: Write, N: Write, P>(
    rt: &R,
    args: &WeaveArgs,
    io: &mut Streams<W, E, N, P>,
) -> u8
where
    R: Files + AllocGlobal,
    ensures ended { EndsWith W.contents E.contents result io.old io.new }
    ensures faulty { result ≢ 1 }
{
    if let Err(fault) = check_new_paths(rt, args) {
        return exit_usage(NAME, fault, FAULTY, &mut io.out, &mut io.err);
    }
    let mut text = open_file(rt, &args.text, TEXT_BYTES);
    let status = match read_limited(rt.alloc(), &mut text, TEXT_BYTES) {
        Ok(bytes) => write_source(rt, args, bytes, io),
        Err(ReadError::CannotRead(_)) => AnalysisFault::CannotReadText.report_to(&mut io.err),
        Err(ReadError::Memory) => AnalysisFault::Text(AssemblyFault::Memory).report_to(&mut io.err),
    };
    text.remark_fault(rt.alloc(), &mut io.remarks);
    status
}

/// Assembles a source, with the files that it includes. If it is faulty, all faults are printed.
fn write_source<R, W: Write, E: Write, N: Write, P>(
    rt: &R,
    args: &WeaveArgs,
    source: Vec<u8>,
    io: &mut Streams<W, E, N, P>,
) -> u8
where
    R: Files + AllocGlobal,
    ensures ended { EndsWith W.contents E.contents result io.old io.new }
    ensures faulty { result ≢ 1 }
{
    if has_include(source.as_slice()) || args.adds_sums || args.write_listing.is_some() {
        return write_included(rt, args, source, io);
    }
    let mut text = source.as_slice();
    let status = write_weave(rt, args, &mut text, io);
    if status == FAULTY {
        let name = name_of_path(args.text.as_str());
        let written = write_other_faults(rt.alloc(), name, source.as_slice(), &mut io.err);
        return status_of(FAULTY, written);
    }
    status
}

/// Assembles a source that includes files, or whose rope gets sums or a listing.
fn write_included<R, W: Write, E: Write, N: Write, P>(
    rt: &R,
    args: &WeaveArgs,
    source: Vec<u8>,
    io: &mut Streams<W, E, N, P>,
) -> u8
where
    R: Files + AllocGlobal,
    ensures ended { EndsWith W.contents E.contents result io.old io.new }
    ensures faulty { result ≢ 1 }
{
    match expanded_source(rt, args.text.as_str(), source) {
        Ok(expanded) => write_expanded(rt, args, &expanded, io),
        Err(fault) => report_include(fault, &mut io.err),
    }
}

/// Assembles an expanded source and writes its symbols, and then the rope file.
fn write_expanded<R, W: Write, E: Write, N: Write, P>(
    rt: &R,
    args: &WeaveArgs,
    source: &Expanded,
    io: &mut Streams<W, E, N, P>,
) -> u8
where
    R: Files + AllocGlobal,
    ensures ended { EndsWith W.contents E.contents result io.old io.new }
    ensures faulty { result ≢ 1 }
{
    if let Err(fault) = check_paths_beside(rt, args, source) {
        return exit_usage(NAME, fault, FAULTY, &mut io.out, &mut io.err);
    }
    let alloc = rt.alloc();
    let bytes = match assemble(alloc, args.form, source.text()) {
        Ok(bytes) => bytes,
        Err(fault) => {
            let written = write_expanded_faults(alloc, source, fault, &mut io.err);
            return status_of(FAULTY, written);
        }
    };
    match finished_rope(alloc, args, source, bytes) {
        Ok(finished) => write_finished(rt, args, source, &finished, io),
        Err(why) => report_why(why, &mut io.err),
    }
}

/// Reports why there is no rope, and returns the exit status.
fn report_why<E: Write>(why: &str, err: &mut E) -> u8
    ensures { (result ≡ 2) ⊎ (result ≡ 3) }
{
    status_of(FAULTY, writeln!(err, "agc-study: {why}"))
}

/// The rope of an expanded source, with its sums and its listing if they are wanted.
#[derive(Drop)]
struct FinishedRope {
    file: Vec<u8>,
    listing: Option<String>,
    /// The banks that have no room for a sum.
    full: Vec<u8>,
}

/// Adds the sums to a rope, and makes its listing.
fn finished_rope(
    alloc: Global,
    args: &WeaveArgs,
    source: &Expanded,
    bytes: Vec<u8>,
) -> Result<FinishedRope, &'static str> {
    let (file, full) = if args.adds_sums {
        summed_rope(alloc, args.form, source, bytes)?
    } else {
        (bytes, Vec::new(alloc))
    };
    let listing = wanted_listing(alloc, args, source, file.as_slice())?;
    Ok(FinishedRope {
        file,
        listing,
        full,
    })
}

/// Makes the listing of a rope, if it is wanted. A listing that no command could read is refused.
fn wanted_listing(
    alloc: Global,
    args: &WeaveArgs,
    source: &Expanded,
    file: &[u8],
) -> Result<Option<String>, &'static str> {
    if args.write_listing.is_none() {
        return Ok(None);
    }
    match listing_of(alloc, args.form, source, file) {
        Ok(text) => {
            if text.len() > TEXT_BYTES {
                Err(LONG_LISTING)
            } else {
                Ok(Some(text))
            }
        }
        Err(ListingFault::Source(_)) => Err("memory"),
        Err(ListingFault::OtherRope) => {
            Err("the listing does not weave to this rope: report it, please")
        }
    }
}

/// Adds the sums to a rope behind the last words of its source, and returns the banks without room too.
fn summed_rope(
    alloc: Global,
    form: RopeForm,
    source: &Expanded,
    bytes: Vec<u8>,
) -> Result<(Vec<u8>, Vec<u8>), &'static str> {
    let Ok(lines) = word_lines(alloc, source.text()) else {
        return Err("memory");
    };
    if bytes.len() % 2 == 1 {
        return Err("memory");
    }
    let Ok(used) = used_file(alloc, form, bytes.as_slice(), lines.as_slice()) else {
        return Err("memory");
    };
    match with_sums(alloc, form, bytes.as_slice(), used.as_slice()) {
        Ok(summed) => Ok((summed.file, summed.full)),
        Err(SumsFault::Memory) => Err("memory"),
        Err(SumsFault::WrongSum) => Err("a sum came out wrong: report it, please"),
    }
}

/// Writes the symbols and the listing of an expanded source, and then its rope.
fn write_finished<R, W: Write, E: Write, N: Write, P>(
    rt: &R,
    args: &WeaveArgs,
    source: &Expanded,
    finished: &FinishedRope,
    io: &mut Streams<W, E, N, P>,
) -> u8
where
    R: Files + AllocGlobal,
    ensures ended { EndsWith W.contents E.contents result io.old io.new }
    ensures faulty { result ≢ 1 }
{
    if !has_written_names(rt, args, source.text(), &mut io.remarks)
        || !has_written_listing(rt, args, finished, &mut io.remarks)
    {
        return WRITE_FAILED;
    }
    remark_in_files(rt.alloc(), source, &mut io.remarks);
    remark_full(finished.full.as_slice(), &mut io.remarks);
    status_of(OK, write_in_full(&mut io.out, finished.file.as_slice()))
}

/// Names the banks without room for a sum.
fn remark_full<N: Write>(full: &[u8], remarks: &mut N) {
    for bank in full {
        let _written = writeln!(
            remarks,
            "agc-study: bank {bank:02o} has no room for a sum: three words"
        );
    }
}

/// Writes the listing, if there is one. If that fails, a remark reports why.
fn has_written_listing<R, N: Write>(
    rt: &R,
    args: &WeaveArgs,
    finished: &FinishedRope,
    remarks: &mut N,
) -> bool
where
    R: Files + AllocGlobal,
{
    match (&args.write_listing, &finished.listing) {
        (Some(path), Some(listing)) => is_written(rt, path.as_str(), listing.as_bytes(), remarks),
        _ => true,
    }
}

/// Writes the remarks on the lines of an expanded source.
fn remark_in_files<N: Write>(alloc: Global, source: &Expanded, remarks: &mut N) {
    let Ok(mut lines) = line_remarks(alloc, source.text()) else {
        return;
    };
    if let Some(misnamed) = first_misnamed(source.text()) {
        if let Ok(line) = misnamed_line(alloc, misnamed) {
            let _pushed = lines.push_str(line.as_str());
        }
    }
    if let Ok(text) = in_files(alloc, source, lines.as_str()) {
        let _written = remarks.write_all(text.as_bytes());
    }
}

/// Assembles a text, and writes first its symbols to a file, if there is one, and then the rope file. If the symbols
/// cannot be written, a remark reports why, and the rope is not written.
fn write_weave<R, T: Read, W: Write, E: Write, N: Write, P>(
    rt: &R,
    args: &WeaveArgs,
    text: &mut T,
    io: &mut Streams<W, E, N, P>,
) -> u8
where
    R: Files + AllocGlobal,
    ensures ended { EndsWith W.contents E.contents result io.old io.new }
    ensures no_note { result ≡ 2 → Keeps (N.contents io.old.remarks) (N.contents io.new.remarks) }
    ensures faulty { result ≢ 1 }
    ensures woven { result ≡ 0 → IsWeaveWritten Appends args.now.form (T.remaining text.old)
        (W.contents io.old.out) (W.contents io.new.out) }
    ensures cut { result ≡ 3 → Keeps (W.contents io.old.out) (W.contents io.new.out)
        ⊎ IsWeaveWritten IsBegun args.now.form (T.remaining text.old)
        (W.contents io.old.out) (W.contents io.new.out) }
    ensures refused { result ≡ 2 → IsReported (IsWeaveRefused (T.remaining text.old))
        (E.contents io.old.err) (E.contents io.new.err) }
{
    match weave_text(rt.alloc(), args.form, text) {
        Ok(woven) => write_woven(rt, args, &woven, io),
        Err(fault) => fault.report_to(&mut io.err),
    }
}

/// Writes the symbols of a text to the file of `--write-names`, if there is one, and then the rope file. Returns status
/// 0, or 3 if one cannot be written.
fn write_woven<R, W: Write, E: Write, N: Write, P>(
    rt: &R,
    args: &WeaveArgs,
    woven: &Woven,
    io: &mut Streams<W, E, N, P>,
) -> u8
where
    R: Files + AllocGlobal,
    ensures status { (result ≡ 0) ⊎ (result ≡ 3) }
    ensures err { io.new.err ≡ io.old.err }
    ensures whole { result ≡ 0
        → Appends (W.contents io.old.out) (W.contents io.new.out) woven.now.bytes.items }
    ensures cut { result ≡ 3
        → IsBegun (W.contents io.old.out) (W.contents io.new.out) woven.now.bytes.items }
{
    if !has_written_names(rt, args, woven.text.as_slice(), &mut io.remarks) {
        return WRITE_FAILED;
    }
    remark_misnamed(rt.alloc(), woven.misnamed, &mut io.remarks);
    remark_lines(rt.alloc(), woven.text.as_slice(), &mut io.remarks);
    status_of(OK, write_in_full(&mut io.out, woven.bytes.as_slice()))
}

/// Writes the symbols of a text to the file of `--write-names`, if there is one. If that fails, a remark reports why.
fn has_written_names<R, N: Write>(rt: &R, args: &WeaveArgs, source: &[u8], remarks: &mut N) -> bool
where
    R: Files + AllocGlobal,
{
    let Some(path) = &args.write_names else {
        return true;
    };
    match source_symbols(rt.alloc(), source) {
        Ok(names) => is_written(rt, path.as_str(), names.as_slice(), remarks),
        Err(_) => {
            let reason = io::Error::from(ErrorKind::OutOfMemory);
            remark_on_file(rt.alloc(), path.as_str(), &reason, remarks);
            false
        }
    }
}

/// Warns about a mnemonic that does not match its word. If the remark cannot be written, the rope is the same.
fn remark_misnamed<N: Write>(alloc: Global, misnamed: Option<Misnamed>, remarks: &mut N) {
    let Some(misnamed) = misnamed else {
        return;
    };
    if let Ok(line) = misnamed_line(alloc, misnamed) {
        let _written = remarks.write_all(line.as_bytes());
    }
}

/// Warns about orders that directives skip.
fn remark_lines<N: Write>(alloc: Global, source: &[u8], remarks: &mut N) {
    if let Ok(lines) = line_remarks(alloc, source) {
        let _written = remarks.write_all(lines.as_bytes());
    }
}
