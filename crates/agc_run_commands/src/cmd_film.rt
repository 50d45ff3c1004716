//! Runs `film`: writes the page that shows a run, or two.
ghost use Rattle.std.specs.Prelude.{◌≡◌, ◌≢◌, ◌⊎◌, IfErr, OnOk};
ghost use Rattle.std.specs.Io.KnownBytes.{Appends, Keeps};
ghost use Rattle.agc_run_commands.specs.Ended.{EndsWith};
ghost use Rattle.agc_run_commands.specs.Filmed.{IsFilmPairRefused, IsFilmRefused};
ghost use Rattle.agc_run_commands.specs.Fault.{IsReported, error_line};
ghost use Rattle.agc_load.specs.declared.fault.LoadFault.{LoadFault};
ghost use Rattle.agc_run_commands.specs.declared.fault.AnalysisFault.TheVariants as analysis;

use crate::fault::{AnalysisFault, FAULTY};
use crate::films::{FilmPage, film_file_pairs, film_files};
use crate::inputs::read_symbols;
use crate::streams::Streams;
use agc_film_blocks::{FilmBlock, film_block};
use agc_io::{OK, ProgressLine, ReadError, read_limited, status_of, write_in_full};
use agc_load::{LoadFault, RunFiles};
use agc_study_args::{FilmArgs, RunInputs, open_file, open_run, resolve_until};
use std::alloc::{AllocError, Global};
use std::io::{Read, Write};
use std::rt::Files;

/// The number of frames above which a film gets a remark.
const MANY_FRAMES: usize = 1_000_000;

/// Films the run of a rope file and a script file, or the runs of two of each. A remark warns if the page is so long
/// that a browser may be slow with it. The stop address may be a symbol.
pub fn run_film<R, W: Write, E: Write, N: Write, P: ProgressLine>(
    rt: &R,
    args: &mut FilmArgs,
    io: &mut Streams<W, E, N, P>,
) -> u8
where
    R: Files + AllocGlobal,
    ensures ended { EndsWith W.contents E.contents result io.old io.new }
    ensures faulty { result ≢ 1 }
{
    let names = match read_symbols(rt, &args.names, io) {
        Ok(names) => names,
        Err(status) => return status,
    };
    if resolve_until(rt.alloc(), &names, &mut args.options.until).is_err() {
        return AnalysisFault::Refused(LoadFault::Memory).report_to(&mut io.err);
    }
    let words = match block_of(rt, &args.nouns, FilmBlock::Nouns, io) {
        Ok(words) => words,
        Err(status) => return status,
    };
    let plot = match block_of(rt, &args.samples, FilmBlock::Samples, io) {
        Ok(plot) => plot,
        Err(status) => return status,
    };
    let mut left = open_run(rt, &args.files);
    let Some(other) = &args.other else {
        let status = write_film(rt.alloc(), args, &mut left, io);
        left.remark_fault(rt.alloc(), &mut io.remarks);
        return end_film(status, &words, &plot, &mut io.out);
    };
    let mut right = open_run(rt, other);
    let status = write_film_pair(rt.alloc(), args, other, &mut left, &mut right, io);
    left.remark_fault(rt.alloc(), &mut io.remarks);
    right.remark_fault(rt.alloc(), &mut io.remarks);
    end_film(status, &words, &plot, &mut io.out)
}

/// Reads the file of a block, and returns the block with what shows it; it is empty without a file. If the file cannot
/// be read, reports that and returns the exit status.
fn block_of<R, W: Write, E: Write, N: Write, P>(
    rt: &R,
    path: &Option<String>,
    block: FilmBlock,
    io: &mut Streams<W, E, N, P>,
) -> Result<String, u8>
where
    R: Files + AllocGlobal,
    ensures unchanged { OnOk result (io.new ≡ io.old) }
    ensures ended { IfErr result (λ status. EndsWith W.contents E.contents status io.old io.new) }
    ensures faulty { IfErr result (λ status. status ≢ 1) }
{
    let Some(path) = path else {
        return Ok(String::new(rt.alloc()));
    };
    let most = block.most_bytes();
    let mut file = open_file(rt, path, most);
    match read_limited(rt.alloc(), &mut file, most) {
        Ok(bytes) => block_in(rt.alloc(), block, bytes.as_slice(), io),
        Err(ReadError::Memory) => {
            Err(AnalysisFault::Refused(LoadFault::Memory).report_to(&mut io.err))
        }
        Err(ReadError::CannotRead(_)) => {
            let status = report_unread(block.name(), &mut io.err);
            file.remark_fault(rt.alloc(), &mut io.remarks);
            Err(status)
        }
    }
}

/// Reports that the file of a block cannot be read, and returns the exit status.
fn report_unread<E: Write>(name: &str, err: &mut E) -> u8
    ensures { (result ≡ 2) ⊎ (result ≡ 3) }
{
    status_of(FAULTY, writeln!(err, "agc-study: cannot read {name}"))
}

/// Returns the block with the bytes of its file, and what shows it. If memory runs out, reports that and returns the
/// exit status.
fn block_in<W: Write, E: Write, N: Write, P>(
    alloc: Global,
    block: FilmBlock,
    bytes: &[u8],
    io: &mut Streams<W, E, N, P>,
) -> Result<String, u8>
    ensures unchanged { OnOk result (io.new ≡ io.old) }
    ensures ended { IfErr result (λ status. EndsWith W.contents E.contents status io.old io.new) }
    ensures faulty { IfErr result (λ status. status ≢ 1) }
{
    match film_block(alloc, block, bytes) {
        Ok(text) => Ok(text),
        Err(AllocError) => Err(AnalysisFault::Refused(LoadFault::Memory).report_to(&mut io.err)),
    }
}

/// Writes the display in words and the plot after a page that was written with this status. Returns the exit status.
fn end_film<W: Write>(status: u8, words: &String, plot: &String, out: &mut W) -> u8
    ensures other { status ≢ 0 → (result ≡ status) × (out.new ≡ out.old) }
    ensures written { status ≡ 0 → (result ≡ 0) ⊎ (result ≡ 3) }
{
    let ended = add_block(status, words, out);
    add_block(ended, plot, out)
}

/// Writes a block after what was written with this status, unless the block is empty. Returns the exit status.
fn add_block<W: Write>(status: u8, block: &String, out: &mut W) -> u8
    ensures other { status ≢ 0 → (result ≡ status) × (out.new ≡ out.old) }
    ensures written { status ≡ 0 → (result ≡ 0) ⊎ (result ≡ 3) }
{
    if status != OK || block.is_empty() {
        return status;
    }
    status_of(OK, write_in_full(out, block.as_bytes()))
}

/// Films the run of a rope and a script, and writes the page.
fn write_film<R: Read, W: Write, E: Write, N: Write, P: ProgressLine>(
    alloc: Global,
    args: &FilmArgs,
    inputs: &mut RunInputs<R>,
    io: &mut Streams<W, E, N, P>,
) -> u8
    ensures ended { EndsWith W.contents E.contents result io.old io.new }
    ensures no_note { result ≡ 2 → Keeps (N.contents io.old.remarks) (N.contents io.new.remarks) }
    ensures faulty { result ≢ 1 }
    ensures refused { result ≡ 2 → (r : LoadFault) × IsFilmRefused args.now
        (R.remaining inputs.old.rope) (R.remaining inputs.old.script) r
        × Appends (E.contents io.old.err) (E.contents io.new.err) (error_line (analysis.Refused r)) }
{
    let filmed = film_files(alloc, args, inputs, &mut io.progress);
    io.progress.wipe();
    match filmed {
        Ok(page) => write_page(&page, &mut io.out, &mut io.remarks),
        Err(refusal) => AnalysisFault::Refused(refusal).report_to(&mut io.err),
    }
}

/// Films the runs of two ropes and two scripts, and writes the page.
fn write_film_pair<R: Read, W: Write, E: Write, N: Write, P: ProgressLine>(
    alloc: Global,
    args: &FilmArgs,
    other: &RunFiles,
    left: &mut RunInputs<R>,
    right: &mut RunInputs<R>,
    io: &mut Streams<W, E, N, P>,
) -> u8
    ensures ended { EndsWith W.contents E.contents result io.old io.new }
    ensures no_note { result ≡ 2 → Keeps (N.contents io.old.remarks) (N.contents io.new.remarks) }
    ensures faulty { result ≢ 1 }
    ensures refused { result ≡ 2 → IsReported (IsFilmPairRefused args.now
        (R.remaining left.old.rope) (R.remaining left.old.script)
        (R.remaining right.old.rope) (R.remaining right.old.script))
        (E.contents io.old.err) (E.contents io.new.err) }
{
    let filmed = film_file_pairs(alloc, args, other, left, right, &mut io.progress);
    io.progress.wipe();
    match filmed {
        Ok(page) => write_page(&page, &mut io.out, &mut io.remarks),
        Err(fault) => fault.report_to(&mut io.err),
    }
}

/// Writes a page. Returns status 0, or 3 if the write fails.
fn write_page<W: Write, N: Write>(page: &FilmPage, out: &mut W, remarks: &mut N) -> u8
    ensures { (result ≡ 0) ⊎ (result ≡ 3) }
{
    remark_on_length(page.frames, remarks);
    status_of(OK, write_in_full(out, page.text.as_bytes()))
}

/// Suggests how to shorten a film of many frames. A remark that cannot be written does not change the film.
fn remark_on_length<N: Write>(frames: usize, remarks: &mut N) {
    if frames > MANY_FRAMES {
        let _written = writeln!(
            remarks,
            "agc-study: the film has {frames} frames, and a browser may be slow with it; --from and --to film a part"
        );
    }
}
