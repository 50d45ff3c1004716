//! Runs `compare --words`: writes the words of two ropes or sources that differ.
ghost use Rattle.std.specs.Prelude.{◌≡◌, ◌⊎◌};
ghost use Rattle.agc_run_commands.specs.Ended.{EndsWith};

use agc_asm::{AssemblyFault, assemble, word_lines};
use agc_include::{ExpandError, Expanded, has_include};
use agc_io::{OK, ROPE_BYTES, ReadError, TEXT_BYTES, read_limited, status_of, write_in_full};
use agc_load::LoadFault;
use agc_rope_commands::{push_line, weave_text, write_expanded_faults};
use agc_run_commands::{AnalysisFault, FAULTY, Streams, expanded_source, report_include};
use agc_store::{Rope, RopeForm, Store};
use agc_study_args::{
    LinedRope, RopeRead, WordsArgs, open_file, read_any_rope, text_of_words_apart,
};
use agc_text::push_slips;
use std::alloc::{AllocError, Global};
use std::io::{Read, Write};
use std::rt::Files;

/// The exit status if words differ.
const APART: u8 = 1;

/// Out of memory.
const NO_MEMORY: AnalysisFault = AnalysisFault::Refused(LoadFault::Memory);

/// Compares the words of two ropes or sources and writes those that differ.
pub fn run_words<R, W: Write, E: Write, N: Write, P>(
    rt: &R,
    args: &WordsArgs,
    io: &mut Streams<W, E, N, P>,
) -> u8
where
    R: Files + AllocGlobal,
    ensures ended { EndsWith W.contents E.contents result io.old io.new }
{
    let mut rope = open_file(rt, &args.rope, most_bytes(args));
    let mut other = open_file(rt, &args.other, most_bytes(args));
    let status = match words_text(rt, args, &mut rope, &mut other, &mut io.remarks) {
        Ok(ComparedWords { text, wrong }) => {
            rope.remark_wrong(rt.alloc(), wrong.0, &mut io.remarks);
            other.remark_wrong(rt.alloc(), wrong.1, &mut io.remarks);
            let status = if text.is_empty() { OK } else { APART };
            status_of(status, write_in_full(&mut io.out, text.as_bytes()))
        }
        Err(fault) => report_side(rt.alloc(), fault, &mut io.err),
    };
    rope.remark_fault(rt.alloc(), &mut io.remarks);
    other.remark_fault(rt.alloc(), &mut io.remarks);
    status
}

/// Returns the most bytes that a file may have.
fn most_bytes(args: &WordsArgs) -> usize {
    if args.are_sources {
        TEXT_BYTES
    } else {
        ROPE_BYTES
    }
}

/// The words that differ in two ropes, as text.
#[derive(Drop)]
struct ComparedWords {
    text: String,
    /// The numbers of words with wrong parity in the first rope and in the second.
    wrong: (usize, usize),
}

/// One of the two ropes, as it was read or assembled.
#[derive(Drop)]
struct Side {
    rope: LinedRope,
    /// The number of words with wrong parity.
    wrong: usize,
}

/// Why one of two files has no words.
#[derive(Drop)]
enum SideFault {
    /// A fault that a single file has too.
    File(AnalysisFault),
    /// A faulty include of a source.
    Include(ExpandError),
    /// A source with includes does not assemble.
    Source(Expanded, AssemblyFault),
}

impl From<AnalysisFault> for SideFault {
    fn from(fault: AnalysisFault) -> SideFault {
        SideFault::File(fault)
    }
}

/// Reports why one of two files has no words, and returns the exit status.
fn report_side<E: Write>(alloc: Global, fault: SideFault, err: &mut E) -> u8
    ensures { (result ≡ 2) ⊎ (result ≡ 3) }
{
    match fault {
        SideFault::File(fault) => fault.report_to(err),
        SideFault::Include(fault) => report_include(fault, err),
        SideFault::Source(source, fault) => {
            status_of(FAULTY, write_expanded_faults(alloc, &source, fault, err))
        }
    }
}

/// Returns the text of the words that differ in two files.
fn words_text<F, R: Read, S: Read, N: Write>(
    rt: &F,
    args: &WordsArgs,
    rope: &mut R,
    other: &mut S,
    remarks: &mut N,
) -> Result<ComparedWords, SideFault>
where
    F: Files + AllocGlobal,
{
    if args.are_sources {
        return sources_text(rt, args, rope, other, remarks);
    }
    let first = read_side(rt.alloc(), args, args.form, rope)?;
    let second = match read_side(rt.alloc(), args, args.other_form, other) {
        Ok(read) => read,
        Err(fault) => return Err(SideFault::File(fault.of_second())),
    };
    compared(rt.alloc(), &first, &second)
}

/// Returns the text of the words that differ in two ropes.
fn compared(alloc: Global, first: &Side, second: &Side) -> Result<ComparedWords, SideFault> {
    match text_of_words_apart(alloc, &first.rope, &second.rope) {
        Ok(text) => Ok(ComparedWords {
            text,
            wrong: (first.wrong, second.wrong),
        }),
        Err(_) => Err(SideFault::File(NO_MEMORY)),
    }
}

/// Returns the text of the words that differ in two sources, then the slips between two typed listings. If a source is faulty,
/// the slips are remarks.
fn sources_text<F, R: Read, S: Read, N: Write>(
    rt: &F,
    args: &WordsArgs,
    source: &mut R,
    other: &mut S,
    remarks: &mut N,
) -> Result<ComparedWords, SideFault>
where
    F: Files + AllocGlobal,
{
    let first = read_text(rt.alloc(), source)?;
    let second = match read_text(rt.alloc(), other) {
        Ok(text) => text,
        Err(fault) => {
            let _first = read_source(rt, args.rope.as_str(), first)?;
            return Err(SideFault::File(fault.of_second()));
        }
    };
    let slips = slips_between(rt.alloc(), first.as_slice(), second.as_slice())?;
    match assembled(rt, args, first, second) {
        Ok(words) => with_slips(words, slips.as_str()),
        Err(fault) => {
            let _written = remarks.write_all(slips.as_bytes());
            Err(fault)
        }
    }
}

/// Returns the likely slips between two typed listings.
fn slips_between(alloc: Global, first: &[u8], second: &[u8]) -> Result<String, AnalysisFault> {
    let mut slips = String::new(alloc);
    match push_slips(alloc, &mut slips, first, second) {
        Ok(()) => Ok(slips),
        Err(_) => Err(NO_MEMORY),
    }
}

/// Appends the slips between two typed listings.
fn with_slips(words: ComparedWords, slips: &str) -> Result<ComparedWords, SideFault> {
    let mut words = words;
    match words.text.push_str(slips) {
        Ok(()) => Ok(words),
        Err(_) => Err(SideFault::File(NO_MEMORY)),
    }
}

/// Assembles two sources and compares their words.
fn assembled<F>(
    rt: &F,
    args: &WordsArgs,
    first: Vec<u8>,
    second: Vec<u8>,
) -> Result<ComparedWords, SideFault>
where
    F: Files + AllocGlobal,
{
    let first = read_source(rt, args.rope.as_str(), first)?;
    let second = match read_source(rt, args.other.as_str(), second) {
        Ok(read) => read,
        Err(SideFault::File(fault)) => return Err(SideFault::File(fault.of_second())),
        Err(fault) => return Err(fault),
    };
    compared(rt.alloc(), &first, &second)
}

/// Reads a rope file.
fn read_side<R: Read>(
    alloc: Global,
    args: &WordsArgs,
    form: RopeForm,
    reader: &mut R,
) -> Result<Side, AnalysisFault> {
    let RopeRead { rope, wrong } = match read_any_rope(alloc, form, args.ignores_parity, reader) {
        Ok(read) => read,
        Err(fault) => return Err(AnalysisFault::Refused(fault)),
    };
    Ok(Side {
        rope: LinedRope {
            store: Store::new(rope),
            lines: Vec::new(alloc),
            line_names: Vec::new(alloc),
        },
        wrong: wrong.len(),
    })
}

/// Reads a source.
fn read_text<R: Read>(alloc: Global, reader: &mut R) -> Result<Vec<u8>, AnalysisFault> {
    match read_limited(alloc, reader, TEXT_BYTES) {
        Ok(bytes) => Ok(bytes),
        Err(ReadError::CannotRead(_)) => Err(AnalysisFault::CannotReadText),
        Err(ReadError::Memory) => Err(NO_MEMORY),
    }
}

/// Assembles the source at a path, with the files that it includes.
fn read_source<F>(rt: &F, path: &str, bytes: Vec<u8>) -> Result<Side, SideFault>
where
    F: Files + AllocGlobal,
{
    let alloc = rt.alloc();
    if !has_include(bytes.as_slice()) {
        let mut text = bytes.as_slice();
        let woven = weave_text(alloc, RopeForm::Classic, &mut text)?;
        let lines = word_lines(alloc, bytes.as_slice()).map_err(|fault| AnalysisFault::Text(
            fault,
        ))?;
        return Ok(lined_side(alloc, woven.bytes.as_slice(), lines, Vec::new(alloc))?);
    }
    match expanded_source(rt, path, bytes) {
        Ok(source) => read_expanded(alloc, source),
        Err(fault) => Err(SideFault::Include(fault)),
    }
}

/// Assembles a source with includes.
fn read_expanded(alloc: Global, source: Expanded) -> Result<Side, SideFault> {
    let file = match assemble(alloc, RopeForm::Classic, source.text()) {
        Ok(file) => file,
        Err(fault) => return Err(SideFault::Source(source, fault)),
    };
    let lines = match word_lines(alloc, source.text()) {
        Ok(lines) => lines,
        Err(fault) => return Err(SideFault::Source(source, fault)),
    };
    let Ok(names) = line_names(alloc, &source) else {
        return Err(SideFault::File(NO_MEMORY));
    };
    Ok(lined_side(alloc, file.as_slice(), lines, names)?)
}

/// Returns the file and the number of each line of a source.
fn line_names(alloc: Global, source: &Expanded) -> Result<Vec<String>, AllocError> {
    let mut names = Vec::new(alloc);
    for number in 1..u64::MAX {
        let number = number as usize;
        if source.origin(number).is_none() {
            break;
        }
        let mut name = String::new(alloc);
        push_line(&mut name, source, number)?;
        names.push(name)?;
    }
    Ok(names)
}

/// Returns the words of a rope that was assembled, with their lines.
fn lined_side(
    alloc: Global,
    file: &[u8],
    lines: Vec<usize>,
    line_names: Vec<String>,
) -> Result<Side, AnalysisFault> {
    match Rope::read_as(alloc, RopeForm::Classic, file) {
        Ok(rope) => Ok(Side {
            rope: LinedRope {
                store: Store::new(rope),
                lines,
                line_names,
            },
            wrong: 0,
        }),
        Err(fault) => Err(AnalysisFault::Refused(LoadFault::Rope(fault))),
    }
}
