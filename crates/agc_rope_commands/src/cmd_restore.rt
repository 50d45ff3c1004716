//! Runs `convert`, `repair`, `patch` and `sums`, which restore a damaged rope.
ghost use Rattle.std.specs.Prelude.{◌≡◌, ◌≢◌, ◌%◌, length};
ghost use Rattle.agc_run_commands.specs.Ended.{EndsWith};

use crate::column_lines::{ColumnRepairs, repairs_of_columns};
use crate::rope_bytes::{WrittenRope, patched_rope, read_banks, written_rope};
use agc_check::{
    Damage, FileRepairs, MOST_REPAIRED, file_repairs, push_reading, push_stuck, push_sum_line,
};
use agc_io::{OK, ROPE_BYTES, TEXT_BYTES, status_of, write_in_full};
use agc_listing::push_rope_place;
use agc_load::LoadFault;
use agc_mend::{
    BadWord, BitChange, bad_words, damaged_store, explain_most, file_words, may_be_modules,
    sum_in_bank,
};
use agc_run_commands::{AnalysisFault, Streams};
use agc_store::RopeForm;
use agc_store::place::FIXED_BANKS;
use agc_study_args::{ConvertArgs, ConvertedRope, PatchArgs, RepairArgs, SumsArgs, open_file};
use agc_word::Narrow;
use std::alloc::{AllocError, Global};
use std::io::{Read, Write};
use std::rt::Files;

/// What a repair that is not sure means.
const NOT_SURE: &str =
    "agc-study: after a repair that is not sure, the sum of its bank proves nothing\n";

/// The most words whose parity bits were made right that a remark names, unless all are wanted.
const MOST_MENDED: usize = 20;

/// Converts a rope file to another reading and writes it. A remark reports what changed.
pub fn run_convert<R, W: Write, E: Write, N: Write, P>(
    rt: &R,
    args: &ConvertArgs,
    io: &mut Streams<W, E, N, P>,
) -> u8
where
    R: Files + AllocGlobal,
    ensures ended { EndsWith W.contents E.contents result io.old io.new }
    ensures faulty { result ≢ 1 }
{
    let most = match args.from_text {
        Some(_) => TEXT_BYTES,
        None => ROPE_BYTES,
    };
    let mut rope = open_file(rt, &args.rope, most);
    let status = match written_rope(rt.alloc(), args, &mut rope) {
        Ok(made) => {
            remark_converted(rt.alloc(), args, &made.rope, &mut io.remarks);
            status_of(OK, write_in_full(&mut io.out, bytes_of(&made)))
        }
        Err(fault) => fault.report_to(&mut io.err),
    };
    rope.remark_fault(rt.alloc(), &mut io.remarks);
    status
}

/// Returns what a conversion writes: the text, or the rope file.
fn bytes_of(made: &WrittenRope) -> &[u8] {
    match &made.text {
        Some(text) => text.as_bytes(),
        None => made.rope.file.as_slice(),
    }
}

/// Reports what a conversion changed.
fn remark_converted<N: Write>(
    alloc: Global,
    args: &ConvertArgs,
    made: &ConvertedRope,
    remarks: &mut N,
) {
    if let Ok(text) = converted_text(alloc, args, made) {
        let _written = remarks.write_all(text.as_bytes());
    }
}

fn converted_text(
    alloc: Global,
    args: &ConvertArgs,
    made: &ConvertedRope,
) -> Result<String, AllocError> {
    let mut text = String::new(alloc);
    text.push_str("agc-study: from ")?;
    push_reading(&mut text, args.before, args.change)?;
    text.push_str(" to ")?;
    push_reading(&mut text, args.after, BitChange::Nothing)?;
    let words = made.words;
    write!(text, ": {words} words")?;
    let wrong = made.wrong;
    if wrong > 0 {
        write!(text, "; {wrong} with wrong parity, kept")?;
    }
    if let Some(dropped) = made.dropped {
        let word = word_of(dropped);
        write!(text, "; left out {word}")?;
    }
    if made.mended.is_empty() {
        text.push_str("\n")?;
    } else {
        push_mended(&mut text, made.mended.as_slice(), args.shows_all)?;
    }
    Ok(text)
}

/// Appends the words whose parity bits were made right: their number, and the first twenty or all.
fn push_mended(text: &mut String, mended: &[BadWord], shows_all: bool) -> Result<(), AllocError> {
    let count = mended.len();
    writeln!(text, "; parity bits made right: {count}")?;
    let most = if shows_all { count } else { MOST_MENDED };
    for bad in mended.iter().take(most) {
        let (word, parity) = (word_of(bad.word), bad.word % 2);
        text.push_str("    ")?;
        push_rope_place(text, bad.place)?;
        writeln!(text, " {word} had parity bit {parity}")?;
    }
    if count > most {
        writeln!(text, "    .. the first {most} are shown; --all shows all")?;
    }
    Ok(())
}

/// Returns the word in sixteen bits of a file, of which the last is the parity bit.
fn word_of(bits: u16) -> Narrow {
    Narrow::with_bits(bits / 2)
}

/// Writes the single-bit repairs of the words with wrong parity as lines of a patch.
pub fn run_repair<R, W: Write, E: Write, N: Write, P>(
    rt: &R,
    args: &RepairArgs,
    io: &mut Streams<W, E, N, P>,
) -> u8
where
    R: Files + AllocGlobal,
    ensures ended { EndsWith W.contents E.contents result io.old io.new }
    ensures faulty { result ≢ 1 }
{
    let mut rope = open_file(rt, &args.rope, ROPE_BYTES);
    let status = match printed_repairs(rt.alloc(), args, &mut rope) {
        Ok(printed) => {
            let _written = io.remarks.write_all(printed.remark.as_bytes());
            status_of(OK, write_in_full(&mut io.out, printed.text.as_bytes()))
        }
        Err(fault) => fault.report_to(&mut io.err),
    };
    rope.remark_fault(rt.alloc(), &mut io.remarks);
    status
}

/// The repairs of a rope file.
#[derive(Drop)]
struct PrintedRepairs {
    /// The lines of a patch.
    text: String,
    /// What the repairs rest on, and whether words have none.
    remark: String,
}

/// Returns the repairs of a rope file in the form with parity: those of words in stuck columns with `--stuck`, else those of
/// single words. If more words are wrong than a damage of single words makes, it returns those of stuck columns if these have
/// most wrong words, and else refuses the file.
fn printed_repairs<R: Read>(
    alloc: Global,
    args: &RepairArgs,
    reader: &mut R,
) -> Result<PrintedRepairs, AnalysisFault> {
    let bytes = read_banks(alloc, RopeForm::Parity, args.first_bank, reader)?;
    let file = bytes.as_slice();
    if args.mends_columns {
        let found = found_columns(alloc, args, file)?;
        return column_repairs(alloc, found);
    }
    let found = found_repairs(alloc, args, file)?;
    if found.damage != Damage::Layout {
        let remark = repairs_remark(alloc, &found).map_err(no_memory)?;
        let text = found.text;
        return Ok(PrintedRepairs { text, remark });
    }
    let found = found_columns(alloc, args, file)?;
    if explain_most(found.repaired, found.wrong) {
        column_repairs(alloc, found)
    } else {
        Err(AnalysisFault::OtherLayout)
    }
}

/// Finds the repairs of words where a bit is stuck in part of the rope.
fn found_columns(
    alloc: Global,
    args: &RepairArgs,
    file: &[u8],
) -> Result<ColumnRepairs, AnalysisFault>
    requires { length file.now % 2 ≡ 0 }
{
    let found = repairs_of_columns(alloc, file).map_err(no_memory)?;
    refuse_no_parity(args, found.wrong, file)?;
    Ok(found)
}

/// Returns the repairs of stuck columns, with their remark.
fn column_repairs(alloc: Global, found: ColumnRepairs) -> Result<PrintedRepairs, AnalysisFault> {
    let remark = columns_remark(alloc, &found).map_err(no_memory)?;
    let text = found.text;
    Ok(PrintedRepairs { text, remark })
}

fn columns_remark(alloc: Global, found: &ColumnRepairs) -> Result<String, AllocError> {
    let mut text = String::new(alloc);
    let (wrong, repaired) = (found.wrong, found.repaired);
    writeln!(
        text,
        "agc-study: {wrong} words with wrong parity: {repaired} are where a bit is stuck, and are repaired"
    )?;
    if repaired > 0 {
        text.push_str(NOT_SURE)?;
    }
    Ok(text)
}

fn repairs_remark(alloc: Global, found: &FileRepairs) -> Result<String, AllocError> {
    let mut text = String::new(alloc);
    let wrong = found.wrong;
    if let Damage::Stuck(bit) = found.damage {
        write!(text, "agc-study: {wrong} words with wrong parity: ")?;
        push_stuck(&mut text, bit)?;
        text.push_str("\n")?;
    } else if wrong > MOST_REPAIRED {
        writeln!(
            text,
            "agc-study: {wrong} words with wrong parity: the first {MOST_REPAIRED} are repaired"
        )?;
    }
    if found.has_unsure {
        text.push_str(NOT_SURE)?;
    }
    Ok(text)
}

/// Refuses a file with wrong parity whose parity bits are all 0, without `--form parity`: it is probably in the classic form.
fn refuse_no_parity(args: &RepairArgs, wrong: usize, file: &[u8]) -> Result<(), AnalysisFault> {
    if wrong > 0 && !args.has_parity && !has_parity_bit(file) {
        Err(AnalysisFault::NoParity)
    } else {
        Ok(())
    }
}

/// Returns the repairs of single words, or those of a bit that is stuck in all wrong words.
fn found_repairs(
    alloc: Global,
    args: &RepairArgs,
    file: &[u8],
) -> Result<FileRepairs, AnalysisFault>
    requires { length file.now % 2 ≡ 0 }
{
    let is_placed = args.first_bank.is_some() || !may_be_modules(file.len());
    let found = file_repairs(alloc, file, is_placed, args.most).map_err(no_memory)?;
    refuse_no_parity(args, found.wrong, file)?;
    Ok(found)
}

/// Returns whether a parity bit is 1: the last bit of a word.
fn has_parity_bit(file: &[u8]) -> bool {
    file.iter().skip(1).step_by(2).any(|lower| *lower % 2 == 1)
}

/// Applies a patch to a rope file and writes the file.
pub fn run_patch<R, W: Write, E: Write, N: Write, P>(
    rt: &R,
    args: &PatchArgs,
    io: &mut Streams<W, E, N, P>,
) -> u8
where
    R: Files + AllocGlobal,
    ensures ended { EndsWith W.contents E.contents result io.old io.new }
    ensures faulty { result ≢ 1 }
{
    let mut rope = open_file(rt, &args.rope, ROPE_BYTES);
    match &args.patch {
        Some(path) => {
            let mut patch = open_file(rt, path, TEXT_BYTES);
            let status = write_patched(rt.alloc(), args, &mut rope, &mut patch, io);
            rope.remark_fault(rt.alloc(), &mut io.remarks);
            patch.remark_fault(rt.alloc(), &mut io.remarks);
            status
        }
        None => {
            let mut no_patch: &[u8] = &[];
            let status = write_patched(rt.alloc(), args, &mut rope, &mut no_patch, io);
            rope.remark_fault(rt.alloc(), &mut io.remarks);
            status
        }
    }
}

/// Writes the rope file with the words of a patch.
fn write_patched<R: Read, T: Read, W: Write, E: Write, N: Write, P>(
    alloc: Global,
    args: &PatchArgs,
    rope: &mut R,
    patch: &mut T,
    io: &mut Streams<W, E, N, P>,
) -> u8
    ensures ended { EndsWith W.contents E.contents result io.old io.new }
    ensures faulty { result ≢ 1 }
{
    match patched_rope(alloc, args, rope, patch) {
        Ok(made) => {
            let _written = io.remarks.write_all(made.remarks.as_bytes());
            status_of(OK, write_in_full(&mut io.out, made.file.as_slice()))
        }
        Err(fault) => fault.report_to(&mut io.err),
    }
}

/// Prints the sum of each bank of a rope, and the words that make wrong ones right.
pub fn run_sums<R, W: Write, E: Write, N: Write, P>(
    rt: &R,
    args: &SumsArgs,
    io: &mut Streams<W, E, N, P>,
) -> u8
where
    R: Files + AllocGlobal,
    ensures ended { EndsWith W.contents E.contents result io.old io.new }
    ensures faulty { result ≢ 1 }
{
    let mut rope = open_file(rt, &args.rope, ROPE_BYTES);
    let status = match sums_of_rope(rt.alloc(), args, &mut rope) {
        Ok(sums) => {
            rope.remark_wrong(rt.alloc(), sums.wrong, &mut io.remarks);
            status_of(OK, write_in_full(&mut io.out, sums.text.as_bytes()))
        }
        Err(fault) => fault.report_to(&mut io.err),
    };
    rope.remark_fault(rt.alloc(), &mut io.remarks);
    status
}

/// The sums of a rope's banks.
#[derive(Drop)]
struct RopeSums {
    /// A line for each bank with a word that is not +0.
    text: String,
    /// The number of words with wrong parity.
    wrong: usize,
}

fn sums_of_rope<R: Read>(
    alloc: Global,
    args: &SumsArgs,
    reader: &mut R,
) -> Result<RopeSums, AnalysisFault> {
    let file = read_banks(alloc, args.form, args.first_bank, reader)?;
    summed_banks(alloc, args.form, file.as_slice()).map_err(no_memory)
}

fn summed_banks(alloc: Global, form: RopeForm, file: &[u8]) -> Result<RopeSums, AllocError>
    requires { length file.now % 2 ≡ 0 }
{
    let store = damaged_store(alloc, form, file)?;
    let mut text = String::new(alloc);
    for bank in 0..FIXED_BANKS {
        if let Some(sum) = sum_in_bank(&store, bank) {
            push_sum_line(&mut text, sum)?;
        }
    }
    let wrong = match form {
        RopeForm::Classic => 0,
        RopeForm::Parity => {
            let words = file_words(alloc, file)?;
            bad_words(alloc, words.as_slice())?.len()
        }
    };
    Ok(RopeSums { text, wrong })
}

fn no_memory(_error: AllocError) -> AnalysisFault {
    AnalysisFault::Refused(LoadFault::Memory)
}
