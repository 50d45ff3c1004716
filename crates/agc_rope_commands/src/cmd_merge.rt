//! Runs `merge`: one rope from several dumps, and the reason of each word on which they differ.
ghost use Rattle.std.specs.Prelude.{◌≡◌, ◌≢◌, ◌≤◌, ◌<◌};
ghost use Rattle.agc_store.specs.Places.{fixed_words};
ghost use Rattle.agc_run_commands.specs.Ended.{EndsWith};

use crate::rope_bytes::{read_rope_bytes, refused};
use agc_io::{OK, ROPE_BYTES, status_of, write_in_full};
use agc_listing::push_rope_place;
use agc_load::LoadFault;
use agc_mend::{
    Choice, Decision, Dump, DumpWord, file_of_words, is_bad_parity, merge, words_at,
    words_of_choices,
};
use agc_run_commands::{AnalysisFault, Streams};
use agc_store::place::FIXED_WORDS;
use agc_study_args::{DumpArgs, MergeArgs, open_file, read_dump};
use agc_word::Narrow;
use std::alloc::{AllocError, Global};
use std::io::Write;
use std::rt::Files;

/// The names of the dumps, in their order.
static LETTERS: [&str; 16] = [
    "A", "B", "C", "D", "E", "F", "G", "H", "I", "J", "K", "L", "M", "N", "O", "P",
];

/// How many places were decided in each way.
#[derive(Clone, Copy)]
struct Tally {
    agreed: usize,
    parity: usize,
    sum: usize,
    majority: usize,
    undecided: usize,
}

/// Merges dumps of a rope, reports each word on which they differ, and writes the rope, unless words are undecided.
pub fn run_merge<R, W: Write, E: Write, N: Write, P>(
    rt: &R,
    args: &MergeArgs,
    io: &mut Streams<W, E, N, P>,
) -> u8
where
    R: Files + AllocGlobal,
    ensures ended { EndsWith W.contents E.contents result io.old io.new }
    ensures faulty { result ≢ 1 }
{
    match merged_file(rt, args, &mut io.remarks) {
        Ok(file) => status_of(OK, write_in_full(&mut io.out, file.as_slice())),
        Err(fault) => fault.report_to(&mut io.err),
    }
}

/// Returns the file of the merged rope, after a report.
fn merged_file<R, N: Write>(
    rt: &R,
    args: &MergeArgs,
    remarks: &mut N,
) -> Result<Vec<u8>, AnalysisFault>
where
    R: Files + AllocGlobal,
{
    let alloc = rt.alloc();
    let dumps = read_dumps(rt, args.dumps.as_slice(), remarks)?;
    let count = longest(dumps.as_slice());
    let choices = merge(alloc, dumps.as_slice(), count).map_err(no_memory)?;
    let undecided = remark_choices(alloc, dumps.as_slice(), choices.as_slice(), remarks)?;
    if undecided > 0 && !args.accepts {
        return Err(AnalysisFault::Undecided(undecided));
    }
    let words = words_of_choices(alloc, choices.as_slice()).map_err(no_memory)?;
    file_of_words(alloc, words.as_slice()).map_err(no_memory)
}

fn no_memory(_error: AllocError) -> AnalysisFault {
    AnalysisFault::Refused(LoadFault::Memory)
}

/// Reads the dumps in their order. A remark names the dump that cannot be read.
fn read_dumps<R, N: Write>(
    rt: &R,
    args: &[DumpArgs],
    remarks: &mut N,
) -> Result<Vec<Dump>, AnalysisFault>
where
    R: Files + AllocGlobal,
{
    let mut dumps = Vec::new(rt.alloc());
    for each in args {
        let mut file = open_file(rt, &each.file, ROPE_BYTES);
        let dump = match read_rope_bytes(rt.alloc(), &mut file) {
            Ok(bytes) => read_dump(rt.alloc(), each, bytes.as_slice()).map_err(refused),
            Err(fault) => Err(fault),
        };
        file.remark_fault(rt.alloc(), remarks);
        match dump {
            Ok(dump) => {
                remark_form(rt.alloc(), dumps.len(), &dump, remarks);
                push_dump(&mut dumps, dump)?
            }
            Err(fault) => {
                remark_dump(rt.alloc(), dumps.len(), remarks);
                return Err(fault);
            }
        }
    }
    Ok(dumps)
}

fn push_dump(dumps: &mut Vec<Dump>, dump: Dump) -> Result<(), AnalysisFault> {
    match dumps.push(dump) {
        Ok(()) => Ok(()),
        Err(_) => Err(AnalysisFault::Refused(LoadFault::Memory)),
    }
}

/// Reports a dump in which more than one word in ten has wrong parity.
fn remark_form<N: Write>(alloc: Global, index: usize, dump: &Dump, remarks: &mut N) {
    let mut wrong = 0usize;
    for word in &dump.words {
        if dump.has_parity && is_bad_parity(*word) {
            wrong = wrong.saturating_add(1);
        }
    }
    if wrong > dump.words.len() / 10 {
        if let Ok(text) = form_text(alloc, index) {
            let _written = remarks.write_all(text.as_bytes());
        }
    }
}

fn form_text(alloc: Global, index: usize) -> Result<String, AllocError> {
    let mut text = String::new(alloc);
    text.push_str("agc-study: in dump ")?;
    text.push_str(letter(index))?;
    text.push_str(" more than one word in ten has wrong parity; agc-study check names its form\n")?;
    Ok(text)
}

/// Returns the number of places that the longest dump has.
fn longest(dumps: &[Dump]) -> usize
    ensures { result ≤ fixed_words }
{
    let mut count = 0;
    for dump in dumps {
        count = dump.words.len().max(count);
    }
    count.min(FIXED_WORDS as usize)
}

/// Reports which dump is at fault.
fn remark_dump<N: Write>(alloc: Global, index: usize, remarks: &mut N) {
    if let Ok(text) = dump_text(alloc, index) {
        let _written = remarks.write_all(text.as_bytes());
    }
}

fn dump_text(alloc: Global, index: usize) -> Result<String, AllocError> {
    let mut text = String::new(alloc);
    text.push_str("agc-study: in dump ")?;
    text.push_str(letter(index))?;
    text.push_str("\n")?;
    Ok(text)
}

/// Returns the letter of a dump.
fn letter(index: usize) -> &'static str {
    LETTERS.get(index).copied().unwrap_or("?")
}

/// Reports each word on which the dumps differ, and how many places were decided in each way. Returns how many words are
/// undecided.
fn remark_choices<N: Write>(
    alloc: Global,
    dumps: &[Dump],
    choices: &[Choice],
    remarks: &mut N,
) -> Result<usize, AnalysisFault> {
    let mut tally = Tally {
        agreed: 0,
        parity: 0,
        sum: 0,
        majority: 0,
        undecided: 0,
    };
    for (place, choice) in choices.iter().enumerate() {
        count_choice(&mut tally, choice.decision);
        if place < FIXED_WORDS as usize && reason_of(choice.decision).is_some() {
            let line = choice_line(alloc, dumps, place, *choice).map_err(no_memory)?;
            let _written = remarks.write_all(line.as_bytes());
        }
    }
    let text = tally_text(alloc, dumps.len(), tally).map_err(no_memory)?;
    let _written = remarks.write_all(text.as_bytes());
    Ok(tally.undecided)
}

fn count_choice(tally: &mut Tally, decision: Decision) {
    let count = match decision {
        Decision::Nothing => return,
        Decision::Agreed => &mut tally.agreed,
        Decision::Parity => &mut tally.parity,
        Decision::Sum => &mut tally.sum,
        Decision::Majority => &mut tally.majority,
        Decision::Undecided => &mut tally.undecided,
    };
    *count = count.saturating_add(1);
}

/// Returns the name of the reason for a word on which the dumps differ.
fn reason_of(decision: Decision) -> Option<&'static str> {
    match decision {
        Decision::Nothing | Decision::Agreed => None,
        Decision::Parity => Some("parity"),
        Decision::Sum => Some("sum of the bank"),
        Decision::Majority => Some("majority"),
        Decision::Undecided => Some("undecided"),
    }
}

/// Returns the line of a word on which the dumps differ: place and word as a line of a patch, the reason, and what each
/// dump has. The line of an undecided word is a comment.
fn choice_line(
    alloc: Global,
    dumps: &[Dump],
    place: usize,
    choice: Choice,
) -> Result<String, AllocError>
    requires { place < fixed_words }
{
    let mut text = String::new(alloc);
    if choice.decision == Decision::Undecided {
        text.push_str("# ")?;
    }
    push_rope_place(&mut text, place)?;
    let word = Narrow::with_bits(choice.bits / 2);
    let reason = reason_of(choice.decision).unwrap_or("");
    write!(text, " {word} ({reason}):")?;
    let words = words_at(alloc, dumps, place)?;
    for word in words.as_slice() {
        push_dump_word(&mut text, *word)?;
    }
    text.push_str("\n")?;
    Ok(text)
}

/// Appends what a dump has at a place.
fn push_dump_word(text: &mut String, word: DumpWord) -> Result<(), AllocError> {
    text.push_str(" ")?;
    text.push_str(letter(word.dump))?;
    let narrow = Narrow::with_bits(word.bits / 2);
    write!(text, " {narrow}")?;
    if word.has_parity && is_bad_parity(word.bits) {
        text.push_str(" wrong parity")?;
    }
    text.push_str(";")
}

fn tally_text(alloc: Global, dumps: usize, tally: Tally) -> Result<String, AllocError> {
    let Tally {
        agreed,
        parity,
        sum,
        majority,
        undecided,
    } = tally;
    format!(in alloc;
        "agc-study: {dumps} dumps: {agreed} words agree; {parity} by parity, {sum} by the sum of the bank, {majority} by majority, {undecided} undecided\n"
    )
}
