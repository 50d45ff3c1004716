//! Lists words as code of the interpretive language: those that `--interpretive` names, itself or by a file, or those behind the
//! calls that `--follow` names.
use agc_cli::ArgsFault;
use agc_io::{InputFile, ReadError, TEXT_BYTES, read_limited};
use agc_listing::{Location, RangeFault};
use agc_load::LoadFault;
use agc_mend::damaged_store;
use agc_rope_commands::read_banks;
use agc_run_commands::AnalysisFault;
use agc_store::Store;
use agc_study_args::{ListArgs, RopeRead, read_any_rope};
use agc_symbols::{SymbolTable, resolve, resolve_range};
use agc_word::{next_line, next_word};
use agc_woven::{followed_lines, interpretive_lines};
use std::alloc::{AllocError, Global};
use std::fs;
use std::io::Read;
use std::rt::Files;

/// The option `--interpretive`, as messages name it.
const INTERPRETIVE: &str = "--interpretive <PLACES>";

/// Consecutive words of a rope: the places of the first and the last.
#[derive(Clone, Copy)]
pub(crate) struct Words {
    first: usize,
    last: usize,
}

/// What is printed as interpretive code.
#[derive(Drop)]
pub(crate) enum InterpretiveCode {
    Nothing,
    /// The words that `--interpretive` names.
    Words(Vec<Words>),
    /// The code behind each TC to an address, which `--follow` names.
    BehindCalls(u16),
}

/// Resolves `--follow` and `--interpretive`. A value that names none of what it should is a command-line error.
pub(crate) fn requested_code<R>(
    rt: &R,
    names: &Option<SymbolTable>,
    args: &ListArgs,
) -> Result<InterpretiveCode, ArgsFault>
where
    R: Files + AllocGlobal,
{
    if let Some(text) = &args.follow {
        return Ok(InterpretiveCode::BehindCalls(interpreter_named(
            rt.alloc(),
            names,
            text.as_str(),
        )?));
    }
    let words = words_named(rt, names, args.interpretive.as_slice())?;
    if words.is_empty() {
        Ok(InterpretiveCode::Nothing)
    } else {
        Ok(InterpretiveCode::Words(words))
    }
}

/// Parses the value of `--follow`: a place that a word TC names.
fn interpreter_named(
    alloc: Global,
    names: &Option<SymbolTable>,
    text: &str,
) -> Result<u16, ArgsFault> {
    let why = match resolve(names, text.as_bytes()) {
        Some(Location::Fixed(place)) => match u16::try_from(place) {
            Ok(address) if 0o4000 <= address && address < 0o10000 => return Ok(address),
            _ =>
                "TC reaches this bank only while it is switched in: name a place from 4000 to 7777",
        },
        Some(Location::Erasable(_)) =>
            "this is in erasable memory; a rope has the words of fixed memory",
        None => "no such place: octal 4100 or 02,4100; a name needs --names FILE",
    };
    Err(mistaken(alloc, "--follow <PLACE>", text, why))
}

/// Parses the values of `--interpretive`: places and ranges, and files of them. A value that names no words of a rope is a
/// command-line error.
fn words_named<R>(
    rt: &R,
    names: &Option<SymbolTable>,
    texts: &[String],
) -> Result<Vec<Words>, ArgsFault>
where
    R: Files + AllocGlobal,
{
    let alloc = rt.alloc();
    let mut several = Vec::new(alloc);
    for text in texts {
        let text = text.as_str();
        if let Some(path) = text.strip_prefix("@") {
            push_file(rt, names, path, &mut several)?;
            continue;
        }
        match range_named(names, text.as_bytes()) {
            Ok(words) => push_words(&mut several, words)?,
            Err(why) => return Err(mistaken(alloc, INTERPRETIVE, text, why)),
        }
    }
    Ok(several)
}

/// Adds the words that a file names.
fn push_file<R>(
    rt: &R,
    names: &Option<SymbolTable>,
    path: &str,
    several: &mut Vec<Words>,
) -> Result<(), ArgsFault>
where
    R: Files + AllocGlobal,
{
    let alloc = rt.alloc();
    let mut file = InputFile::new(fs::open(rt, path));
    let text = match read_limited(alloc, &mut file, TEXT_BYTES) {
        Ok(text) => text,
        Err(ReadError::Memory) => return Err(ArgsFault::Memory),
        Err(ReadError::CannotRead(_)) => {
            return Err(mistaken(alloc, INTERPRETIVE, path, "the file cannot be read"));
        }
    };
    let mut number = 0_u32;
    let mut rest = text.as_slice();
    while let Some((line, after)) = next_line(rest) {
        number = number.saturating_add(1);
        match line_named(names, line) {
            Ok(Some(words)) => push_words(several, words)?,
            Ok(None) => {}
            Err(why) => return Err(mistaken_line(alloc, path, number, why)),
        }
        rest = after;
    }
    Ok(())
}

/// Parses a line of such a file: a place or a range, and a comment behind `#`; or neither.
fn line_named(names: &Option<SymbolTable>, line: &[u8]) -> Result<Option<Words>, &'static str> {
    let Some((text, rest)) = next_word(line) else {
        return Ok(None);
    };
    if is_comment(text) {
        return Ok(None);
    }
    if let Some((second, _)) = next_word(rest) {
        if !is_comment(second) {
            return Err("a line has one place or range; # begins a comment");
        }
    }
    match range_named(names, text) {
        Ok(words) => Ok(Some(words)),
        Err(why) => Err(why),
    }
}

fn is_comment(word: &[u8]) -> bool {
    word.first() == Some(&b'#')
}

/// Parses a place or a range of a rope. Fails with what is wrong with it.
fn range_named(names: &Option<SymbolTable>, text: &[u8]) -> Result<Words, &'static str> {
    match resolve_range(names, text) {
        Ok(range) => match (range.first, range.last) {
            (Location::Fixed(first), Location::Fixed(last)) => Ok(Words {
                first: first as usize,
                last: last as usize,
            }),
            _ => Err("this is in erasable memory; a rope has the words of fixed memory"),
        },
        Err(RangeFault::BadRange) => Err("a range has two places of one bank, the lower one first"),
        Err(_) => Err(
            "no such place: octal 4100, 05,2071 or 05,2071-05,2107; a name needs --names FILE",
        ),
    }
}

fn push_words(several: &mut Vec<Words>, words: Words) -> Result<(), AllocError> {
    several.push(words)?;
    Ok(())
}

/// Returns the error for a line of a file that `--interpretive` names.
fn mistaken_line(alloc: Global, path: &str, number: u32, why: &str) -> ArgsFault {
    match format!(in alloc; "line {number}: {why}") {
        Ok(why) => mistaken(alloc, INTERPRETIVE, path, why.as_str()),
        Err(AllocError) => ArgsFault::Memory,
    }
}

pub(crate) fn mistaken(alloc: Global, option: &str, text: &str, why: &str) -> ArgsFault {
    match mistaken_text(alloc, option, text, why) {
        Ok(text) => ArgsFault::Command(text),
        Err(AllocError) => ArgsFault::Memory,
    }
}

fn mistaken_text(alloc: Global, option: &str, text: &str, why: &str) -> Result<String, AllocError> {
    format!(in alloc;
        "error: invalid value '{text}' for '{option}': {why}\n\nFor more information, try '--help'.\n"
    )
}

/// Returns the lines of this code in a rope.
pub(crate) fn interpretive_list<R: Read>(
    alloc: Global,
    args: &ListArgs,
    names: &Option<SymbolTable>,
    code: &InterpretiveCode,
    rope: &mut R,
) -> Result<String, AnalysisFault> {
    let store = store_of(alloc, args, rope)?;
    let lines = match code {
        InterpretiveCode::Nothing => Ok(String::new(alloc)),
        InterpretiveCode::Words(words) => lines_of(alloc, &store, names, words.as_slice()),
        InterpretiveCode::BehindCalls(address) => followed_lines(alloc, &store, names, *address),
    };
    match lines {
        Ok(text) => Ok(text),
        Err(_) => Err(AnalysisFault::Refused(LoadFault::Memory)),
    }
}

/// Reads a rope, or some modules of one.
fn store_of<R: Read>(alloc: Global, args: &ListArgs, rope: &mut R) -> Result<Store, AnalysisFault> {
    if args.first_bank.is_none() {
        let RopeRead { rope, .. } = read_any_rope(alloc, args.form, args.ignores_parity, rope)?;
        return Ok(Store::new(rope));
    }
    let file = read_banks(alloc, args.form, args.first_bank, rope)?;
    match damaged_store(alloc, args.form, file.as_slice()) {
        Ok(store) => Ok(store),
        Err(_) => Err(AnalysisFault::Refused(LoadFault::Memory)),
    }
}

fn lines_of(
    alloc: Global,
    store: &Store,
    names: &Option<SymbolTable>,
    words: &[Words],
) -> Result<String, AllocError> {
    let mut text = String::new(alloc);
    for span in words {
        let lines = interpretive_lines(alloc, store, names, span.first, span.last)?;
        text.push_str(lines.as_str())?;
    }
    Ok(text)
}
