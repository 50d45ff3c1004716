//! Parses the command line of any program that implements [`Args`].
ghost use Rattle.agc_cli.specs.ParseArgs.{IsNotText};

use crate::fault::ArgsFault;
use crate::mistakes::{fault_of, mistaken_word, without_tip};
use crate::version::answer_version;
use crate::words::{WordsFault, words_of};
use clap::{ArgMatches, Command};
use std::alloc::{AllocError, Global};
use std::rt::Env;

/// What `clap` says of a number with another letter than a digit, and how a number is written.
const NO_DIGIT: [&str; 2] = [
    "invalid digit found in string",
    "write a whole decimal number, such as 1000000",
];

/// What `clap` says of a number that does not fit, and the largest that does.
const TOO_LARGE: [&str; 2] = [
    "number too large to fit in target type",
    "write a whole decimal number, at most 18446744073709551615",
];

/// The arguments of a program.
pub trait Args: Sized {
    /// The program's name.
    const NAME: &'static str;

    /// Returns the program's command: its name, files and options.
    fn command<'a>(alloc: Global) -> Result<Command<'a>, AllocError>;

    /// Returns the arguments from the matches of the command. Fails on a mistake that `clap` cannot see.
    fn from_matches(alloc: Global, matches: &ArgMatches<'_>) -> Result<Self, ArgsFault>;

    /// Parses the words of a command line; the first is the program's own name.
    fn parse<'a>(alloc: Global, words: &'a [&'a str]) -> Result<Self, ArgsFault> {
        let command = Self::command(alloc)?;
        match command.try_get_matches_from(words) {
            Ok(matches) => Self::from_matches(alloc, &matches),
            Err(error) => Err(mistake_of(alloc, &error)),
        }
    }
}

/// Parses the command line of the process.
pub fn parse_env<A: Args, R: Env + AllocGlobal>(rt: &R) -> Result<A, ArgsFault> {
    let alloc = rt.alloc();
    let words = match words_of(rt) {
        Ok(words) => words,
        Err(WordsFault::NotText(number)) => return Err(not_text::<A>(alloc, number)),
        Err(WordsFault::Memory) => return Err(ArgsFault::Memory),
    };
    answer_version(alloc, A::NAME, words.as_slice())?;
    let words: Vec<&str> = words.iter().map(|word| word.as_str()).collect(alloc)?;
    A::parse(alloc, words.as_slice())
}

/// Returns the fault of a command line with a word that is not text. The message has the word's
/// number, counted from 1 after the program's own name, and the usage.
pub fn not_text<A: Args>(alloc: Global, number: usize) -> ArgsFault
    ensures { IsNotText number result }
{
    let Ok(usage) = usage::<A>(alloc) else {
        return ArgsFault::Memory;
    };
    match mistaken_word(alloc, number, usage.as_str()) {
        Ok(text) => ArgsFault::Command(text),
        Err(_) => ArgsFault::Memory,
    }
}

/// Returns the usage line of a program.
fn usage<A: Args>(alloc: Global) -> Result<String, AllocError> {
    A::command(alloc)?.render_usage()
}

/// Converts an error of `clap` into a fault. Its message says how to write a number, and does not offer to take an
/// unknown option for a file.
pub fn mistake_of(alloc: Global, error: &clap::Error) -> ArgsFault {
    match fault_of(alloc, error) {
        ArgsFault::Command(text) => match plain_text(alloc, text.as_str()) {
            Ok(text) => ArgsFault::Command(text),
            Err(_) => ArgsFault::Memory,
        },
        other => other,
    }
}

fn plain_text(alloc: Global, text: &str) -> Result<String, AllocError> {
    let text = text.replace(alloc, NO_DIGIT[0], NO_DIGIT[1])?;
    let text = text.as_str().replace(alloc, TOO_LARGE[0], TOO_LARGE[1])?;
    without_tip(alloc, text.as_str())
}
