//! Parses the arguments of `merge`: dumps, each read as the options before it say.
use crate::restore::{bank_of_text, change_of, reading_of};
use crate::values::{mistake, push};
use agc_cli::ArgsFault;
use agc_mend::Reading;
use agc_study_args::{Args, DumpArgs, MOST_DUMPS, MergeArgs};
use clap::ArgMatches;
use std::alloc::Global;

/// The options that apply to the dumps after them.
static DUMP_OPTIONS: [&str; 3] = ["form", "bits", "first-bank"];

pub(crate) fn merge_args(alloc: Global, given: &ArgMatches<'_>) -> Result<Args, ArgsFault> {
    let mut dumps = Vec::new(alloc);
    let names = given.get_strs("dump").unwrap_or(&[]);
    let places = given.indices_of("dump").unwrap_or(&[]);
    for (name, at) in names.iter().zip(places.iter()) {
        let dump = DumpArgs {
            file: String::from_str(alloc, name)?,
            before: dump_reading(last_before(given, "form", *at)),
            change: change_of(last_before(given, "bits", *at)),
            first_bank: first_bank_before(alloc, given, *at)?,
        };
        push(&mut dumps, dump)?;
    }
    if dumps.len() < 2 || dumps.len() > MOST_DUMPS {
        return Err(mistake(alloc, "error: merge takes two to sixteen dumps\n"));
    }
    if let Some(option) = after_dumps(given, places) {
        let text = format!(in alloc;
            "error: --{option} applies to the dumps after it, and none follows\n"
        )?;
        return Err(ArgsFault::Command(text));
    }
    Ok(Args::Merge(MergeArgs {
        dumps,
        accepts: given.get_flag("accept"),
    }))
}

/// Returns an option that is written after the last dump, if there is one.
fn after_dumps(given: &ArgMatches<'_>, dumps: &[usize]) -> Option<&'static str> {
    let last = dumps.last()?;
    DUMP_OPTIONS.iter().copied().find(|id| {
        let places = given.indices_of(id).unwrap_or(&[]);
        places.iter().any(|place| *place > *last)
    })
}

/// Returns the last value of an option among the words before a place.
fn last_before<'a>(given: &ArgMatches<'a>, id: &str, at: usize) -> Option<&'a str> {
    let mut last = None;
    let values = given.get_strs(id).unwrap_or(&[]);
    let places = given.indices_of(id).unwrap_or(&[]);
    for (value, place) in values.iter().zip(places.iter()) {
        if *place < at {
            last = Some(*value);
        }
    }
    last
}

/// Returns the reading of a name, of which the end may say that the bytes are exchanged.
fn dump_reading(name: Option<&str>) -> Reading {
    match name {
        Some("classic-swapped") => reading_of(None, true),
        Some("parity-swapped") => reading_of(Some("parity"), true),
        Some("plain-swapped") => reading_of(Some("plain"), true),
        Some("classic-parity-swapped") => reading_of(Some("classic-parity"), true),
        Some("parity-first-swapped") => reading_of(Some("parity-first"), true),
        Some("classic-parity-first-swapped") => reading_of(Some("classic-parity-first"), true),
        name => reading_of(name, false),
    }
}

/// Returns the first bank of a dump, if it is some modules of a rope; bank 00 is the first one of any dump.
fn first_bank_before(
    alloc: Global,
    given: &ArgMatches<'_>,
    at: usize,
) -> Result<Option<u8>, ArgsFault> {
    let Some(text) = last_before(given, "first-bank", at) else {
        return Ok(None);
    };
    let bank = bank_of_text(alloc, text, "--first-bank <BB>")?;
    Ok(if bank == 0 { None } else { Some(bank) })
}
