//! Parses the options `--by` and `--brief` of `compare`, and explains two mistakes in its options.
use crate::values::{NO_CHANNEL, mistake, refused};
use agc_cli::ArgsFault;
use agc_study_args::ObservedArgs;
use agc_trace::DiffBy;
use agc_word::read_octal;
use clap::ArgMatches;
use std::alloc::Global;

/// The option as command-line errors name it.
const BY: &str = "--by <WHAT>";

/// How `--words` is written.
const OPTION_AMONG_ROPES: &str =
    "error: an option is among the ropes of --words: write it before --words or after both ropes\n";

/// How a channel is written.
const CHANNEL_FORM: &str = "write --by channel=010, with the channel's octal number";

/// Parses `--by` and `--brief`.
pub(crate) fn shown_of(
    alloc: Global,
    given: &ArgMatches<'_>,
) -> Result<Option<ObservedArgs>, ArgsFault> {
    let Some(text) = given.get_str("by") else {
        return Ok(None);
    };
    match what_of(text) {
        Ok(what) => Ok(Some(ObservedArgs {
            what,
            is_brief: given.get_flag("brief"),
        })),
        Err(why) => Err(refused(alloc, text, BY, why)),
    }
}

/// Parses the value of `--by`, or returns why it is rejected.
fn what_of(text: &str) -> Result<DiffBy, &'static str> {
    match text {
        "writes" => Ok(DiffBy::Writes),
        "panels" => Ok(DiffBy::Panels),
        "channel" => Err(CHANNEL_FORM),
        _ => match text.strip_prefix("channel=") {
            Some(number) => channel_of(number),
            None => Err("compare by writes, panels or channel=CCC"),
        },
    }
}

/// Parses a channel number of one to three octal digits.
fn channel_of(number: &str) -> Result<DiffBy, &'static str> {
    match read_octal(3, number.as_bytes()) {
        Some(channel) => Ok(DiffBy::Channel(channel as u16)),
        None => Err(NO_CHANNEL),
    }
}

/// Replaces the error for two mistakes in `compare` by one that says how to write it: `--by channel 010`, in which the
/// number is a word of its own, and an option between `--words` and its ropes.
pub(crate) fn with_right_form(alloc: Global, words: &[&str], fault: ArgsFault) -> ArgsFault {
    match (fault, words) {
        (ArgsFault::Command(_), [_program, "compare", ..]) if separates_channel(words) => {
            refused(alloc, "channel", BY, CHANNEL_FORM)
        }
        (ArgsFault::Command(_), [_program, "compare", ..]) if separates_ropes(words) => {
            mistake(alloc, OPTION_AMONG_ROPES)
        }
        (fault, _) => fault,
    }
}

/// Returns whether `channel` is the whole value of `--by`.
fn separates_channel(words: &[&str]) -> bool {
    let mut last = "";
    for word in words {
        if *word == "--by=channel" || (last == "--by" && *word == "channel") {
            return true;
        }
        last = word;
    }
    false
}

/// Returns whether an option is among the two words after `--words`.
fn separates_ropes(words: &[&str]) -> bool {
    let mut awaited = 0u8;
    for word in words {
        if awaited > 0 && word.strip_prefix("--").is_some() {
            return true;
        }
        awaited = match *word {
            "--words" => 2,
            _ => awaited.saturating_sub(1),
        };
    }
    false
}
