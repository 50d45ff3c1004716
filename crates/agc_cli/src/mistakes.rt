//! The messages for a command line that cannot be used.
ghost use Rattle.std.specs.Prelude.{◌≡◌, IfOk, string_bytes};
ghost use Rattle.clap.specs.Words.{kind_of};
ghost use Rattle.agc_cli.specs.Mistakes.{Outputs, not_text_reported};

use crate::fault::ArgsFault;
use clap::error::ErrorKind;
use std::alloc::{AllocError, Global};

/// The start of a tip that misleads here: no file of a run begins with two dashes.
const TIP: &str = "  tip: to pass ";

/// Returns the message for a word that is not text: its number, counted from 1 after the program's own name, and the
/// usage.
pub fn mistaken_word(alloc: Global, number: usize, usage: &str) -> Result<String, AllocError>
    ensures { IfOk result (λ text. string_bytes text ≡ not_text_reported number usage.now) }
{
    let mut text = format!(in alloc; "error: word {number} is not text\n\n")?;
    text.push_str(usage)?;
    text.push_str("\n\nFor more information, try '--help'.\n")?;
    Ok(text)
}

/// Converts an error of `clap` into a fault: a request for help, out of memory, or else a mistake in the words. If
/// memory runs out for its text, the fault is `Memory`.
pub fn fault_of(alloc: Global, error: &clap::Error) -> ArgsFault
    ensures { Outputs (kind_of error.now) result }
{
    if error.kind() == ErrorKind::OutOfMemory {
        return ArgsFault::Memory;
    }
    let Ok(text) = error.to_string(alloc) else {
        return ArgsFault::Memory;
    };
    if error.kind() == ErrorKind::DisplayHelp {
        ArgsFault::Help(text)
    } else {
        ArgsFault::Command(text)
    }
}

/// Returns a message without the tip to pass an unknown option as a file, and without the empty line above a tip alone.
pub(crate) fn without_tip(alloc: Global, text: &str) -> Result<String, AllocError> {
    let mut kept = String::new(alloc);
    let mut was_empty = false;
    for line in text.split('\n') {
        if line.starts_with(TIP) || (was_empty && line.is_empty()) {
            continue;
        }
        if !kept.is_empty() {
            kept.push('\n')?;
        }
        kept.push_str(line)?;
        was_empty = line.is_empty();
    }
    Ok(kept)
}
