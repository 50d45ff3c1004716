//! Parses the banks of `--banks` and `--module`.
use crate::values::{mistake, push, refused};
use agc_cli::ArgsFault;
use agc_mend::NO_BANK;
use agc_word::read_octal;
use clap::ArgMatches;
use std::alloc::Global;

/// The banks of a module.
const MODULE_BANKS: u64 = 6;

/// What `--banks` takes.
const OF_BANKS: &str =
    "banks are octal, 00 to 43, each once, with - and commas, as 06-13,15; xx, for convert, is a bank without words; at most 36";

/// Returns the banks of `--banks` or `--module`, in their order; none without these options. `xx` is `NO_BANK`; it and a bank
/// that is named twice are refused if `is_free` does not hold.
pub(crate) fn banks_of(
    alloc: Global,
    given: &ArgMatches<'_>,
    is_free: bool,
) -> Result<Vec<u8>, ArgsFault> {
    let module = given.get_str("module");
    let Some(text) = given.get_str("banks") else {
        return match module {
            Some(module) => banks_of_module(alloc, module),
            None => Ok(Vec::new(alloc)),
        };
    };
    if module.is_some() {
        return Err(mistake(alloc, "error: give --banks or --module, not both\n"));
    }
    let mut banks = Vec::new(alloc);
    for part in text.split(",") {
        if !push_part(&mut banks, part)? {
            return Err(refused(alloc, text, "--banks <LIST>", OF_BANKS));
        }
    }
    if banks.len() > usize::from(NO_BANK) || !is_free && !are_different(banks.as_slice()) {
        return Err(refused(alloc, text, "--banks <LIST>", OF_BANKS));
    }
    Ok(banks)
}

/// Appends the banks of a part of a list, `BB`, `BB-BB` or `xx`. Returns whether it is one.
fn push_part(banks: &mut Vec<u8>, part: &str) -> Result<bool, ArgsFault> {
    if part == "xx" {
        push(banks, NO_BANK)?;
        return Ok(true);
    }
    let (first, last) = match part.split_once("-") {
        Some((first, last)) => (bank_of(first), bank_of(last)),
        None => (bank_of(part), bank_of(part)),
    };
    match (first, last) {
        (Some(first), Some(last)) if first <= last => {
            for bank in first..last.saturating_add(1) {
                push(banks, bank)?;
            }
            Ok(true)
        }
        _ => Ok(false),
    }
}

fn bank_of(text: &str) -> Option<u8> {
    match read_octal(2, text.as_bytes()) {
        Some(bank) if bank < u64::from(NO_BANK) => Some(bank as u8),
        _ => None,
    }
}

/// Returns whether no bank is named twice, and each is one.
fn are_different(banks: &[u8]) -> bool {
    (0..NO_BANK).all(|bank| banks.iter().filter(|named| **named == bank).count() < 2)
        && banks.iter().all(|bank| *bank < NO_BANK)
}

/// Returns the six banks of a module.
fn banks_of_module(alloc: Global, text: &str) -> Result<Vec<u8>, ArgsFault> {
    let mut banks = Vec::new(alloc);
    match read_octal(1, text.as_bytes()) {
        Some(module) if 1 <= module && module <= MODULE_BANKS => {
            let first = MODULE_BANKS * (module - 1);
            for bank in first..first + MODULE_BANKS {
                push(&mut banks, bank as u8)?;
            }
            Ok(banks)
        }
        _ => Err(refused(
            alloc,
            text,
            "--module <N>",
            "a module is 1 to 6: module 1 has banks 00-05",
        )),
    }
}
