//! Parses the arguments of `convert`, `repair`, `patch`, `sums` and `compare --words`.
use crate::bank_list::banks_of;
use crate::runs::other_form_of;
use crate::values::{push, refused};
use agc_cli::{ArgsFault, form_of, number_of, path_of, text_of};
use agc_dump::Radix;
use agc_mend::{BitChange, ParityBit, Reading};
use agc_store::RopeForm;
use agc_study_args::{Args, ConvertArgs, Moved, PatchArgs, RepairArgs, SumsArgs, WordsArgs};
use agc_word::read_octal;
use clap::ArgMatches;
use std::alloc::Global;

/// The most repairs of a word: it has sixteen bits.
const MOST_REPAIRS: u64 = 16;

pub(crate) fn convert_args(alloc: Global, given: &ArgMatches<'_>) -> Result<Args, ArgsFault> {
    Ok(Args::Convert(ConvertArgs {
        rope: path_of(alloc, given, "rope")?,
        before: reading_of(given.get_str("form"), given.get_flag("swap")),
        change: change_of(given.get_str("bits")),
        after: reading_of(given.get_str("to"), false),
        ignores_parity: given.get_flag("ignore-parity"),
        first_bank: first_bank_of(alloc, given)?,
        moved: moved_of(given.get_str("moved")),
        banks: banks_of(alloc, given, true)?,
        shows_all: given.get_flag("all"),
        from_text: radix_of(given.get_str("from-text")),
        to_text: radix_of(given.get_str("to-text")),
    }))
}

/// Returns the radix of a name.
fn radix_of(name: Option<&str>) -> Option<Radix> {
    match name {
        Some("octal") => Some(Radix::Octal),
        Some("hex") => Some(Radix::Hex),
        _ => None,
    }
}

/// Returns the change of bits of a name.
pub(crate) fn change_of(name: Option<&str>) -> BitChange {
    match name {
        Some("inverted") => BitChange::Inverted,
        Some("word-inverted") => BitChange::WordInverted,
        Some("reversed") => BitChange::Reversed,
        _ => BitChange::Nothing,
    }
}

/// Returns the move of a name.
fn moved_of(name: Option<&str>) -> Moved {
    match name {
        Some("on") => Moved::On,
        Some("back") => Moved::Back,
        _ => Moved::Nowhere,
    }
}

/// Returns the bank of `--first-bank`, if there is one.
pub(crate) fn first_bank_of(
    alloc: Global,
    given: &ArgMatches<'_>,
) -> Result<Option<u8>, ArgsFault> {
    let Some(text) = given.get_str("first-bank") else {
        return Ok(None);
    };
    let bank = bank_of_text(alloc, text, "--first-bank <BB>")?;
    Ok(Some(bank))
}

/// Returns the bank that is the value of an option.
pub(crate) fn bank_of_text(alloc: Global, text: &str, option: &str) -> Result<u8, ArgsFault> {
    match read_octal(2, text.as_bytes()) {
        Some(bank) if bank <= 0o43 => Ok(bank as u8),
        _ => {
            let why = "a bank is one or two octal digits, 00 to 43";
            Err(refused(alloc, text, option, why))
        }
    }
}

/// Returns the reading of a name.
pub(crate) fn reading_of(name: Option<&str>, is_swapped: bool) -> Reading {
    let (order, parity) = match name {
        Some("parity") => (RopeForm::Parity, ParityBit::Last),
        Some("plain") => (RopeForm::Parity, ParityBit::Unused),
        Some("classic-parity") => (RopeForm::Classic, ParityBit::Last),
        Some("parity-first") => (RopeForm::Parity, ParityBit::First),
        Some("classic-parity-first") => (RopeForm::Classic, ParityBit::First),
        _ => (RopeForm::Classic, ParityBit::Unused),
    };
    Reading {
        order,
        parity,
        is_swapped,
    }
}

pub(crate) fn repair_args(alloc: Global, given: &ArgMatches<'_>) -> Result<Args, ArgsFault> {
    Ok(Args::Repair(RepairArgs {
        rope: path_of(alloc, given, "rope")?,
        most: number_of(given, "most", MOST_REPAIRS).min(MOST_REPAIRS) as usize,
        has_parity: is_parity_form(alloc, given.get_str("form"))?,
        mends_columns: given.get_flag("stuck"),
        first_bank: first_bank_of(alloc, given)?,
    }))
}

/// Returns whether the command has `--form parity`; `repair` takes no other form.
fn is_parity_form(alloc: Global, form: Option<&str>) -> Result<bool, ArgsFault> {
    match form {
        None => Ok(false),
        Some("parity") => Ok(true),
        Some(form) => {
            let why = "this form has no parity bits";
            Err(refused(alloc, form, "--form <FORM>", why))
        }
    }
}

pub(crate) fn patch_args(alloc: Global, given: &ArgMatches<'_>) -> Result<Args, ArgsFault> {
    Ok(Args::Patch(PatchArgs {
        rope: path_of(alloc, given, "rope")?,
        patch: text_of(alloc, given, "patch")?,
        banks: banks_of(alloc, given, false)?,
        sums: summed_banks(alloc, given)?,
        form: form_of(given),
    }))
}

/// Parses the banks of `--sum`.
fn summed_banks(alloc: Global, given: &ArgMatches<'_>) -> Result<Vec<u8>, ArgsFault> {
    let mut banks = Vec::new(alloc);
    for text in given.get_strs("sum").unwrap_or(&[]) {
        push(&mut banks, bank_of_text(alloc, text, "--sum <BB>")?)?;
    }
    Ok(banks)
}

pub(crate) fn sums_args(alloc: Global, given: &ArgMatches<'_>) -> Result<Args, ArgsFault> {
    Ok(Args::Sums(SumsArgs {
        rope: path_of(alloc, given, "rope")?,
        form: form_of(given),
        first_bank: first_bank_of(alloc, given)?,
    }))
}

/// Parses the two ropes or sources of `compare --words`, if there are any.
pub(crate) fn words_args(alloc: Global, given: &ArgMatches<'_>) -> Result<Option<Args>, ArgsFault> {
    let Some([rope, other]) = given.get_strs("words") else {
        return Ok(None);
    };
    Ok(Some(Args::Words(WordsArgs {
        rope: String::from_str(alloc, rope)?,
        other: String::from_str(alloc, other)?,
        are_sources: given.get_flag("source"),
        form: form_of(given),
        other_form: other_form_of(given),
        ignores_parity: given.get_flag("ignore-parity"),
    })))
}
