//! Parses the values of options: numbers, and the repeatable filters of a trace.
use agc_asm::is_order;
use agc_cli::{ArgsFault, number_of};
use agc_listing_check::nearest_order;
use agc_study_args::NAME;
use agc_trace::Span;
use agc_word::read_octal;
use clap::ArgMatches;
use std::alloc::{AllocError, Global};

/// Parses `--from` and `--to`; the range must contain a cycle.
pub(crate) fn span_of(alloc: Global, given: &ArgMatches<'_>) -> Result<Span, ArgsFault> {
    let (from, to) = (
        number_of(given, "from", 0),
        number_of(given, "to", u64::MAX),
    );
    if to < from {
        let text = format!(in alloc; "{NAME}: empty range: --to {to} is before --from {from}\n")?;
        return Err(ArgsFault::Command(text));
    }
    Ok(Span { from, to })
}

/// Returns the values of an option that are parsed later, with the symbol file.
pub(crate) fn texts_of(
    alloc: Global,
    given: &ArgMatches<'_>,
    id: &str,
) -> Result<Vec<String>, AllocError> {
    let mut several = Vec::new(alloc);
    for text in given.get_strs(id).unwrap_or(&[]) {
        push(&mut several, String::from_str(alloc, text)?)?;
    }
    Ok(several)
}

/// Why a text is no channel.
pub(crate) const NO_CHANNEL: &str = "a channel is one to three octal digits, 0 to 777";

/// Parses the values of `--order`.
pub(crate) fn orders_of(alloc: Global, given: &ArgMatches<'_>) -> Result<Vec<String>, ArgsFault> {
    let mut several = Vec::new(alloc);
    for text in given.get_strs("order").unwrap_or(&[]) {
        if !is_order(text.as_bytes()) {
            return Err(no_order(alloc, text));
        }
        push(&mut several, String::from_str(alloc, text)?)?;
    }
    Ok(several)
}

/// Returns the error for a text that is no mnemonic, with the nearest one.
fn no_order(alloc: Global, text: &str) -> ArgsFault {
    match no_order_text(alloc, text) {
        Ok(why) => refused(alloc, text, "--order <NAME>", why.as_str()),
        Err(AllocError) => ArgsFault::Memory,
    }
}

fn no_order_text(alloc: Global, text: &str) -> Result<String, AllocError> {
    let near = nearest_order(alloc, text.as_bytes())?;
    format!(in alloc; "no such order{near}")
}

/// Parses the values of `--channel` that are numbers.
pub(crate) fn channels_of(alloc: Global, given: &ArgMatches<'_>) -> Result<Vec<u16>, AllocError> {
    let mut several = Vec::new(alloc);
    for text in given.get_strs("channel").unwrap_or(&[]) {
        if let Some(channel) = read_octal(3, text.as_bytes()) {
            push(&mut several, channel as u16)?;
        }
    }
    Ok(several)
}

/// Returns the values of `--channel` that are no numbers; they are parsed later, with the symbol file.
pub(crate) fn channel_names_of(
    alloc: Global,
    given: &ArgMatches<'_>,
) -> Result<Vec<String>, AllocError> {
    let mut several = Vec::new(alloc);
    for text in given.get_strs("channel").unwrap_or(&[]) {
        if read_octal(3, text.as_bytes()).is_none() {
            push(&mut several, String::from_str(alloc, text)?)?;
        }
    }
    Ok(several)
}

/// Appends a value to a list.
pub(crate) fn push<T: Drop>(several: &mut Vec<T>, value: T) -> Result<(), AllocError> {
    several.push(value)?;
    Ok(())
}

/// Returns a command-line error with this text.
pub(crate) fn mistake(alloc: Global, text: &str) -> ArgsFault {
    match String::from_str(alloc, text) {
        Ok(text) => ArgsFault::Command(text),
        Err(_) => ArgsFault::Memory,
    }
}

/// Returns the error for a rejected value of an option.
pub(crate) fn refused(alloc: Global, text: &str, option: &str, why: &str) -> ArgsFault {
    match refused_text(alloc, text, option, why) {
        Ok(text) => ArgsFault::Command(text),
        Err(AllocError) => ArgsFault::Memory,
    }
}

fn refused_text(alloc: Global, text: &str, option: &str, why: &str) -> Result<String, AllocError> {
    format!(in alloc;
        "error: invalid value '{text}' for '{option}': {why}\n\nFor more information, try '--help'.\n"
    )
}
