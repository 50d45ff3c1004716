//! Parses a line of a symbol file: a place and its name, a channel and its name, or nothing.
ghost use Rattle.std.specs.Prelude.{◌≡◌, ◌<◌, option_map, IfSome, Some, None, if◌then◌else◌};
ghost use Rattle.agc_symbols.specs.Channels.{channel_on, channel_parsed};
ghost use Rattle.agc_symbols.specs.Symbols.{as_named, channel_named, is_place_name, line_named};
ghost use Rattle.agc_symbols.specs.Symbols.{name_after, name_after_channel};
ghost use Rattle.agc_listing.specs.Text.{parsed_by};

use crate::fault::NameFault;
use agc_listing::{Location, has_other_byte, is_name, location_named, next_parsed};
use agc_word::read_octal;

/// A place and its name, as read from a line.
#[derive(Clone, Copy)]
pub(crate) struct Parsed<'a> {
    pub place: Location,
    pub name: &'a str,
}

/// A channel and its name, as read from a line.
#[derive(Clone, Copy)]
pub(crate) struct ParsedChannel<'a> {
    pub channel: u16,
    pub name: &'a str,
}

/// Parses a line for its place, or returns its first fault. The line of a channel has no place.
#[tactic(auto, unfolding(crate::specs::Symbols::line_named))]
pub(crate) fn read_line(line: &[u8]) -> Result<Option<Parsed<'_>>, NameFault>
    ensures { as_named result ≡ line_named line.now }
{
    if has_other_byte(line) {
        return Err(NameFault::NotText);
    }
    let Some((first, rest)) = next_parsed(line) else {
        return Ok(None);
    };
    match location_named(first) {
        Some(place) => read_name(place, rest),
        None => no_place(first, rest),
    }
}

/// Checks the line of a channel: its name must follow, and no further word.
fn no_place<'a>(first: &[u8], rest: &'a [u8]) -> Result<Option<Parsed<'a>>, NameFault>
    ensures { as_named result ≡ name_after_channel (channel_named first.now) (parsed_by rest.now) }
{
    if channel_named(first).is_none() {
        return Err(NameFault::BadPlace);
    }
    let Some((word, more)) = next_parsed(rest) else {
        return Err(NameFault::BadName);
    };
    if !is_place_name(word) {
        return Err(NameFault::BadName);
    }
    match next_parsed(more) {
        Some(_) => Err(NameFault::MoreWords),
        None => Ok(None),
    }
}

/// Parses a channel: `C` and one to three octal digits.
#[tactic(auto, unfolding(crate::specs::Symbols::channel_named))]
fn channel_named(word: &[u8]) -> Option<u64>
    ensures channel { result ≡ channel_named word.now }
    ensures range { IfSome result (λ channel. channel < 512) }
{
    match word {
        [b'C', digits @ ..] => read_octal(3, digits),
        _ => None,
    }
}

/// Returns the channel of a line and its name, if it is such a line.
#[tactic(auto, unfolding(crate::specs::Channels::channel_on))]
pub(crate) fn channel_on(line: &[u8]) -> Option<ParsedChannel<'_>>
    ensures { option_map channel_parsed result ≡ channel_on line.now }
{
    let (first, rest) = next_parsed(line)?;
    let channel = channel_named(first)?;
    let (word, _) = next_parsed(rest)?;
    let name = name_in(word)?;
    Some(ParsedChannel {
        channel: channel as u16,
        name,
    })
}

/// Parses the name after a place.
fn read_name(place: Location, rest: &[u8]) -> Result<Option<Parsed<'_>>, NameFault>
    ensures { as_named result ≡ name_after place (parsed_by rest.now) }
{
    let Some((word, more)) = next_parsed(rest) else {
        return Err(NameFault::BadName);
    };
    let Some(name) = name_in(word) else {
        return Err(NameFault::BadName);
    };
    match next_parsed(more) {
        Some(_) => Err(NameFault::MoreWords),
        None => Ok(Some(Parsed { place, name })),
    }
}

/// Returns a word as text if it is a name.
fn name_in(word: &[u8]) -> Option<&str>
    ensures { option_map (λ name. name.now) result
        ≡ (if is_place_name word.now then Some word.now else None) }
{
    if !is_place_name(word) {
        return None;
    }
    match str::from_utf8(word) {
        Ok(name) => Some(name),
        Err(_) => None,
    }
}

/// Returns whether a word is a name of printable bytes.
fn is_place_name(word: &[u8]) -> bool
    ensures { result ≡ is_place_name word.now }
{
    is_name(word) && !has_other_byte(word)
}
