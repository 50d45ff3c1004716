//! Resolves the locations, cells and channels that `trace` selects with `--at`, `--cell` and `--channel`.
ghost use Rattle.std.specs.Prelude.{◌≡◌, ◌∷◌, ◌++◌, [], IfErr, IfOk, Ok, OnOk, is_some, string_bytes};
ghost use Rattle.agc_symbols.specs.Channels.{name_of_channel};
ghost use Rattle.agc_symbols.specs.Resolve.{resolve_range};
ghost use Rattle.agc_study_args.specs.Joined.{joined};
ghost use Rattle.agc_study_args.specs.Locations.{
  AddsChannels,
  AreResolved,
  AreUnresolved,
  IsMistake,
  IsRejected,
  IsUnnamed,
  all_resolved,
  goes_by,
  is_channel,
  is_place_name,
  is_text,
  no_place_text,
  option_name,
  resolved_by,
  unnamed_text,
  unresolved_text,
  why_no_channel,
  why_text,
};

use crate::args::TraceArgs;
use crate::joined::joined;
use crate::until::resolve_until;
use agc_cli::ArgsFault;
use agc_listing::{LocationRange, RangeFault, location_named};
use agc_symbols::{ChannelTable, SymbolTable, resolve, resolve_cells, resolve_range};
use std::alloc::{AllocError, Global};

/// An option of `trace` that selects by location.
#[derive(Clone, Copy, Debug, PartialEq, Eq)]
pub enum LocationOption {
    /// `--at`: orders at locations.
    At,
    /// `--cell`: changes of cells.
    Cell,
}

impl LocationOption {
    ghost use Rattle.std.specs.Prelude.{◌≡◌};

    /// Returns the option as command-line errors name it.
    fn name(self) -> &'static str
        ensures { result.now ≡ option_name self }
    {
        match self {
            LocationOption::At => "--at <PLACES>",
            LocationOption::Cell => "--cell <PLACES>",
        }
    }

    /// Resolves a value of this option.
    fn resolve(self, names: &Option<SymbolTable>, text: &[u8]) -> Result<LocationRange, RangeFault>
        ensures { result ≡ resolved_by self names.now text.now }
    {
        match self {
            LocationOption::At => resolve_range(names, text),
            LocationOption::Cell => resolve_cells(names, text),
        }
    }
}

/// Resolves the values of `--at`, `--cell` and `--channel` with these symbols and adds them to the selection; replaces a
/// symbolic `--until`. A value that names no location, or no channel, is a command-line error.
pub fn resolve_locations(
    alloc: Global,
    names: &Option<SymbolTable>,
    channels: &ChannelTable,
    args: &mut TraceArgs,
) -> Result<(), ArgsFault>
    ensures resolved { IfOk result (λ _. AreResolved names.now channels.now args.old args.new) }
    ensures unresolved { IfErr result (AreUnresolved names.now channels.now args.old) }
{
    let (at, cell) = (args.at.as_slice(), args.cell.as_slice());
    let channel = args.channel.as_slice();
    let selection = &mut args.selection;
    let places = &mut selection.places;
    push_resolved(alloc, LocationOption::At, names, channels, at, places)?;
    let cells = &mut selection.cells;
    push_resolved(alloc, LocationOption::Cell, names, channels, cell, cells)?;
    push_channels(alloc, names, channels, channel, &mut selection.channels)?;
    resolve_until(alloc, names, &mut args.options.until)?;
    Ok(())
}

/// Resolves the only value of `--at` with these symbols. A value that names no location is a command-line error.
pub fn resolve_at(
    alloc: Global,
    names: &Option<SymbolTable>,
    text: &str,
) -> Result<LocationRange, ArgsFault>
    ensures { IfOk result (λ places. resolve_range names.now (joined text.now) ≡ Ok places) }
{
    let option = LocationOption::At;
    let whole = joined(alloc, text.as_bytes())?;
    match option.resolve(names, whole.as_slice()) {
        Ok(places) => Ok(places),
        Err(why) => Err(unresolved(alloc, option, names, &ChannelTable::new(alloc), text, why)),
    }
}

/// Resolves the values of an option and appends them.
fn push_resolved(
    alloc: Global,
    option: LocationOption,
    names: &Option<SymbolTable>,
    channels: &ChannelTable,
    texts: &[String],
    several: &mut Vec<LocationRange>,
) -> Result<(), ArgsFault>
    ensures resolved { IfOk result (λ _. all_resolved option names.now channels.now several.old.items texts.now
        ≡ Ok several.new.items) }
    ensures unresolved { IfErr result
        (IsRejected (all_resolved option names.now channels.now several.old.items texts.now)) }
{
    for text in texts {
        let whole = joined(alloc, text.as_bytes())?;
        match option.resolve(names, whole.as_slice()) {
            Ok(places) => push_places(several, places)?,
            Err(why) => {
                return Err(unresolved(alloc, option, names, channels, text.as_str(), why));
            }
        }
    }
    Ok(())
}

fn push_places(several: &mut Vec<LocationRange>, places: LocationRange) -> Result<(), AllocError>
    ensures { OnOk result (several.new.items ≡ several.old.items ++ places ∷ []) }
{
    several.push(places)?;
    Ok(())
}

/// Appends the channels that texts name.
fn push_channels(
    alloc: Global,
    names: &Option<SymbolTable>,
    channels: &ChannelTable,
    texts: &[String],
    several: &mut Vec<u16>,
) -> Result<(), ArgsFault>
    ensures named { OnOk result (AddsChannels several.old.items several.new.items) }
    ensures unnamed { IfErr result (IsUnnamed names.now) }
{
    let mut named = Vec::new(alloc);
    for text in texts {
        match channels.channel(text.as_bytes()) {
            Some(channel) => push_channel(&mut named, channel)?,
            None => return Err(unnamed(alloc, names, text.as_str())),
        }
    }
    several.extend_from_slice(named.as_slice())?;
    Ok(())
}

fn push_channel(several: &mut Vec<u16>, channel: u16) -> Result<(), AllocError> {
    several.push(channel)?;
    Ok(())
}

/// Returns the error for a text that names no channel.
fn unnamed(alloc: Global, names: &Option<SymbolTable>, text: &str) -> ArgsFault
    ensures { IsMistake (unnamed_text names.now text.now) result }
{
    match unnamed_text(alloc, names, text) {
        Ok(text) => ArgsFault::Command(text),
        Err(AllocError) => ArgsFault::Memory,
    }
}

#[tactic(auto, unfolding(crate::specs::Locations::unnamed_text))]
fn unnamed_text(
    alloc: Global,
    names: &Option<SymbolTable>,
    text: &str,
) -> Result<String, AllocError>
    ensures { IfOk result (λ line. string_bytes line ≡ unnamed_text names.now text.now) }
{
    let why = why_no_channel(is_place_name(names, text.as_bytes()));
    format!(in alloc;
        "error: invalid value '{text}' for '--channel <CCC>': {why}\n\nFor more information, try '--help'.\n"
    )
}

/// Returns whether a text is the name of a place, and not its number.
fn is_place_name(names: &Option<SymbolTable>, text: &[u8]) -> bool
    ensures { result ≡ is_place_name names.now text.now }
{
    location_named(text).is_none() && resolve(names, text).is_some()
}

fn why_no_channel(is_place: bool) -> &'static str
    ensures { result.now ≡ why_no_channel is_place }
{
    if is_place {
        "this names a place: see --cell and --at"
    } else {
        "a channel is one to three octal digits, 0 to 777, or a name of --names"
    }
}

/// Returns the error for a value that names no location.
fn unresolved(
    alloc: Global,
    option: LocationOption,
    names: &Option<SymbolTable>,
    channels: &ChannelTable,
    text: &str,
    why: RangeFault,
) -> ArgsFault
    ensures { IsMistake (unresolved_text option names.now channels.now text.now why) result }
{
    match unresolved_text(alloc, option, names, channels, text, why) {
        Ok(text) => ArgsFault::Command(text),
        Err(AllocError) => ArgsFault::Memory,
    }
}

#[tactic(auto, unfolding(crate::specs::Locations::unresolved_text))]
fn unresolved_text(
    alloc: Global,
    option: LocationOption,
    names: &Option<SymbolTable>,
    channels: &ChannelTable,
    text: &str,
    why: RangeFault,
) -> Result<String, AllocError>
    ensures { IfOk result
        (λ line. string_bytes line ≡ unresolved_text option names.now channels.now text.now why) }
{
    let named = is_channel(channels, text.as_bytes());
    let (name, why) = (option.name(), why_text(has_names(names), named, why));
    format!(in alloc;
        "error: invalid value '{text}' for '{name}': {why}\n\nFor more information, try '--help'.\n"
    )
}

fn has_names(names: &Option<SymbolTable>) -> bool
    ensures { result ≡ is_some names.now }
{
    names.is_some()
}

/// Returns whether a text is the name of a channel.
#[tactic(auto, unfolding(crate::specs::Locations::is_channel))]
fn is_channel(channels: &ChannelTable, text: &[u8]) -> bool
    ensures { result ≡ is_channel channels.now text.now }
{
    (0..0o1000).any(|channel| goes_by(channels, text, channel))
}

fn goes_by(channels: &ChannelTable, text: &[u8], channel: u16) -> bool
    ensures { result ≡ goes_by channels.now text.now channel }
{
    match channels.name(channel) {
        Some(name) => name.as_bytes() == text,
        None => false,
    }
}

/// Returns what is wrong with a value, and what is right; it depends on whether there are symbols, and whether it is the
/// name of a channel.
fn why_text(has_names: bool, is_channel: bool, why: RangeFault) -> &'static str
    ensures { result.now ≡ why_text has_names is_channel why }
{
    match why {
        RangeFault::BadPlace => no_place_text(has_names, is_channel),
        RangeFault::BadRange => "a range has two places of one bank, the lower one first",
        RangeFault::NotErasable => {
            "this is in fixed memory; cells are 0000 to 1377, or E0,1400 to E7,1777"
        }
    }
}

fn no_place_text(has_names: bool, is_channel: bool) -> &'static str
    ensures { result.now ≡ no_place_text has_names is_channel }
{
    if is_channel {
        "this names a channel: see --channel"
    } else if has_names {
        "no such place, and no such name in the file of --names"
    } else {
        "no such place: octal 4100, 05,2071, E3,1400 or 4100-4177; a name needs --names FILE"
    }
}
