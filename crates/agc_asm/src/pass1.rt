//! The first pass over a source: collects its names.
ghost use Rattle.std.specs.Prelude.{◌≡◌, ◌≢◌, ◌<◌, None, Ok, Err, IfOk, IfErr, IfSome, IsOk, OnOk, map, option_map};
ghost use Rattle.agc_vocabulary.specs.Body.{line_label, plain_line};
ghost use Rattle.agc_encode.specs.LocationCounter.{IsAt, first_counter};
ghost use Rattle.agc_asm.specs.FaultText.{later_fault};
ghost use Rattle.agc_vocabulary.specs.Name.{given_of, guessing, naming_of};
ghost use Rattle.agc_encode.specs.Interpretive.{spoken_words};
ghost use Rattle.agc_encode.specs.LineKind.{IsKind, counter_after, kind_of};
ghost use Rattle.agc_asm.specs.Source.{
  first_names,
  found_after,
  found_from,
  here_place,
  basic_labelled,
  checked,
  is_same,
  label_place,
  define_label,
  listed_labelled,
  names_in,
  naming_after,
  place_labelled,
  shape_labelled,
  spoken_labelled,
};
ghost use Rattle.agc_listing.specs.Location.{IsWithin};
ghost use Rattle.agc_listing.specs.Text.{parsed_by};
ghost use Rattle.agc_listing.specs.Line.{line_named};
ghost use Rattle.agc_asm.specs.declared.fault.AssemblyFault.TheVariants.{Memory};

use crate::channels::note_channels;
use crate::fault::AssemblyFault;
use agc_encode::{
    At, LineKind, LocationCounter, Role, SourceLine, counter_after, due_behind, kind_of,
    location_apart, location_beside, role_of,
};
use agc_interpretive::Pending;
use agc_listing::{LineFault, Location, has_other_byte, is_name, read_line};
use agc_store::place::ERASABLE_CELLS;
use agc_vocabulary::{Names, SourceFault, is_include};
use std::alloc::{AllocError, Global};

/// The result of a line in the first pass: the location of its name, and where the next line goes.
#[derive(Clone, Copy)]
pub(crate) struct Labelled {
    pub counter: LocationCounter,
    pub place: Option<Location>,
}

/// Returns the names of a source, or its first fault in the first pass.
#[tactic(auto, unfolding(crate::specs::Source::names_in, crate::specs::Source::names_from))]
pub(crate) fn read_names<'a>(
    alloc: Global,
    lines: &[SourceLine<'a>],
) -> Result<Names<'a>, AssemblyFault>
    ensures names { IfOk result (λ names. names_in (map (λ line. line.text.now) lines.now) ≡ Ok (naming_of names)) }
    ensures fault { IfErr result (λ why. why ≢ Memory
        → names_in (map (λ line. line.text.now) lines.now) ≡ Err (later_fault why)) }
{
    let mut names = first_names(alloc, lines)?;
    let mut counter = LocationCounter::new();
    let mut number = 0;
    let mut rest = lines;
    while let [line, after @ ..] = rest {
        number += 1;
        match define_label(&names, counter, line) {
            Ok(next) => {
                note_label(&mut names, line, next.place)?;
                counter = next.counter;
            }
            Err(fault) => return Err(AssemblyFault::Line(number, fault)),
        }
        rest = after;
    }
    Ok(names)
}

/// Returns the names before the first line: those that ten earlier readings of the source find, and the channels. With
/// each reading, one more reference to a later line can be followed.
#[tactic(auto, unfolding(crate::specs::Source::first_names))]
pub(crate) fn first_names<'a>(
    alloc: Global,
    lines: &[SourceLine<'a>],
) -> Result<Names<'a>, AllocError>
    ensures { IfOk result (λ names. naming_of names ≡ first_names (map (λ line. line.text.now) lines.now)) }
{
    let names = found_after(alloc, 10, lines)?;
    note_channels(names, lines)
}

#[tactic(auto, unfolding(crate::specs::Source::found_after))]
fn found_after<'a>(
    alloc: Global,
    times: u32,
    lines: &[SourceLine<'a>],
) -> Result<Names<'a>, AllocError>
    ensures { IfOk result (λ names. naming_of names
        ≡ guessing (found_after times (map (λ line. line.text.now) lines.now))) }
{
    if times == 0 {
        return Ok(Names::new(alloc));
    }
    let names = found_after(alloc, times - 1, lines)?;
    Ok(found_again(names, lines)?.again(alloc))
}

/// Adds to these names those of the lines of a source, passing over faulty lines.
#[tactic(auto, unfolding(crate::specs::Source::found_from))]
fn found_again<'a>(known: Names<'a>, lines: &[SourceLine<'a>]) -> Result<Names<'a>, AllocError>
    ensures { IfOk result (λ found. given_of found
        ≡ found_from (naming_of known.entry) first_counter (map (λ line. line.text.now) lines.now)) }
{
    let mut names = known;
    let mut counter = LocationCounter::new();
    let mut rest = lines;
    while let [line, after @ ..] = rest {
        match define_label(&names, counter, line) {
            Ok(next) => {
                note_label(&mut names, line, next.place)?;
                counter = next.counter;
            }
            Err(_) => {}
        }
        rest = after;
    }
    Ok(names)
}

/// Adds the name of a line, if it has a location.
pub(crate) fn note_label<'a>(
    names: &mut Names<'a>,
    line: &SourceLine<'a>,
    place: Option<Location>,
) -> Result<(), AllocError>
    ensures { OnOk result (naming_of names.new
        ≡ naming_after (naming_of names.old) (line_label (plain_line line.now.text.now)) place) }
{
    match (line.label, place) {
        (Some(label), Some(place)) => names.add(label, place),
        _ => Ok(()),
    }
}

/// Returns the location of a line's name, if it has one, and where the next line goes.
#[tactic(auto, unfolding(crate::specs::Source::define_label))]
pub(crate) fn define_label(
    names: &Names,
    counter: LocationCounter,
    line: &SourceLine,
) -> Result<Labelled, SourceFault>
    requires { IsAt counter.at }
    ensures labelled { result ≡ define_label (naming_of names.now) counter (plain_line line.now.text.now) }
    ensures range { IfOk result (λ next. IsAt next.counter.at) }
    ensures within { IfOk result (λ next. IfSome next.place IsWithin) }
{
    let role = role_of(&counter.due, line);
    if let Role::Basic = role {
        return basic_labelled(names, counter, line);
    }
    spoken_labelled(
        names,
        counter,
        line,
        due_behind(&counter.due, role, line.words),
    )
}

/// Reads an interpretive line, behind which these operands are due.
fn spoken_labelled(
    names: &Names,
    counter: LocationCounter,
    line: &SourceLine,
    due: Pending,
) -> Result<Labelled, SourceFault>
    requires { IsAt counter.at }
    ensures labelled { result ≡ spoken_labelled (naming_of names.now) counter (plain_line line.now.text.now) due }
    ensures range { IfOk result (λ next. IsAt next.counter.at) }
    ensures within { IfOk result (λ next. IfSome next.place IsWithin) }
{
    if has_other_byte(line.plain) {
        return Err(SourceFault::Listed(LineFault::NotText));
    }
    let next = counter_after(counter, LineKind::Word)?;
    let place = place_labelled(names, counter, LineKind::Word, line.label)?;
    Ok(Labelled {
        counter: next.due_there(due),
        place,
    })
}

/// Reads a line of the basic language or of a listing.
#[tactic(auto, unfolding(agc_vocabulary::specs::Body::spelled))]
fn basic_labelled(
    names: &Names,
    counter: LocationCounter,
    line: &SourceLine,
) -> Result<Labelled, SourceFault>
    requires { IsAt counter.at }
    ensures labelled { result ≡ basic_labelled (naming_of names.now) counter (plain_line line.now.text.now) }
    ensures range { IfOk result (λ next. IsAt next.counter.at) }
    ensures within { IfOk result (λ next. IfSome next.place IsWithin) }
{
    if line.is_listed {
        return listed_labelled(counter, line.plain);
    }
    if has_other_byte(line.plain) {
        return Err(SourceFault::Listed(LineFault::NotText));
    }
    if is_include(line.plain) {
        return Err(SourceFault::Include);
    }
    let Some(operation) = &line.operation else {
        return Err(SourceFault::UnknownOrder);
    };
    let kind = kind_of(names, operation)?;
    let next = counter_after(counter, kind)?;
    let place = place_labelled(names, counter, kind, line.label)?;
    Ok(Labelled {
        counter: next,
        place,
    })
}

/// Reads a listing line, which has no name.
fn listed_labelled(counter: LocationCounter, line: &[u8]) -> Result<Labelled, SourceFault>
    requires { IsAt counter.at }
    ensures labelled { result ≡ listed_labelled counter (line_named line.now) }
    ensures range { IfOk result (λ next. IsAt next.counter.at) }
{
    match read_line(line) {
        Ok(_) => Ok(Labelled {
            counter,
            place: None,
        }),
        Err(fault) => Err(SourceFault::Listed(fault)),
    }
}

/// Checks the name of a line of a kind, and returns its location.
fn place_labelled(
    names: &Names,
    counter: LocationCounter,
    kind: LineKind,
    label: Option<&[u8]>,
) -> Result<Option<Location>, SourceFault>
    requires at { IsAt counter.at }
    requires kind { IsKind kind }
    requires room { IsOk (counter_after counter kind) }
    ensures place { result ≡ place_labelled (naming_of names.now) counter kind
        (option_map (λ label. label.now) label.entry) }
    ensures within { IfOk result (λ place. IfSome place IsWithin) }
{
    let Some(label) = label else {
        return match kind {
            LineKind::StandsFor(_)
            | LineKind::StandsHere
            | LineKind::StandsBeside(_)
            | LineKind::StandsApart(_)
            | LineKind::Checks(_) => Err(SourceFault::MisplacedName),
            _ => Ok(None),
        };
    };
    if !is_name(label) {
        return Err(SourceFault::BadName);
    }
    if let LineKind::Checks(place) = kind {
        return checked(names.get(label), place);
    }
    if names.of_line(label).is_some() {
        return Err(SourceFault::NameTwice);
    }
    label_place(counter, kind)
}

/// Checks that a name is known, and is one for a location.
fn checked(known: Option<Location>, place: Location) -> Result<Option<Location>, SourceFault>
    ensures { result ≡ checked known place }
{
    match known {
        Some(known) if is_same(known, place) => Ok(None),
        _ => Err(SourceFault::CheckFailed),
    }
}

fn is_same(one: Location, other: Location) -> bool
    ensures { result ≡ is_same one other }
{
    match (one, other) {
        (Location::Erasable(one), Location::Erasable(other)) => one == other,
        (Location::Fixed(one), Location::Fixed(other)) => one == other,
        _ => false,
    }
}

/// Returns the location of a name on a line of a kind.
#[tactic(auto, using(agc_encode::proofs::Within::room_within, agc_encode::proofs::Within::cells_within))]
fn label_place(counter: LocationCounter, kind: LineKind) -> Result<Option<Location>, SourceFault>
    requires at { IsAt counter.at }
    requires kind { IsKind kind }
    requires room { IsOk (counter_after counter kind) }
    ensures place { result ≡ label_place counter kind }
    ensures within { IfOk result (λ place. IfSome place IsWithin) }
{
    match kind {
        LineKind::Word | LineKind::Pair | LineKind::Cells(_) => Ok(Some(counter.location())),
        LineKind::Range(first, _) => Ok(Some(Location::Erasable(first))),
        LineKind::StandsFor(place) => Ok(Some(place)),
        LineKind::StandsHere | LineKind::Ebank | LineKind::Sbank => here_place(counter),
        LineKind::StandsBeside(by) => Ok(Some(location_beside(counter.location(), by)?)),
        LineKind::StandsApart(from) => Ok(Some(location_apart(counter.location(), from)?)),
        LineKind::Moves(place) => Ok(Some(place)),
        LineKind::Nothing | LineKind::Checks(_) => Ok(None),
        _ => Err(SourceFault::MisplacedName),
    }
}

/// Returns the location of the next line, if there is room for a word or a cell.
fn here_place(counter: LocationCounter) -> Result<Option<Location>, SourceFault>
    requires { IsAt counter.at }
    ensures place { result ≡ here_place counter counter.at }
    ensures within { IfOk result (λ place. IfSome place IsWithin) }
{
    match counter.at {
        At::Bank(_) => Ok(Some(Location::Fixed(counter.room(1)?))),
        At::Cell(cell) if cell < u32::from(ERASABLE_CELLS) => Ok(Some(Location::Erasable(cell))),
        At::Cell(_) => Err(SourceFault::Full),
    }
}
