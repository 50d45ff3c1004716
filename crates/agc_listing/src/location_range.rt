//! Ranges of locations: one place or cell, or all between two of the same bank.
ghost use Rattle.std.specs.Prelude.{◌≡◌, ◌<◌, IfSome, Ok, length, position};
ghost use Rattle.agc_listing.specs.Ranges.{is_dash, is_stretch, one_place, only_cells, two_places};

use crate::location::{Location, location_named};
use agc_store::place::{ERASABLE_BANK_SIZE, FIXED_BANK_SIZE};

/// The locations from a first one to a last one of the same bank, both included.
#[derive(Clone, Copy, Debug, PartialEq, Eq)]
pub struct LocationRange {
    pub first: Location,
    pub last: Location,
}

/// Why a text names no range.
#[derive(Clone, Copy, Debug, PartialEq, Eq)]
pub enum RangeFault {
    /// No such place.
    BadPlace,
    /// Two places of different banks, or the first after the last.
    BadRange,
    /// A place in the rope, but a cell of erasable memory is needed.
    NotErasable,
}

impl RangeFault {
    ghost use Rattle.std.specs.Prelude.{◌≡◌};
    ghost use Rattle.agc_listing.specs.Ranges.{fault_name};

    /// Returns its name.
    pub fn name(self) -> &'static str
        ensures { result.now ≡ fault_name self }
    {
        match self {
            RangeFault::BadPlace => "BadPlace",
            RangeFault::BadRange => "BadRange",
            RangeFault::NotErasable => "NotErasable",
        }
    }
}

impl LocationRange {
    ghost use Rattle.std.specs.Prelude.{◌≡◌};
    ghost use Rattle.agc_listing.specs.Ranges.{cells_named, has_place, places_named};

    /// Parses a range: a place as sources name it, or two with a dash between them.
    #[tactic(auto, unfolding(crate::specs::Ranges::places_named))]
    pub fn named(text: &[u8]) -> Result<LocationRange, RangeFault>
        ensures { result ≡ places_named text.now }
    {
        match first_dash(text) {
            Some(at) => two_places(location_named(&text[..at]), location_named(&text[at + 1..])),
            None => one_place(location_named(text)),
        }
    }

    /// Parses a range of cells of erasable memory: one, or two with a dash between them.
    #[tactic(auto, unfolding(crate::specs::Ranges::cells_named))]
    pub fn of_cells(text: &[u8]) -> Result<LocationRange, RangeFault>
        ensures { result ≡ cells_named text.now }
    {
        only_cells(LocationRange::named(text)?)
    }

    /// Returns whether a location is in the range.
    pub fn has(self, here: Location) -> bool
        ensures { result ≡ has_place self here }
    {
        match (self.first, self.last, here) {
            (Location::Fixed(first), Location::Fixed(last), Location::Fixed(place)) => {
                first <= place && place <= last
            }
            (Location::Erasable(first), Location::Erasable(last), Location::Erasable(cell)) => {
                first <= cell && cell <= last
            }
            _ => false,
        }
    }
}

fn first_dash(text: &[u8]) -> Option<usize>
    ensures place { result ≡ position is_dash text.now }
    ensures bound { IfSome result (λ at. at < length text.now) }
{
    text.iter().position(|b| *b == b'-')
}

pub fn one_place(place: Option<Location>) -> Result<LocationRange, RangeFault>
    ensures { result ≡ one_place place }
{
    match place {
        Some(place) => Ok(LocationRange {
            first: place,
            last: place,
        }),
        None => Err(RangeFault::BadPlace),
    }
}

pub fn two_places(
    first: Option<Location>,
    last: Option<Location>,
) -> Result<LocationRange, RangeFault>
    ensures { result ≡ two_places first last }
{
    match (first, last) {
        (Some(first), Some(last)) => if is_stretch(first, last) {
            Ok(LocationRange { first, last })
        } else {
            Err(RangeFault::BadRange)
        },
        _ => Err(RangeFault::BadPlace),
    }
}

/// Returns the range if it consists of cells of erasable memory.
pub fn only_cells(places: LocationRange) -> Result<LocationRange, RangeFault>
    ensures { result ≡ only_cells (Ok places) }
{
    match places.first {
        Location::Erasable(_) => Ok(places),
        Location::Fixed(_) => Err(RangeFault::NotErasable),
    }
}

const FIXED_BANK: u32 = FIXED_BANK_SIZE as u32;

const ERASABLE_BANK: u32 = ERASABLE_BANK_SIZE as u32;

/// Returns whether two locations are in one bank, the first not after the last.
fn is_stretch(first: Location, last: Location) -> bool
    ensures { result ≡ is_stretch first last }
{
    match (first, last) {
        (Location::Fixed(first), Location::Fixed(last)) => first / FIXED_BANK == last / FIXED_BANK
            && first <= last,
        (Location::Erasable(first), Location::Erasable(last)) => first / ERASABLE_BANK
            == last / ERASABLE_BANK
            && first <= last,
        _ => false,
    }
}
