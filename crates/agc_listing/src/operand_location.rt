//! Finds the location that an order of a rope names, without a run.
ghost use Rattle.std.specs.Prelude.{◌≡◌, ◌<◌, IfSome};
ghost use Rattle.agc_store.specs.Places.{fixed_words};
ghost use Rattle.agc_listing.specs.Location.{IsWithin};
ghost use Rattle.agc_listing.specs.SureLocation.{is_sure, sure_location};

use crate::location::{Location, location_at};
use agc_store::Addr;
use agc_store::place::{ERASABLE_WINDOW, FIXED_BANK_SIZE, FIXED_FIXED, FIXED_WINDOW, bank_of};

/// Returns the location that an address names for the order at a place, unless a bank that is not known decides it.
#[tactic(auto, unfolding(crate::specs::SureLocation::sure_location, crate::specs::Location::location_at))]
pub fn sure_location(here: usize, address: u16) -> Option<Location>
    requires here { here < fixed_words }
    requires address { address < 0o10000 }
    ensures location { result ≡ sure_location here address }
    ensures range { IfSome result IsWithin }
{
    if is_sure(here, address) {
        Some(location_at(bank_of(here as u32), Addr::wrapped(address)))
    } else {
        None
    }
}

/// Returns whether no bank but that of an order at a place decides what an address names.
fn is_sure(here: usize, address: u16) -> bool
    ensures { result ≡ is_sure here address }
{
    match address {
        0..ERASABLE_WINDOW => true,
        ERASABLE_WINDOW..FIXED_WINDOW => false,
        FIXED_WINDOW..FIXED_FIXED => !matches!(here / FIXED_BANK_SIZE as usize, 2 | 3),
        _ => true,
    }
}
