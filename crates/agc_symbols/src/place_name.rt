//! A symbol: a name and its location.
ghost use Rattle.std.specs.Prelude.{◌≡◌, IfOk};

use agc_listing::Location;
use std::alloc::{AllocError, Global};
use std::marker::Model;

/// A name of a place or a cell.
#[derive(Drop)]
pub struct PlaceName {
    place: Location,
    name: String,
}

impl Model for PlaceName {
    ghost use Rattle.std.specs.Prelude.{string_bytes};
    ghost use Rattle.agc_symbols.specs.Symbols.{Symbol};

    ghost Value = { Symbol };

    ghost view = { λ n. record { place = n.place; name = string_bytes n.name } };
}

impl PlaceName {
    /// Creates a name for a place. Fails if out of memory.
    pub fn new(alloc: Global, place: Location, name: &str) -> Result<PlaceName, AllocError>
        ensures { IfOk result (λ named. named ≡ record { place = place; name = name.now }) }
    {
        Ok(PlaceName {
            place,
            name: String::from_str(alloc, name)?,
        })
    }

    /// Returns its location.
    pub fn place(&self) -> Location
        ensures { result ≡ self.now.place }
    {
        self.place
    }

    /// Returns the name.
    pub fn name(&self) -> &str
        ensures { result.now ≡ self.now.name }
    {
        self.name.as_str()
    }
}
