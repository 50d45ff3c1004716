//! The names of a source, each with its location.
ghost use Rattle.std.specs.Prelude.{◌≡◌, OnOk};
ghost use Rattle.agc_vocabulary.specs.Name.{channels_of, given_of, guessing, known, naming_of, own_names, with_channel, with_name};

use agc_listing::Location;
use agc_symbols::Register;
use std::alloc::{AllocError, Global};
use std::collections::BTreeMap;

/// The names of lines, those that an earlier reading of the source found, and the computer's own; and the names that
/// orders take as channels.
#[derive(Drop)]
pub struct Names<'a> {
    given: BTreeMap<&'a [u8], Location>,
    guess: BTreeMap<&'a [u8], Location>,
    /// The last line that takes the name.
    channels: BTreeMap<&'a [u8], usize>,
}

impl<'a> Names<'a> {
    /// Creates the names that every source has.
    pub fn new(alloc: Global) -> Names<'a>
        ensures { naming_of result ≡ own_names }
    {
        Names {
            given: BTreeMap::new(alloc),
            guess: BTreeMap::new(alloc),
            channels: BTreeMap::new(alloc),
        }
    }

    /// Creates the names for another reading of a source: those of lines are known from the earlier one.
    pub fn again(self, alloc: Global) -> Names<'a>
        ensures { naming_of result ≡ guessing (given_of self.entry) }
    {
        Names {
            given: BTreeMap::new(alloc),
            guess: self.given,
            channels: BTreeMap::new(alloc),
        }
    }

    /// Returns the location of a name.
    #[tactic(auto, unfolding(crate::specs::Name::known))]
    pub fn get(&self, name: &[u8]) -> Option<Location>
        ensures { result ≡ known (naming_of self.now) name.now }
    {
        if let Some(place) = self.given.get(name) {
            return Some(*place);
        }
        if let Some(place) = self.guess.get(name) {
            return Some(*place);
        }
        match Register::from_name(name) {
            Some(register) if !register.is_short() => Some(Location::Erasable(register.cell())),
            _ => None,
        }
    }

    /// Returns the location of a name that a line has.
    pub fn of_line(&self, name: &[u8]) -> Option<Location>
        ensures { result ≡ given_of self.now name.now }
    {
        self.given.get(name).copied()
    }

    /// Adds the name of a line, which no line before it has.
    pub fn add(&mut self, name: &'a [u8], place: Location) -> Result<(), AllocError>
        ensures { OnOk result (naming_of self.new ≡ with_name (naming_of self.old) name.now place) }
    {
        self.given.insert(name, place)?;
        Ok(())
    }

    /// Notes that a line takes a name as a channel's.
    pub fn add_channel(&mut self, name: &'a [u8], line: usize) -> Result<(), AllocError>
        ensures { OnOk result (naming_of self.new ≡ with_channel (naming_of self.old) name.now line) }
    {
        self.channels.insert(name, line)?;
        Ok(())
    }

    /// Returns the last line that takes a name as a channel's.
    pub fn channel_line(&self, name: &[u8]) -> Option<usize>
        ensures { result ≡ channels_of self.now name.now }
    {
        self.channels.get(name).copied()
    }
}
