//! The words that lines have named so far, each place at most once.
ghost use Rattle.std.specs.Prelude.{◌≡◌, ◌<◌, [], IfOk, IfSome, OnOk, Ok};
ghost use Rattle.agc_store.specs.Places.{fixed_words};
ghost use Rattle.agc_listing.specs.Weave.{
  ArePlaces,
  no_flags,
  parsed_next,
  with_placed_word,
  unless_named,
};

use crate::fault::LineFault;
use crate::line::{PlacedWord, read_line};
use agc_store::place::FIXED_WORDS;
use std::alloc::{AllocError, Global};
use std::marker::Model;

/// The words that lines have named so far, in the order of the lines. `file_of` makes the rope file from them.
#[derive(Drop)]
pub struct RopeBuilder {
    words: Vec<PlacedWord>,
    /// For each place in the rope, whether it is named.
    named: Vec<bool>,
}

impl Model for RopeBuilder {
    ghost use Rattle.std.specs.Prelude.{List};
    ghost use Rattle.agc_store.specs.Places.{fixed_words};
    ghost use Rattle.agc_listing.specs.Weave.{AreFlags, ArePlaces};
    ghost use Rattle.agc_listing.specs.declared.line.PlacedWord.{PlacedWord};

    ghost Value = { List PlacedWord };

    ghost view = { λ l. l.words.items };

    ghost invariant = { λ l. AreFlags fixed_words l.named.items l.words.items × ArePlaces l.words.items };
}

impl RopeBuilder {
    /// Creates a builder without words. Fails if out of memory.
    pub fn new(alloc: Global) -> Result<RopeBuilder, AllocError>
        ensures { IfOk result (λ builder. builder ≡ []) }
    {
        Ok(RopeBuilder {
            words: Vec::new(alloc),
            named: no_flags(alloc, FIXED_WORDS as usize)?,
        })
    }

    /// Returns the words.
    pub fn words(&self) -> &[PlacedWord]
        ensures words { result.now ≡ self.now }
        ensures places { ArePlaces result.now }
    {
        self.words.as_slice()
    }

    /// Parses a line that comes after these words.
    #[tactic(auto, unfolding(crate::specs::Weave::parsed_next))]
    pub fn read(&self, line: &[u8]) -> Result<Option<PlacedWord>, LineFault>
        ensures line { result ≡ parsed_next self.now line.now }
        ensures range { IfOk result (λ parsed. IfSome parsed (λ named. named.place < fixed_words)) }
    {
        self.unless_named(read_line(line)?)
    }

    /// Returns a word, or `NamedTwice` if an earlier line names its place.
    pub fn unless_named(&self, parsed: Option<PlacedWord>) -> Result<Option<PlacedWord>, LineFault>
        requires { IfSome parsed (λ named. named.place < fixed_words) }
        ensures { result ≡ unless_named self.now (Ok parsed) }
    {
        let Some(named) = parsed else {
            return Ok(None);
        };
        let place = named.place;
        if self.named[place] {
            return Err(LineFault::NamedTwice);
        }
        Ok(Some(named))
    }

    /// Adds the word of a line, if it has one. Fails if out of memory.
    pub fn add(&mut self, parsed: Option<PlacedWord>) -> Result<(), AllocError>
        requires { IfSome parsed (λ named. named.place < fixed_words) }
        ensures { OnOk result (self.new ≡ with_placed_word self.old parsed) }
    {
        let Some(named) = parsed else {
            return Ok(());
        };
        let place = named.place;
        self.words.push(named)?;
        self.named[place] = true;
        Ok(())
    }
}

/// Creates `count` flags that are all off: no place is named yet.
#[tactic(auto, unfolding(crate::specs::Weave::no_flags))]
fn no_flags(alloc: Global, count: usize) -> Result<Vec<bool>, AllocError>
    ensures { IfOk result (λ flags. flags.items ≡ no_flags count) }
{
    let mut flags = Vec::new(alloc);
    flags.resize(count, false)?;
    Ok(flags)
}
