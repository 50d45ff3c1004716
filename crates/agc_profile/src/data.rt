//! Determines the words that an order reads as data.
ghost use Rattle.std.specs.Prelude.{◌≡◌, ◌+◌, ◌%◌};
ghost use Rattle.agc_word.specs.Number.{pattern_of};
ghost use Rattle.agc_store.specs.Registers.{z_of};
ghost use Rattle.agc_order.specs.Row.{extracode_row};
ghost use Rattle.agc_listing.specs.Location.{location_in};
ghost use Rattle.agc_profile.specs.DataReads.{
  basic_reads,
  data_read,
  word_at,
  words_at,
};

use agc_listing::{Location, location_in};
use agc_order::{Basic, Extracode, Takes};
use agc_store::{Addr, Store};
use agc_word::Narrow;

/// The places of the words that a boundary reads as data.
#[derive(Clone, Copy, Debug, PartialEq, Eq)]
pub struct DataReads {
    /// The word at its order's address.
    pub at: Option<Location>,
    /// The word at the address before it, which a double-word order reads too.
    pub before: Option<Location>,
}

impl DataReads {
    ghost use Rattle.std.specs.Prelude.{◌≡◌};
    ghost use Rattle.agc_profile.specs.DataReads.{no_data};

    /// Returns no words.
    #[inline(always)]
    pub(crate) fn none() -> DataReads
        ensures { result ≡ no_data }
    {
        DataReads {
            at: None,
            before: None,
        }
    }
}

/// Returns the words that an order reads, from the kind of its operand and the address in its word.
#[inline(always)]
pub(crate) fn data_read(reads: Takes, word: Narrow, store: &Store) -> DataReads
    ensures { result ≡ data_read reads (pattern_of 15 word) store.now }
{
    let long = Addr::of_word(word);
    match reads {
        Takes::Erasable => word_at(Addr::wrapped(word.bits() % 0o2000), store),
        Takes::ErasablePair => {
            let short = Addr::wrapped(word.bits() % 0o2000);
            words_at(short, short.previous_low_ten(), store)
        }
        Takes::Memory => word_at(long, store),
        Takes::MemoryPair => words_at(long, long.previous(), store),
        Takes::Nothing | Takes::Fixed | Takes::Channel => DataReads::none(),
    }
}

/// Returns the word at an address.
#[inline]
fn word_at(address: Addr, store: &Store) -> DataReads
    ensures { result ≡ word_at address store.now }
{
    DataReads {
        at: Some(location_in(store, address)),
        before: None,
    }
}

/// Returns the words at two addresses.
#[inline]
fn words_at(address: Addr, before: Addr, store: &Store) -> DataReads
    ensures { result ≡ words_at address before store.now }
{
    DataReads {
        at: Some(location_in(store, address)),
        before: Some(location_in(store, before)),
    }
}

/// Returns the place of the order in hand, whose address is one before Z.
#[inline(always)]
pub(crate) fn place_in_hand(store: &Store) -> Location
    ensures { result ≡ location_in store.now ((z_of store.now + 0o7777) % 0o10000) }
{
    location_in(store, store.z().previous())
}

/// Returns what a basic order reads: TC takes the address of an order, and TS only stores. The table is repeated here
/// because a row of the table of orders holds more than this.
#[inline(always)]
pub(crate) fn basic_reads(order: Basic) -> Takes
    ensures { result ≡ basic_reads order }
{
    match order {
        Basic::Tc | Basic::Relint | Basic::Inhint | Basic::Extend | Basic::Resume | Basic::Ts =>
            Takes::Nothing,
        Basic::Tcf => Takes::Fixed,
        Basic::Ccs | Basic::Lxch | Basic::Incr | Basic::Ads | Basic::Index | Basic::Xch =>
            Takes::Erasable,
        Basic::Das | Basic::Dxch => Takes::ErasablePair,
        Basic::Ca | Basic::Cs | Basic::Ad | Basic::Mask => Takes::Memory,
    }
}

/// Returns what an extracode reads.
#[inline(always)]
pub(crate) fn extracode_reads(order: Extracode) -> Takes
    ensures { result ≡ (extracode_row order).takes }
{
    match order {
        Extracode::Read
        | Extracode::Write
        | Extracode::Rand
        | Extracode::Wand
        | Extracode::Ror
        | Extracode::Wor
        | Extracode::Rxor
        | Extracode::Edrupt => Takes::Channel,
        Extracode::Bzf | Extracode::Bzmf => Takes::Fixed,
        Extracode::Dv
        | Extracode::Msu
        | Extracode::Qxch
        | Extracode::Aug
        | Extracode::Dim
        | Extracode::Su => Takes::Erasable,
        Extracode::Index | Extracode::Mp => Takes::Memory,
        Extracode::Dca | Extracode::Dcs => Takes::MemoryPair,
    }
}
