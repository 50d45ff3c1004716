//! Finds the operand of the order in hand, and reads what it holds before and after a boundary.
ghost use Rattle.std.specs.Prelude.{◌≡◌, ◌<◌};
ghost use Rattle.agc_word.specs.Number.{pattern_of};
ghost use Rattle.agc_order.specs.Row.{basic_row, extracode_row};
ghost use Rattle.agc_listing.specs.Location.{IsReadable};
ghost use Rattle.agc_trace.specs.Operand.{
  CanBeRead,
  CanBeReadAgain,
  addressed_by,
  basic_named,
  channel_again,
  extracode_named,
  field_named,
  held_channel,
  held_word,
  operand_again,
  operand_between,
  takes_of,
  word_again,
  word_at,
};

use agc_listing::{Cell, Location, location_in};
use agc_machine::{InHand, Machine, Upcoming};
use agc_order::{Basic, Extracode, Takes};
use agc_store::place::FIXED_WORDS;
use agc_store::{Addr, Store};
use agc_word::{Narrow, Wide, widen};

/// What an order addresses.
#[derive(Clone, Copy, Debug, PartialEq, Eq)]
pub enum Addressed {
    /// Nothing: the order has no operand, as EXTEND and EDRUPT, or no order runs.
    Nothing,
    /// A place to go to: the operand of TC, TCF, BZF and BZMF.
    Target(Location),
    /// A word.
    Word(Location),
    /// A double word: its upper and its lower word.
    Pair(Location, Location),
    /// A channel.
    Channel(u16),
}

/// A place, with its word before and after a boundary.
#[derive(Clone, Copy, Debug, PartialEq, Eq)]
pub struct HeldWord {
    pub at: Location,
    pub before: Wide,
    pub after: Wide,
}

/// A channel, with what it shows before and after a boundary.
#[derive(Clone, Copy, Debug, PartialEq, Eq)]
pub struct HeldChannel {
    pub channel: u16,
    pub before: Narrow,
    pub after: Narrow,
}

/// The operand of an order, with what it holds before and after the boundary.
#[derive(Clone, Copy, Debug, PartialEq, Eq)]
pub enum Operand {
    /// No operand.
    Nothing,
    /// A place to go to.
    Target(Location),
    /// A word.
    Word(HeldWord),
    /// A double word: its upper and its lower word.
    Pair(HeldWord, HeldWord),
    /// A channel.
    Channel(HeldChannel),
}

/// Returns what the order in hand addresses while the banks are as they are in a memory.
#[inline]
#[tactic(auto, unfolding(crate::specs::Operand::addressed_by))]
pub(crate) fn addressed_by(happening: Upcoming, store: &Store) -> Addressed
    ensures addressed { result ≡ addressed_by store.now happening }
    ensures range { CanBeRead result }
{
    match happening {
        Upcoming::Order(order) => {
            if order.extracode {
                extracode_named(Extracode::named_by(order.word), order.word, store)
            } else {
                basic_named(Basic::named_by(order.word), order.word, store)
            }
        }
        Upcoming::Stop(_) | Upcoming::Event(_) | Upcoming::Timer(_) | Upcoming::Interrupt(_) => {
            Addressed::Nothing
        }
    }
}

/// Returns the operand field of an order.
pub(crate) fn takes_of(order: InHand) -> Takes
    ensures { result ≡ takes_of order }
{
    if order.extracode {
        Extracode::named_by(order.word).row().takes
    } else {
        Basic::named_by(order.word).row().takes
    }
}

fn basic_named(order: Basic, word: Narrow, store: &Store) -> Addressed
    ensures addressed { result ≡ basic_named store.now order (pattern_of 15 word) }
    ensures range { CanBeRead result }
{
    if matches!(order, Basic::Tc) {
        Addressed::Target(location_in(store, Addr::of_word(word)))
    } else {
        field_named(order.row().takes, word, store)
    }
}

fn extracode_named(order: Extracode, word: Narrow, store: &Store) -> Addressed
    ensures addressed { result ≡ extracode_named store.now order (pattern_of 15 word) }
    ensures range { CanBeRead result }
{
    if matches!(order, Extracode::Edrupt) {
        Addressed::Nothing
    } else {
        field_named(order.row().takes, word, store)
    }
}

/// Returns what an operand field names.
fn field_named(takes: Takes, word: Narrow, store: &Store) -> Addressed
    ensures addressed { result ≡ field_named store.now takes (pattern_of 15 word) }
    ensures range { CanBeRead result }
{
    let address = Addr::of_word(word);
    match takes {
        Takes::Nothing => Addressed::Nothing,
        Takes::Erasable => Addressed::Word(location_in(store, address.low_ten())),
        Takes::ErasablePair => Addressed::Pair(
            location_in(store, address.previous_low_ten()),
            location_in(store, address.low_ten()),
        ),
        Takes::Fixed => Addressed::Target(location_in(store, address)),
        Takes::Memory => Addressed::Word(location_in(store, address)),
        Takes::MemoryPair => Addressed::Pair(
            location_in(store, address.previous()),
            location_in(store, address),
        ),
        Takes::Channel => Addressed::Channel(word.bits() % 0o1000),
    }
}

/// Returns the word at a place.
#[tactic(auto, unfolding(crate::specs::Operand::word_at))]
fn word_at(store: &Store, at: Location) -> Wide
    requires { IsReadable at }
    ensures { result ≡ word_at store.now at }
{
    match at {
        Location::Erasable(cell) => Cell::new(cell as u16).word(store),
        Location::Fixed(place) if place < FIXED_WORDS => widen(store.fixed_at(place as usize)),
        Location::Fixed(_) => Wide::PLUS_ZERO,
    }
}

/// Reads what an order addresses.
#[inline]
#[tactic(auto, unfolding(crate::specs::Operand::operand_between))]
pub(crate) fn operand_in(machine: &Machine, addressed: Addressed) -> Operand
    requires { CanBeRead addressed }
    ensures operand { result ≡ operand_between machine.now machine.now addressed }
    ensures range { CanBeReadAgain result }
{
    match addressed {
        Addressed::Nothing => Operand::Nothing,
        Addressed::Target(at) => Operand::Target(at),
        Addressed::Word(at) => Operand::Word(held_word(machine, at)),
        Addressed::Pair(upper, lower) => {
            Operand::Pair(held_word(machine, upper), held_word(machine, lower))
        }
        Addressed::Channel(channel) => Operand::Channel(held_channel(machine, channel)),
    }
}

fn held_word(machine: &Machine, at: Location) -> HeldWord
    requires { IsReadable at }
    ensures { result ≡ held_word machine.now machine.now at }
{
    let word = word_at(machine.store(), at);
    HeldWord {
        at,
        before: word,
        after: word,
    }
}

fn held_channel(machine: &Machine, channel: u16) -> HeldChannel
    requires { channel < 0o1000 }
    ensures { result ≡ held_channel machine.now machine.now channel }
{
    let word = machine.channel(channel);
    HeldChannel {
        channel,
        before: word,
        after: word,
    }
}

/// Reads an operand again, after a boundary.
#[inline]
#[tactic(auto, unfolding(crate::specs::Operand::operand_again))]
pub(crate) fn operand_again(machine: &Machine, operand: Operand) -> Operand
    requires { CanBeReadAgain operand }
    ensures { result ≡ operand_again machine.now operand }
{
    match operand {
        Operand::Nothing => Operand::Nothing,
        Operand::Target(at) => Operand::Target(at),
        Operand::Word(word) => Operand::Word(word_again(machine, word)),
        Operand::Pair(upper, lower) => {
            Operand::Pair(word_again(machine, upper), word_again(machine, lower))
        }
        Operand::Channel(channel) => Operand::Channel(channel_again(machine, channel)),
    }
}

fn word_again(machine: &Machine, word: HeldWord) -> HeldWord
    requires { IsReadable word.at }
    ensures { result ≡ word_again machine.now word }
{
    HeldWord {
        after: word_at(machine.store(), word.at),
        ..word
    }
}

fn channel_again(machine: &Machine, channel: HeldChannel) -> HeldChannel
    requires { channel.channel < 0o1000 }
    ensures { result ≡ channel_again machine.now channel }
{
    HeldChannel {
        after: machine.channel(channel.channel),
        ..channel
    }
}
