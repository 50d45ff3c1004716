//! Selects the boundaries of a run that have a line.
ghost use Rattle.std.specs.Prelude.{◌≡◌, string_bytes};
ghost use Rattle.std.specs.List.{list_any};
ghost use Rattle.agc_trace.specs.Operand.{mnemonic_of};
ghost use Rattle.agc_trace.specs.Selection.{
  ends_service,
  is_any_met,
  is_called,
  is_channel_order,
  is_interrupt,
  is_jump,
  is_of_kind,
  is_of_kinds,
  runs_at,
  touches,
};

use crate::change::Change;
use crate::entry::{Entry, Registers};
use agc_listing::{LocationRange, location_at};
use agc_machine::{InHand, Upcoming};
use agc_order::{Basic, Extracode};

/// A kind of boundary.
#[derive(Clone, Copy, Debug, PartialEq, Eq)]
pub enum Only {
    /// Orders that write to a channel.
    Writes,
    /// Interrupts, and RESUME, which ends their services.
    Interrupts,
    /// Orders that are not followed by the order at the next address.
    Jumps,
}

/// Which boundaries have a line: those in the range that meet every condition, and the stop.
#[derive(Debug, Drop)]
pub struct Selection {
    /// The first cycle at which such a boundary may begin.
    pub from: u64,
    /// The last cycle at which it may begin.
    pub to: u64,
    /// Its kind; `None` for any.
    pub only: Option<Only>,
    /// Its order is at one of these places; if empty, anything may happen.
    pub places: Vec<LocationRange>,
    /// Its order has one of these mnemonics; likewise.
    pub orders: Vec<String>,
    /// Its order reads or writes one of these channels; likewise.
    pub channels: Vec<u16>,
    /// It changes one of these cells of erasable memory; likewise.
    pub cells: Vec<LocationRange>,
    /// How many boundaries have a line, counted from the end; `None` for all.
    pub last: Option<u64>,
}

impl Selection {
    ghost use Rattle.std.specs.Prelude.{◌≡◌};
    ghost use Rattle.agc_trace.specs.Passing.{is_met_by};
    ghost use Rattle.agc_trace.specs.Selection.{is_answer, is_selected};
    ghost use Rattle.agc_trace.specs.declared.operand.Operand.{Operand};

    /// Returns whether the boundary of an entry, with its changes of watched cells, has a line.
    #[tactic(auto, unfolding(crate::specs::Selection::is_selected))]
    pub fn takes(&self, entry: &Entry, changes: &[Change]) -> bool
        ensures { (operand : Operand) → result ≡ is_selected self.now
            (record { entry = entry.now; operand = operand; changes = changes.now }) }
    {
        self.from <= entry.cycle
            && entry.cycle <= self.to
            && (entry.is_stop() || self.is_answer(entry, changes))
    }

    /// Returns whether what happens meets the conditions on places, mnemonics and channels.
    #[inline]
    pub(crate) fn is_met_by(&self, happening: &Upcoming) -> bool
        ensures { result ≡ is_met_by self.now happening.now }
    {
        runs_at_one(self.places.as_slice(), *happening)
            && is_called_one(self.orders.as_slice(), *happening)
            && touches_one(self.channels.as_slice(), *happening)
    }

    /// Returns whether the boundary meets every condition.
    fn is_answer(&self, entry: &Entry, changes: &[Change]) -> bool
        ensures { result ≡ is_answer self.now entry.now changes.now }
    {
        is_of_kinds(self.only, entry)
            && runs_at_one(self.places.as_slice(), entry.happening)
            && is_called_one(self.orders.as_slice(), entry.happening)
            && touches_one(self.channels.as_slice(), entry.happening)
            && (self.cells.is_empty() || !changes.is_empty())
    }
}

/// Returns whether the boundary is of the selected kind.
fn is_of_kinds(only: Option<Only>, entry: &Entry) -> bool
    ensures { result ≡ is_of_kinds only entry.now }
{
    match only {
        Some(kind) => is_of_kind(kind, entry),
        None => true,
    }
}

/// Returns whether the order is at one of several places, or none are selected.
fn runs_at_one(several: &[LocationRange], happening: Upcoming) -> bool
    ensures { result ≡ is_any_met (λ places. runs_at places happening) several.now }
{
    several.is_empty() || runs_at_any(several, happening)
}

fn runs_at_any(several: &[LocationRange], happening: Upcoming) -> bool
    ensures { result ≡ list_any (λ places. runs_at places happening) several.now }
{
    several.iter().any(|places| runs_at(*places, happening))
}

/// Returns whether this is an order at one of these places.
fn runs_at(places: LocationRange, happening: Upcoming) -> bool
    ensures { result ≡ runs_at places happening }
{
    match happening {
        Upcoming::Order(order) => places.has(location_at(order.bank, order.address)),
        Upcoming::Stop(_) | Upcoming::Event(_) | Upcoming::Timer(_) | Upcoming::Interrupt(_) =>
            false,
    }
}

/// Returns whether the order has one of several mnemonics, or none are selected.
fn is_called_one(several: &[String], happening: Upcoming) -> bool
    ensures { result ≡ is_any_met (λ name. is_called (string_bytes name) happening) several.now }
{
    several.is_empty() || is_called_any(several, happening)
}

fn is_called_any(several: &[String], happening: Upcoming) -> bool
    ensures { result ≡ list_any (λ name. is_called (string_bytes name) happening) several.now }
{
    several
        .iter()
        .any(|name| is_called(name.as_bytes(), happening))
}

/// Returns whether this is an order with this mnemonic.
fn is_called(name: &[u8], happening: Upcoming) -> bool
    ensures { result ≡ is_called name.now happening }
{
    match happening {
        Upcoming::Order(order) => mnemonic_of(order).as_bytes() == name,
        Upcoming::Stop(_) | Upcoming::Event(_) | Upcoming::Timer(_) | Upcoming::Interrupt(_) =>
            false,
    }
}

/// Returns the mnemonic by which a line names an order.
pub(crate) fn mnemonic_of(order: InHand) -> &'static str
    ensures { result.now ≡ mnemonic_of order }
{
    if order.extracode {
        Extracode::named_by(order.word).row().mnemonic
    } else {
        Basic::named_by(order.word).row().mnemonic
    }
}

/// Returns whether the order reads or writes one of several channels, or none are selected.
fn touches_one(several: &[u16], happening: Upcoming) -> bool
    ensures { result ≡ is_any_met (λ channel. touches channel happening) several.now }
{
    several.is_empty() || touches_any(several, happening)
}

fn touches_any(several: &[u16], happening: Upcoming) -> bool
    ensures { result ≡ list_any (λ channel. touches channel happening) several.now }
{
    several.iter().any(|channel| touches(*channel, happening))
}

/// Returns whether this is an order that reads or writes this channel.
fn touches(channel: u16, happening: Upcoming) -> bool
    ensures { result ≡ touches channel happening }
{
    match happening {
        Upcoming::Order(order) => order.extracode
            && is_channel_order(Extracode::named_by(order.word))
            && order.word.bits() % 0o1000 == channel,
        Upcoming::Stop(_) | Upcoming::Event(_) | Upcoming::Timer(_) | Upcoming::Interrupt(_) =>
            false,
    }
}

/// Returns whether an order reads or writes a channel.
fn is_channel_order(order: Extracode) -> bool
    ensures { result ≡ is_channel_order order }
{
    matches!(
        order,
        Extracode::Read
            | Extracode::Write
            | Extracode::Rand
            | Extracode::Wand
            | Extracode::Ror
            | Extracode::Wor
            | Extracode::Rxor
    )
}

/// Returns whether the boundary is of a kind.
fn is_of_kind(kind: Only, entry: &Entry) -> bool
    ensures { result ≡ is_of_kind kind entry.now }
{
    match kind {
        Only::Writes => entry.write.is_some(),
        Only::Interrupts => is_interrupt(entry.happening),
        Only::Jumps => is_jump(entry.happening, entry.registers),
    }
}

/// Returns whether this is an interrupt, or RESUME.
fn is_interrupt(happening: Upcoming) -> bool
    ensures { result ≡ is_interrupt happening }
{
    match happening {
        Upcoming::Interrupt(_) => true,
        Upcoming::Order(order) => ends_service(order),
        Upcoming::Stop(_) | Upcoming::Event(_) | Upcoming::Timer(_) => false,
    }
}

/// Returns whether the order in hand is RESUME.
pub(crate) fn ends_service(order: InHand) -> bool
    ensures { result ≡ ends_service order }
{
    !order.extracode && matches!(Basic::named_by(order.word), Basic::Resume)
}

/// Returns whether this is an order that is not followed by the order at the next address. The
/// order in hand is at one before Z.
fn is_jump(happening: Upcoming, after: Registers) -> bool
    ensures { result ≡ is_jump happening after }
{
    match happening {
        Upcoming::Order(order) => {
            let in_hand = (after.z.bits() + 0o7777) % 0o10000;
            in_hand != (order.address.bits() + 1) % 0o10000
        }
        Upcoming::Stop(_) | Upcoming::Event(_) | Upcoming::Timer(_) | Upcoming::Interrupt(_) =>
            false,
    }
}
