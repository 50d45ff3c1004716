//! Predicts the next boundary: the first case that applies, without carrying it out.
ghost use Rattle.std.specs.Prelude.{◌≡◌, ◌<◌, None};
ghost use Rattle.agc_machine.specs.State.{State};
ghost use Rattle.agc_store.specs.Places.{fixed_window};
ghost use Rattle.agc_machine.specs.Boundary.{Applies, HappensNext, HasPlace, bank_of_address, in_hand, upcoming_of};

use crate::answer::Stop;
use crate::engine::Engine;
use crate::machine::Machine;
use crate::quiet::Pace;
use agc_processor::{Processor, Rupt, Timer};
use agc_script::What;
use agc_store::Addr;
use agc_store::place::{ERASABLE_WINDOW, FIXED_FIXED, FIXED_WINDOW};
use agc_word::Narrow;

/// The order in hand, which runs if nothing else happens.
#[derive(Clone, Copy, Debug, PartialEq, Eq)]
pub struct InHand {
    /// For 1400 to 1777 octal the erasable bank, for 2000 to 3777 the fixed bank, 0 to 47 octal
    /// with the superbank's ten added; for other addresses 0.
    pub bank: u8,
    /// One before Z.
    pub address: Addr,
    /// The word that runs, with what INDEX has added.
    pub word: Narrow,
    /// Whether the word runs as an extracode.
    pub extracode: bool,
}

/// The next boundary, if no live key comes.
#[derive(Clone, Copy, Debug, PartialEq, Eq)]
pub enum Upcoming {
    /// The machine has stopped, or it stops at its limit or its stop address.
    Stop(Stop),
    /// An event of the script happens.
    Event(What),
    /// A timer steps.
    Timer(Timer),
    /// An interrupt is taken.
    Interrupt(Rupt),
    /// The order in hand runs; among orders only DV and EDRUPT may stop the machine.
    Order(InHand),
}

/// The prediction comes true: if the machine has not stopped, it is the case that applies when no earlier one does, and
/// the boundary does what it predicts.
pub fn the_upcoming_comes()
    ensures cases { (s : State) → s.stopped ≡ None → Applies (upcoming_of s) s }
    ensures boundary { (s : State) → HappensNext s (upcoming_of s) }
{}

impl Machine {
    ghost use Rattle.std.specs.Prelude.{◌≡◌};
    ghost use Rattle.agc_machine.specs.Boundary.{HappensNext, HasPlace, upcoming_of};

    /// Returns what the next boundary will be if no live key comes.
    pub fn upcoming(&self) -> Upcoming
        ensures reported { result ≡ upcoming_of self.now }
        ensures comes { HappensNext self.now result }
        ensures place { HasPlace result }
    {
        self.engine.upcoming()
    }
}

impl Engine {
    ghost use Rattle.std.specs.Prelude.{◌≡◌, drop, IfSome};
    ghost use Rattle.agc_machine.specs.Engine.{state_of, IsSound, StandsInScript};
    ghost use Rattle.agc_machine.specs.Boundary.{HasPlace, due_event, upcoming_of};

    /// Returns the first case that applies at the next boundary. If the clock brings nothing and nothing may come
    /// before the order in hand, that is the order.
    fn upcoming(&self) -> Upcoming
        requires sound { IsSound self.now }
        ensures reported { result ≡ upcoming_of (state_of self.now) }
        ensures place { HasPlace result }
    {
        if self.cycle < self.quiet_until && self.pace == Pace::Bare {
            return Upcoming::Order(in_hand(&self.processor));
        }
        self.upcoming_by_cases()
    }

    /// Returns the same, by checking every case.
    #[tactic(auto, unfolding(crate::specs::Boundary::upcoming_of))]
    pub(crate) fn upcoming_by_cases(&self) -> Upcoming
        requires sound { IsSound self.now }
        ensures reported { result ≡ upcoming_of (state_of self.now) }
        ensures place { HasPlace result }
        ensures script { StandsInScript result self.now }
    {
        if let Some(why) = self.stopped {
            return Upcoming::Stop(why);
        }
        if self.cycle >= self.limit {
            return Upcoming::Stop(Stop::Limit);
        }
        if let Some(what) = self.due_event() {
            return Upcoming::Event(what);
        }
        if let Some(timer) = self.processor.due_timer(self.cycle) {
            return Upcoming::Timer(timer);
        }
        if let Some(rupt) = self.processor.pending() {
            return Upcoming::Interrupt(rupt);
        }
        if self.is_reached() {
            return Upcoming::Stop(Stop::Reached);
        }
        Upcoming::Order(in_hand(&self.processor))
    }

    /// Returns the first event that the run has not taken, if it is due.
    #[tactic(auto, using(crate::proofs::Events::no_events))]
    fn due_event(&self) -> Option<What>
        ensures due { result ≡ due_event self.now.cycle (drop self.now.next self.now.script) }
        ensures script { IfSome result (λ what. StandsInScript (Upcoming.Event what) self.now) }
    {
        let event = self.next_event()?;
        if event.cycle > self.cycle {
            None
        } else {
            Some(event.what)
        }
    }
}

/// Returns the order in hand, with its place.
#[inline(always)]
#[tactic(auto, unfolding(crate::specs::Boundary::in_hand))]
pub(crate) fn in_hand(processor: &Processor) -> InHand
    ensures order { result ≡ in_hand processor.now }
    ensures place { HasPlace (Upcoming.Order result) }
{
    let address = processor.store.z().previous();
    InHand {
        bank: bank_of_address(processor, address),
        address,
        word: processor.hand,
        extracode: processor.extracode,
    }
}

/// Returns the bank that an address is in, in the two windows; elsewhere 0.
#[inline(always)]
fn bank_of_address(processor: &Processor, address: Addr) -> u8
    ensures bank { result ≡ bank_of_address address processor.now }
    ensures range { result < 0o50 }
    ensures erasable { address < fixed_window → result < 0o10 }
{
    match address.bits() {
        0..ERASABLE_WINDOW => 0,
        ERASABLE_WINDOW..FIXED_WINDOW => processor.store.erasable_bank(),
        FIXED_WINDOW..FIXED_FIXED => processor.store.selected_bank(),
        _ => 0,
    }
}
