//! Interrupts: the ten requests, which one is taken, and what that does.
ghost use Rattle.std.specs.Prelude.{◌≡◌, ◌<◌, length, position, IfSome};

use crate::processor::Processor;
use agc_store::Addr;
use agc_store::place::{BRUPT, ZRUPT};
use agc_word::Over;

/// The cycles of an interrupt: it saves Z and the order in hand, and fetches the order at the vector.
pub const INTERRUPT_MCT: u64 = 3;

/// The first vector is four words past this address.
const VECTORS: u16 = 0o4000;

/// The interrupts in the order of their numbers, which is the order of their vectors.
#[derive(Clone, Copy, Debug, PartialEq, Eq)]
pub enum Rupt {
    /// TIME6 was at zero.
    T6rupt,
    /// TIME5 has overflowed.
    T5rupt,
    /// TIME3 has overflowed.
    T3rupt,
    /// TIME4 has overflowed.
    T4rupt,
    /// A key of the main keyboard was pressed.
    Keyrupt1,
    /// A key of the second keyboard was pressed.
    Keyrupt2,
    /// The uplink's word is complete.
    Uprupt,
    /// The downlink has sent its words.
    Downrupt,
    /// The radar's word is complete.
    Radarupt,
    /// The hand controller has moved.
    Rupt10,
}

impl Rupt {
    ghost use Rattle.std.specs.Prelude.{◌≡◌, ℕ, ◌<◌, ◌≤◌, ◌-◌};
    ghost use Rattle.agc_processor.specs.Interrupt.{rupt_name, rupt_number, rupt_at, rupt_numbered, vector_of};

    /// Returns its name in the memos, as traces print it.
    pub fn name(self) -> &'static str
        ensures { result.now ≡ rupt_name self }
    {
        match self {
            Rupt::T6rupt => "T6RUPT",
            Rupt::T5rupt => "T5RUPT",
            Rupt::T3rupt => "T3RUPT",
            Rupt::T4rupt => "T4RUPT",
            Rupt::Keyrupt1 => "KEYRUPT1",
            Rupt::Keyrupt2 => "KEYRUPT2",
            Rupt::Uprupt => "UPRUPT",
            Rupt::Downrupt => "DOWNRUPT",
            Rupt::Radarupt => "RADARUPT",
            Rupt::Rupt10 => "RUPT10",
        }
    }

    /// Returns its number, as scripts write it.
    pub fn number(self) -> u8
        ensures number { result ≡ rupt_number self }
        ensures first { 1 ≤ result }
        ensures last { result ≤ 10 }
    {
        match self {
            Rupt::T6rupt => 1,
            Rupt::T5rupt => 2,
            Rupt::T3rupt => 3,
            Rupt::T4rupt => 4,
            Rupt::Keyrupt1 => 5,
            Rupt::Keyrupt2 => 6,
            Rupt::Uprupt => 7,
            Rupt::Downrupt => 8,
            Rupt::Radarupt => 9,
            Rupt::Rupt10 => 10,
        }
    }

    /// Returns the interrupt with a number.
    pub fn numbered(number: u8) -> Rupt
        requires first { 1 ≤ number }
        requires last { number ≤ 10 }
        ensures { result ≡ rupt_numbered number }
    {
        Rupt::at(usize::from(number) - 1)
    }

    /// Returns the interrupt at a position in the order of the numbers, from 0.
    fn at(place: usize) -> Rupt
        requires { place < 10 }
        ensures { result ≡ rupt_at place }
    {
        match place {
            0 => Rupt::T6rupt,
            1 => Rupt::T5rupt,
            2 => Rupt::T3rupt,
            3 => Rupt::T4rupt,
            4 => Rupt::Keyrupt1,
            5 => Rupt::Keyrupt2,
            6 => Rupt::Uprupt,
            7 => Rupt::Downrupt,
            8 => Rupt::Radarupt,
            9 => Rupt::Rupt10,
            _ => unreachable!(),
        }
    }

    /// Returns its position in the order of the numbers, from 0.
    fn place(self) -> usize
        ensures place { result ≡ rupt_number self - 1 }
        ensures range { result < 10 }
    {
        usize::from(self.number()) - 1
    }

    /// Returns its vector: the address where its program begins, with four words.
    pub fn vector(self) -> Addr
        ensures { result ≡ vector_of self }
    {
        Addr::new(VECTORS + 4 * u16::from(self.number())).unwrap()
    }
}

impl Processor {
    ghost use Rattle.std.specs.Prelude.{◌≡◌, ◌<◌, IfNone, IfSome, OnSome, IsSome, Some, None, true, false};
    ghost use Rattle.agc_processor.specs.Interrupt.{is_allowed, pending, interrupted, request, first_request};

    /// Requests an interrupt. If it is already requested, nothing changes.
    pub fn request(&mut self, rupt: Rupt)
        ensures { self.new ≡ request rupt self.old }
    {
        self.requests[rupt.place()] = true;
    }

    /// Returns whether any interrupt is requested.
    pub fn is_requested(&self) -> bool
        ensures none { result ≡ false → first_request self.now ≡ None }
        ensures some { result ≡ true → IsSome (first_request self.now) }
    {
        self.first_request().is_some()
    }

    /// Returns the requested interrupt with the lowest vector.
    fn first_request(&self) -> Option<Rupt>
        ensures { result ≡ first_request self.now }
    {
        Some(Rupt::at(first_waiting(&self.requests)?))
    }

    /// Returns the interrupt that is taken next, if any is allowed.
    #[tactic(auto, unfolding(crate::specs::Interrupt::pending))]
    pub fn pending(&self) -> Option<Rupt>
        ensures { result ≡ pending self.now }
    {
        if self.is_allowed() {
            self.first_request()
        } else {
            None
        }
    }

    /// Returns whether interrupts are allowed: no interrupt being served, no INHINT, no order that belongs to EXTEND or
    /// INDEX, and no overflow in A.
    fn is_allowed(&self) -> bool
        ensures { result ≡ is_allowed self.now }
    {
        !self.serving
            && !self.inhibited
            && !self.uninterruptible
            && self.store.a().over() == Over::None
    }

    /// Takes an interrupt: saves Z in ZRUPT and the order in hand in BRUPT, and fetches the order
    /// at the vector.
    #[tactic(auto, unfolding(crate::specs::Interrupt::interrupted))]
    pub fn interrupt(&mut self, rupt: Rupt)
        ensures { self.new ≡ interrupted rupt self.old }
    {
        let vector = rupt.vector();
        self.store.poke(0, ZRUPT, self.store.z().word());
        self.store.poke(0, BRUPT, self.hand);
        self.hand = self.store.fetch(vector);
        self.requests[rupt.place()] = false;
        self.serving = true;
        self.store.set_z(vector.next());
    }
}

/// Returns the position of the first pending request.
fn first_waiting(requests: &[bool]) -> Option<usize>
    ensures place { result ≡ position (λ waits. waits) requests.now }
    ensures range { IfSome result (λ place. place < length requests.now) }
{
    requests.iter().position(|waits| *waits)
}
