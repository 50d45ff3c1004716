//! The processor: memory, channels, the order in hand, and the flags and timers between orders; and
//! the vocabulary of the orders.
use agc_store::place::{A, Q};
use agc_store::{Addr, Store};
use agc_word::{Narrow, Wide};
use std::alloc::{AllocError, Global};

/// What the timers have counted. Only orders on channel 13 octal change it.
#[derive(Drop)]
pub struct Timers {
    /// The steps that TIME1 has taken.
    pub time1: u64,
    /// The steps that TIME3 has taken.
    pub time3: u64,
    /// The steps that TIME4 has taken.
    pub time4: u64,
    /// The steps that TIME5 has taken.
    pub time5: u64,
    /// The periods of TIME6 that have passed or been counted.
    pub mark: u64,
}

/// The state that the orders work on.
#[derive(Drop)]
pub struct Processor {
    /// The fixed words, and the erasable cells including A, L, Q, Z and the bank registers.
    pub store: Store,
    /// The cells of the channels 0 to 777 octal; 1 to 4 show registers and the scaler instead.
    pub channels: [Narrow; 0o1000],
    /// The order in hand, which runs next.
    pub hand: Narrow,
    /// Set after EXTEND and the extracode INDEX: the next order is an extracode.
    pub extracode: bool,
    /// Set after EXTEND and both forms of INDEX: no interrupt before the next order.
    pub uninterruptible: bool,
    /// INHINT is in force.
    pub inhibited: bool,
    /// An interrupt is being served; RESUME ends that.
    pub serving: bool,
    /// Which interrupts are requested, by number, T6RUPT first.
    pub requests: [bool; 10],
    /// The steps that the timers have taken.
    pub timers: Timers,
}

/// Why an order does not run.
#[derive(Clone, Copy, Debug, PartialEq, Eq)]
pub enum Halt {
    /// DV has a divisor of zero magnitude, or a dividend too large for it.
    DivisionUndefined,
    /// EDRUPT, whose effect this emulator leaves out.
    Edrupt,
}

/// The cycles of an order that writes a channel: WRITE, WAND and WOR.
pub const WRITE_MCT: u64 = 2;

/// What an order did.
#[derive(Clone, Copy, Debug, PartialEq, Eq)]
pub enum Ran {
    /// Nothing is visible outside; the order took this many cycles.
    Quiet(u64),
    /// It wrote a channel from 5 to 777 octal, which then had this word. It took `WRITE_MCT` cycles.
    Wrote(u16, Narrow),
    /// It did not run, and changed nothing.
    Halted(Halt),
}

impl Processor {
    ghost use Rattle.std.specs.Prelude.{◌≡◌, IfOk};
    ghost use Rattle.agc_store.specs.Memory.{read_of};
    ghost use Rattle.agc_processor.specs.Processor.{edit_again, skip, fetched, names, names_wide};

    /// Returns a copy of the processor. Fails when memory runs out.
    pub fn copy(&self, alloc: Global) -> Result<Processor, AllocError>
        ensures { IfOk result (λ copy. copy ≡ self.now) }
    {
        let store = self.store.copy(alloc)?;
        let timers = Timers {
            time1: self.timers.time1,
            time3: self.timers.time3,
            time4: self.timers.time4,
            time5: self.timers.time5,
            mark: self.timers.mark,
        };
        Ok(Processor {
            store,
            channels: self.channels,
            hand: self.hand,
            extracode: self.extracode,
            uninterruptible: self.uninterruptible,
            inhibited: self.inhibited,
            serving: self.serving,
            requests: self.requests,
            timers,
        })
    }

    /// Reads a word; an editing register edits it again.
    #[inline]
    pub(crate) fn read_again(&mut self, k: Addr) -> Wide
        ensures word { result ≡ read_of self.old.store k }
        ensures after { self.new ≡ edit_again k self.old }
    {
        self.store.read_and_edit(k)
    }

    /// Skips the next `count` orders.
    #[inline]
    pub(crate) fn skip(&mut self, count: u8)
        ensures { self.new ≡ skip count self.old }
    {
        let z = self.store.z();
        self.store.set_z(z.skip(count));
    }

    /// Fetches the word at Z, and increments Z.
    #[inline]
    #[tactic(auto, unfolding(crate::specs::Processor::fetched))]
    pub(crate) fn fetch_next(&mut self)
        ensures { self.new ≡ fetched self.old }
    {
        let z = self.store.z();
        self.hand = self.store.fetch(z);
        self.store.set_z(z.next());
    }

    /// Returns whether the address names this erasable cell.
    #[inline]
    pub(crate) fn names(&self, cell: u16, k: Addr) -> bool
        ensures { result ≡ names cell k self.now }
    {
        self.store.named_cell(k) == Some(cell)
    }

    /// Returns whether the address names A or Q.
    #[inline]
    pub(crate) fn names_wide(&self, k: Addr) -> bool
        ensures { result ≡ names_wide k self.now }
    {
        self.names(A, k) || self.names(Q, k)
    }
}
