//! Runs the order in hand: one jump by the word's code, then each order's own path to the next.
ghost use Rattle.std.specs.Prelude.{◌≡◌, ◌<◌, ◌^◌, ◌%◌, Bool};

use crate::processor::{Halt, Processor, Ran, WRITE_MCT};
use crate::signs::{is_minus_or_plus_zero, is_zero};
use agc_order::{Basic, Extracode};
use agc_store::Addr;
use agc_word::FIRST_IO_CHANNEL;

impl Processor {
    ghost use Rattle.agc_processor.specs.Keeps.{Keeps};
    ghost use Rattle.agc_processor.specs.Processor.{jump};
    ghost use Rattle.agc_processor.specs.Effect.{basic_effect, extracode_effect, order_effect, IsOrderly, long_address, short_address, channel_number, branches, ends, shows};

    /// Returns the order's address of twelve bits.
    #[inline(always)]
    pub(crate) fn long_address(&self) -> Addr
        ensures { result ≡ long_address self.now }
    {
        Addr::of_word(self.hand)
    }

    /// Returns the order's address of ten bits.
    #[inline(always)]
    pub(crate) fn short_address(&self) -> Addr
        ensures address { result ≡ short_address self.now }
        ensures erasable { result < 0o2000 }
    {
        Addr::of_word(self.hand).low_ten()
    }

    /// Returns the order's channel.
    #[inline(always)]
    pub(crate) fn channel_number(&self) -> u16
        ensures channel { result ≡ channel_number self.now }
        ensures range { result < 0o1000 }
    {
        self.hand.bits() % 0o1000
    }

    /// Ends an order: fetches the next one, a basic order.
    #[inline]
    fn end(&mut self, cycles: u64) -> Ran
        ensures { (self.new, result) ≡ ends cycles self.old }
    {
        self.extracode = false;
        self.uninterruptible = false;
        self.fetch_next();
        Ran::Quiet(cycles)
    }

    /// Ends an order that wrote a channel, and reports the write if the outside sees the channel.
    #[inline]
    fn end_write(&mut self, h: u16) -> Ran
        requires { h < 0o1000 }
        ensures { (self.new, result) ≡ shows h self.old }
    {
        let value = self.channel_cell(h);
        let quiet = self.end(WRITE_MCT);
        if h < FIRST_IO_CHANNEL {
            quiet
        } else {
            Ran::Wrote(h, value)
        }
    }

    /// Ends an order that has already fetched the next one.
    #[inline]
    fn go_on(&mut self, extracode: bool, uninterruptible: bool, cycles: u64) -> Ran
        ensures state { self.new ≡ record self.old { extracode = extracode; uninterruptible = uninterruptible } }
        ensures quiet { result ≡ Ran.Quiet cycles }
    {
        self.extracode = extracode;
        self.uninterruptible = uninterruptible;
        Ran::Quiet(cycles)
    }

    /// Jumps in one cycle if the test holds; otherwise takes two cycles.
    #[inline]
    fn branch(&mut self, test: bool) -> Ran
        ensures { (self.new, result) ≡ branches test self.old }
    {
        if test {
            self.end_at(self.long_address())
        } else {
            self.end(2)
        }
    }

    /// Ends a jump, which takes one cycle: fetches the order at the address, a basic order.
    #[inline]
    #[tactic(auto, unfolding(crate::specs::Processor::fetched))]
    fn end_at(&mut self, k: Addr) -> Ran
        ensures { (self.new, result) ≡ ends 1 (jump k self.old) }
    {
        self.extracode = false;
        self.uninterruptible = false;
        self.hand = self.store.fetch_at(k);
        Ran::Quiet(1)
    }

    /// Runs the order in hand, which begins at this cycle.
    #[inline(always)]
    #[tactic(auto, unfolding(crate::specs::Effect::order_effect))]
    pub fn run(&mut self, cycle: u64) -> Ran
        requires { cycle < 2 ^ 41 }
        ensures effect { (self.new, result) ≡ order_effect cycle self.old }
        ensures orderly { IsOrderly result }
        ensures keeps { Keeps self.old (self.new, result) }
    {
        if self.extracode {
            self.run_extracode(Extracode::named_by(self.hand), cycle)
        } else {
            self.run_basic(Basic::named_by(self.hand))
        }
    }

    #[inline(always)]
    #[tactic(auto, unfolding(crate::specs::Effect::basic_effect, crate::specs::Basic::tcf_of))]
    fn run_basic(&mut self, order: Basic) -> Ran
        ensures effect { (self.new, result) ≡ basic_effect order self.old }
        ensures orderly { IsOrderly result }
    {
        match order {
            Basic::Tc => {
                self.tc(self.long_address());
                self.go_on(false, false, 1)
            }
            Basic::Relint => {
                self.inhibited = false;
                self.end(1)
            }
            Basic::Inhint => {
                self.inhibited = true;
                self.end(1)
            }
            Basic::Extend => {
                self.fetch_next();
                self.go_on(true, true, 1)
            }
            Basic::Ccs => {
                self.ccs(self.short_address());
                self.end(2)
            }
            Basic::Tcf => self.end_at(self.long_address()),
            Basic::Das => {
                self.das(self.short_address());
                self.end(3)
            }
            Basic::Lxch => {
                self.lxch(self.short_address());
                self.end(2)
            }
            Basic::Incr => {
                self.incr(self.short_address());
                self.end(2)
            }
            Basic::Ads => {
                self.ads(self.short_address());
                self.end(2)
            }
            Basic::Ca => {
                self.ca(self.long_address());
                self.end(2)
            }
            Basic::Cs => {
                self.cs(self.long_address());
                self.end(2)
            }
            Basic::Index => {
                self.index(self.short_address());
                self.go_on(false, true, 2)
            }
            Basic::Resume => {
                self.resume();
                self.go_on(false, false, 2)
            }
            Basic::Dxch => {
                self.dxch(self.short_address());
                self.end(3)
            }
            Basic::Ts => {
                self.ts(self.short_address());
                self.end(2)
            }
            Basic::Xch => {
                self.xch(self.short_address());
                self.end(2)
            }
            Basic::Ad => {
                self.ad(self.long_address());
                self.end(2)
            }
            Basic::Mask => {
                self.mask(self.long_address());
                self.end(2)
            }
        }
    }

    #[inline(always)]
    #[tactic(auto, unfolding(crate::specs::Effect::extracode_effect))]
    fn run_extracode(&mut self, order: Extracode, cycle: u64) -> Ran
        requires { cycle < 2 ^ 41 }
        ensures effect { (self.new, result) ≡ extracode_effect order cycle self.old }
        ensures orderly { IsOrderly result }
    {
        match order {
            Extracode::Read => {
                self.read(cycle, self.channel_number());
                self.end(2)
            }
            Extracode::Write => {
                let h = self.channel_number();
                self.write(cycle, h);
                self.end_write(h)
            }
            Extracode::Rand => {
                self.rand(cycle, self.channel_number());
                self.end(2)
            }
            Extracode::Wand => {
                let h = self.channel_number();
                self.wand(cycle, h);
                self.end_write(h)
            }
            Extracode::Ror => {
                self.ror(cycle, self.channel_number());
                self.end(2)
            }
            Extracode::Wor => {
                let h = self.channel_number();
                self.wor(cycle, h);
                self.end_write(h)
            }
            Extracode::Rxor => {
                self.rxor(cycle, self.channel_number());
                self.end(2)
            }
            Extracode::Edrupt => Ran::Halted(Halt::Edrupt),
            Extracode::Dv => if self.dv(self.short_address()) {
                self.end(6)
            } else {
                Ran::Halted(Halt::DivisionUndefined)
            },
            Extracode::Bzf => {
                let a = self.store.a();
                self.branch(is_zero(a))
            }
            Extracode::Msu => {
                self.msu(self.short_address());
                self.end(2)
            }
            Extracode::Qxch => {
                self.qxch(self.short_address());
                self.end(2)
            }
            Extracode::Aug => {
                self.aug(self.short_address());
                self.end(2)
            }
            Extracode::Dim => {
                self.dim(self.short_address());
                self.end(2)
            }
            Extracode::Dca => {
                self.dca(self.long_address());
                self.end(3)
            }
            Extracode::Dcs => {
                self.dcs(self.long_address());
                self.end(3)
            }
            Extracode::Index => {
                self.index(self.long_address());
                self.go_on(true, true, 2)
            }
            Extracode::Su => {
                self.su(self.short_address());
                self.end(2)
            }
            Extracode::Bzmf => {
                let a = self.store.a();
                self.branch(is_minus_or_plus_zero(a))
            }
            Extracode::Mp => {
                self.mp(self.long_address());
                self.end(3)
            }
        }
    }
}
