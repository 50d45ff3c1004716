//! The double-word orders, which handle the lower word first.
ghost use Rattle.std.specs.Prelude.{◌≡◌, ◌<◌};
ghost use Rattle.agc_processor.specs.Double.{with_carry};

use crate::processor::Processor;
use crate::signs::word_of_overflow;
use agc_store::Addr;
use agc_word::{Narrow, Over, Wide, complement, sum, widen};

impl Processor {
    ghost use Rattle.agc_processor.specs.Double.{das_of, dxch_of, dca_of, dcs_of, das_upper};

    #[inline(never)]
    #[tactic(auto, unfolding(crate::specs::Double::das_of))]
    pub(crate) fn das(&mut self, f: Addr)
        requires { f < 0o2000 }
        ensures { self.new ≡ das_of f self.old }
    {
        let low = sum(widen(self.store.l()), self.store.read(f));
        self.store.write(f, widen(low.narrow()));
        let upper = sum(self.store.a(), self.store.read(f.previous_low_ten()));
        self.das_upper(f, add_carry(low.over(), upper));
    }

    /// Stores the upper sum of DAS, and sets what remains in A and L.
    #[inline]
    fn das_upper(&mut self, f: Addr, t: Wide)
        requires { f < 0o2000 }
        ensures { self.new ≡ das_upper f t self.old }
    {
        if f.bits() == 1 {
            self.store.set_a(t);
        } else {
            self.store.write(f.previous_low_ten(), widen(t.narrow()));
            self.store.set_l(Narrow::PLUS_ZERO);
            self.store.set_a(word_of_overflow(t.over()));
        }
    }

    #[inline(never)]
    #[tactic(auto, unfolding(crate::specs::Double::dxch_of))]
    pub(crate) fn dxch(&mut self, f: Addr)
        requires { f < 0o2000 }
        ensures { self.new ≡ dxch_of f self.old }
    {
        let u = f.previous_low_ten();
        let x = self.store.read(f);
        let l = self.store.l();
        self.store.write(f, widen(l));
        self.store.set_l(x.narrow());
        let y = self.store.read(u);
        let a = self.store.a();
        self.store.write(u, a);
        self.store.set_a(y);
    }

    #[inline(never)]
    #[tactic(auto, unfolding(crate::specs::Double::dca_of))]
    pub(crate) fn dca(&mut self, f: Addr)
        ensures { self.new ≡ dca_of f self.old }
    {
        let x = self.read_again(f);
        self.store.set_l(x.narrow());
        let y = self.read_again(f.previous());
        self.store.set_a(y);
    }

    #[inline(never)]
    #[tactic(auto, unfolding(crate::specs::Double::dcs_of))]
    pub(crate) fn dcs(&mut self, f: Addr)
        ensures { self.new ≡ dcs_of f self.old }
    {
        let x = self.read_again(f);
        self.store.set_l(complement(x).narrow());
        let y = self.read_again(f.previous());
        self.store.set_a(complement(y));
    }
}

/// Returns an upper sum plus the carry from the lower word's overflow.
fn add_carry(low: Over, t: Wide) -> Wide
    ensures { result ≡ with_carry low t }
{
    match low {
        Over::None => t,
        Over::Plus => sum(t, Wide::PLUS_ONE),
        Over::Minus => sum(t, Wide::MINUS_ONE),
    }
}
