//! The extracodes on A, L, Q and a memory word, up to the fetch of the next order.
use crate::processor::Processor;
use crate::signs::{is_minus, is_zero};
use agc_store::Addr;
use agc_word::{Narrow, Wide, complement, modular_difference, product, quotient, sum, widen};

impl Processor {
    ghost use Rattle.std.specs.Prelude.{◌≡◌, ◌<◌, Some, None, true, false};
    ghost use Rattle.agc_processor.specs.Extra.{dv_of, in_a_and_l, msu_of, qxch_of, aug_of, dim_of, su_of, mp_of};

    /// Divides A and L. If there is no quotient, nothing changes.
    #[inline(never)]
    #[tactic(auto, unfolding(crate::specs::Extra::dv_of))]
    pub(crate) fn dv(&mut self, k: Addr) -> bool
        ensures divided { result ≡ true → dv_of k self.old ≡ Some self.new }
        ensures undefined { result ≡ false → dv_of k self.old ≡ None }
        ensures unchanged { result ≡ false → self.new ≡ self.old }
    {
        let divisor = self.store.read(k).narrow();
        let Some(words) = quotient(self.store.a().narrow(), self.store.l(), divisor) else {
            return false;
        };
        self.set_a_and_l(words);
        true
    }

    #[inline]
    fn set_a_and_l(&mut self, words: (Narrow, Narrow))
        ensures { self.new ≡ in_a_and_l self.old words }
    {
        self.store.set_a(widen(words.0));
        self.store.set_l(words.1);
    }

    #[inline(never)]
    #[tactic(auto, unfolding(crate::specs::Extra::msu_of))]
    pub(crate) fn msu(&mut self, k: Addr)
        ensures { self.new ≡ msu_of k self.old }
    {
        let x = self.read_again(k);
        let a = self.store.a();
        self.store.set_a(modular_difference(a.narrow(), x.narrow()));
    }

    #[tactic(auto, unfolding(crate::specs::Extra::qxch_of))]
    pub(crate) fn qxch(&mut self, k: Addr)
        requires { k < 0o2000 }
        ensures { self.new ≡ qxch_of k self.old }
    {
        let x = self.store.read(k);
        let q = self.store.q();
        self.store.write(k, q);
        self.store.set_q(x);
    }

    #[tactic(auto, unfolding(crate::specs::Extra::aug_of))]
    pub(crate) fn aug(&mut self, k: Addr)
        requires { k < 0o2000 }
        ensures { self.new ≡ aug_of k self.old }
    {
        let x = self.store.read(k);
        let growth = if is_minus(x) {
            Wide::MINUS_ONE
        } else {
            Wide::PLUS_ONE
        };
        self.store.write(k, sum(x, growth));
    }

    #[tactic(auto, unfolding(crate::specs::Extra::dim_of))]
    pub(crate) fn dim(&mut self, k: Addr)
        requires { k < 0o2000 }
        ensures { self.new ≡ dim_of k self.old }
    {
        let x = self.store.read(k);
        if is_zero(x) {
            return;
        }
        let loss = if is_minus(x) {
            Wide::PLUS_ONE
        } else {
            Wide::MINUS_ONE
        };
        self.store.write(k, sum(x, loss));
    }

    #[tactic(auto, unfolding(crate::specs::Extra::su_of))]
    pub(crate) fn su(&mut self, k: Addr)
        ensures { self.new ≡ su_of k self.old }
    {
        let x = self.read_again(k);
        let a = self.store.a();
        self.store.set_a(sum(a, complement(x)));
    }

    #[inline(never)]
    #[tactic(auto, unfolding(crate::specs::Extra::mp_of))]
    pub(crate) fn mp(&mut self, k: Addr)
        ensures { self.new ≡ mp_of k self.old }
    {
        let x = self.store.read(k);
        let words = product(self.store.a().narrow(), x.narrow());
        self.set_a_and_l(words);
    }
}
