//! The basic orders, up to the fetch of the next order.
use crate::logic::and_words;
use crate::processor::Processor;
use crate::signs::{orders_left_out, word_of_overflow};
use agc_store::Addr;
use agc_store::place::{A, BRUPT, ZRUPT};
use agc_word::{Over, Wide, complement, dabs, sum, widen};

impl Processor {
    ghost use Rattle.std.specs.Prelude.{◌≡◌, ℕ, ◌<◌, ◌+◌, ◌%◌, false};
    ghost use Rattle.agc_processor.specs.Basic.{tc_of, ccs_of, lxch_of, incr_of, ads_of, ca_of, cs_of, index_of, resume_of, ts_of, ts_with_overflow, xch_of, ad_of, mask_of};

    #[inline]
    #[tactic(auto, unfolding(crate::specs::Basic::tc_of))]
    pub(crate) fn tc(&mut self, k: Addr)
        ensures { self.new ≡ tc_of k self.old }
    {
        let z = self.store.z();
        self.hand = self.store.fetch(k);
        self.store.set_q(widen(z.word()));
        self.store.set_z(k.next());
    }

    #[inline]
    #[tactic(auto, unfolding(crate::specs::Basic::ccs_of))]
    pub(crate) fn ccs(&mut self, k: Addr)
        ensures { self.new ≡ ccs_of k self.old }
    {
        let x = self.read_again(k);
        self.store.set_a(dabs(x));
        self.skip(orders_left_out(x));
    }

    #[tactic(auto, unfolding(crate::specs::Basic::lxch_of))]
    pub(crate) fn lxch(&mut self, k: Addr)
        requires { k < 0o2000 }
        ensures { self.new ≡ lxch_of k self.old }
    {
        let x = self.store.read(k);
        let l = self.store.l();
        self.store.write(k, widen(l));
        self.store.set_l(x.narrow());
    }

    #[tactic(auto, unfolding(crate::specs::Basic::incr_of))]
    pub(crate) fn incr(&mut self, k: Addr)
        requires { k < 0o2000 }
        ensures { self.new ≡ incr_of k self.old }
    {
        let x = self.store.read(k);
        self.store.write(k, sum(x, Wide::PLUS_ONE));
    }

    #[tactic(auto, unfolding(crate::specs::Basic::ads_of))]
    pub(crate) fn ads(&mut self, k: Addr)
        requires { k < 0o2000 }
        ensures { self.new ≡ ads_of k self.old }
    {
        let total = sum(self.store.a(), self.store.read(k));
        self.store.write(k, total);
        self.store.set_a(total);
    }

    #[inline]
    #[tactic(auto, unfolding(crate::specs::Basic::ca_of))]
    pub(crate) fn ca(&mut self, k: Addr)
        ensures { self.new ≡ ca_of k self.old }
    {
        let x = self.read_again(k);
        self.store.set_a(x);
    }

    #[inline]
    #[tactic(auto, unfolding(crate::specs::Basic::cs_of))]
    pub(crate) fn cs(&mut self, k: Addr)
        ensures { self.new ≡ cs_of k self.old }
    {
        let x = self.read_again(k);
        self.store.set_a(complement(x));
    }

    #[inline(always)]
    #[tactic(auto, unfolding(crate::specs::Basic::index_of))]
    pub(crate) fn index(&mut self, k: Addr)
        ensures { self.new ≡ index_of k self.old }
    {
        let x = self.read_again(k);
        let z = self.store.z();
        let next = self.store.fetch(z);
        self.hand = sum(widen(next), x).narrow();
        self.store.set_z(z.next());
    }

    #[tactic(auto, unfolding(crate::specs::Basic::resume_of))]
    pub(crate) fn resume(&mut self)
        ensures { self.new ≡ resume_of self.old }
    {
        self.hand = self.store.cell(0, BRUPT);
        let z = Addr::of_word(self.store.cell(0, ZRUPT));
        self.serving = false;
        self.store.set_z(z);
    }

    #[inline]
    #[tactic(auto, unfolding(crate::specs::Basic::ts_of, agc_word::specs::Arithmetic::over_of))]
    pub(crate) fn ts(&mut self, k: Addr)
        requires { k < 0o2000 }
        ensures { self.new ≡ ts_of k self.old }
    {
        let a = self.store.a();
        if a.over() != Over::None {
            self.ts_with_overflow(k);
            return;
        }
        self.store.write_in_range(k, a);
    }

    /// Leaves A unchanged if K names A; otherwise stores A in K and leaves only the overflow in A.
    #[inline(never)]
    fn ts_with_overflow(&mut self, k: Addr)
        requires { k < 0o2000 }
        ensures { self.new ≡ ts_with_overflow k self.old }
    {
        let a = self.store.a();
        let stays = self.names(A, k);
        self.skip(1);
        if !stays {
            self.store.write(k, a);
            self.store.set_a(word_of_overflow(a.over()));
        }
    }

    #[tactic(auto, unfolding(crate::specs::Basic::xch_of))]
    pub(crate) fn xch(&mut self, k: Addr)
        requires { k < 0o2000 }
        ensures { self.new ≡ xch_of k self.old }
    {
        let x = self.store.read(k);
        let a = self.store.a();
        self.store.write(k, a);
        self.store.set_a(x);
    }

    #[inline]
    #[tactic(auto, unfolding(crate::specs::Basic::ad_of))]
    pub(crate) fn ad(&mut self, k: Addr)
        ensures { self.new ≡ ad_of k self.old }
    {
        let x = self.read_again(k);
        let a = self.store.a();
        self.store.set_a(sum(a, x));
    }

    #[tactic(auto, unfolding(crate::specs::Basic::mask_of))]
    pub(crate) fn mask(&mut self, k: Addr)
        ensures { self.new ≡ mask_of k self.old }
    {
        let a = self.store.a();
        let x = self.store.read(k);
        let wide = self.names_wide(k);
        self.store.set_a(and_words(wide, a, x));
    }
}
