//! Still orders: those that change nothing but A, L, Q, Z, the order in hand and the flags between orders, and do the
//! same at every cycle. A loop of them that comes back to the same context goes on for ever.
ghost use Rattle.std.specs.Prelude.{◌≡◌};
ghost use Rattle.agc_processor.specs.Idle.{shows_cycle};

use crate::processor::Processor;
use agc_order::{Basic, Extracode};
use agc_store::Addr;
use agc_store::place::{CYR, EDOP, Z};
use agc_word::channels::{HISCALAR, LOSCALAR};
use agc_word::{Narrow, Wide};

/// The part of a processor that a still order may change.
#[derive(Clone, Copy, Debug, PartialEq, Eq)]
pub struct Context {
    pub a: Wide,
    pub l: Narrow,
    pub q: Wide,
    pub z: Wide,
    /// The order in hand.
    pub hand: Narrow,
    pub extracode: bool,
    pub uninterruptible: bool,
    pub inhibited: bool,
    pub serving: bool,
}

impl Processor {
    ghost use Rattle.agc_processor.specs.Effect.{channel_number};
    ghost use Rattle.agc_processor.specs.Idle.{context_of, edits, is_still, is_still_basic, is_still_extracode};

    /// Returns the context: the registers, the order in hand and the flags.
    pub fn context(&self) -> Context
        ensures { result ≡ context_of self.now }
    {
        Context {
            a: self.store.a(),
            l: self.store.l(),
            q: self.store.q(),
            z: self.store.read(Addr::wrapped(Z)),
            hand: self.hand,
            extracode: self.extracode,
            uninterruptible: self.uninterruptible,
            inhibited: self.inhibited,
            serving: self.serving,
        }
    }

    /// Returns whether the order in hand is still: by the table of changes it writes no cell, and edits no editing
    /// register again; it writes no channel, reads no channel of the scaler, and does not halt the machine.
    #[tactic(auto, unfolding(crate::specs::Idle::is_still))]
    pub fn is_still(&self) -> bool
        ensures { result ≡ is_still self.now }
    {
        if self.extracode {
            self.is_still_extracode(Extracode::named_by(self.hand))
        } else {
            self.is_still_basic(Basic::named_by(self.hand))
        }
    }

    #[tactic(auto, unfolding(crate::specs::Idle::is_still_basic, crate::specs::Idle::leaves_cells, crate::specs::Table::basic_row))]
    fn is_still_basic(&self, order: Basic) -> bool
        ensures { result ≡ is_still_basic order self.now }
    {
        match order {
            Basic::Tc
            | Basic::Relint
            | Basic::Inhint
            | Basic::Extend
            | Basic::Tcf
            | Basic::Resume
            | Basic::Mask => true,
            Basic::Ccs | Basic::Index => !self.edits(self.short_address()),
            Basic::Ca | Basic::Cs | Basic::Ad => !self.edits(self.long_address()),
            Basic::Das
            | Basic::Lxch
            | Basic::Incr
            | Basic::Ads
            | Basic::Dxch
            | Basic::Ts
            | Basic::Xch => false,
        }
    }

    #[tactic(auto, unfolding(crate::specs::Idle::is_still_extracode, crate::specs::Idle::is_timeless, crate::specs::Idle::leaves_cells, crate::specs::Table::extracode_row))]
    fn is_still_extracode(&self, order: Extracode) -> bool
        ensures { result ≡ is_still_extracode order self.now }
    {
        match order {
            Extracode::Bzf | Extracode::Bzmf | Extracode::Mp => true,
            Extracode::Read | Extracode::Rand | Extracode::Ror | Extracode::Rxor => !shows_cycle(
                self.channel_number(),
            ),
            Extracode::Msu | Extracode::Su => !self.edits(self.short_address()),
            Extracode::Index => !self.edits(self.long_address()),
            Extracode::Write
            | Extracode::Wand
            | Extracode::Wor
            | Extracode::Edrupt
            | Extracode::Dv => false,
            Extracode::Qxch | Extracode::Aug | Extracode::Dim | Extracode::Dca | Extracode::Dcs =>
                false,
        }
    }

    /// Returns whether an address names an editing register.
    fn edits(&self, k: Addr) -> bool
        ensures { result ≡ edits k self.now }
    {
        match self.store.named_cell(k) {
            Some(cell) => CYR <= cell && cell <= EDOP,
            None => false,
        }
    }
}

/// Returns whether a channel shows the scaler.
fn shows_cycle(h: u16) -> bool
    ensures { result ≡ shows_cycle h }
{
    h == HISCALAR || h == LOSCALAR
}
