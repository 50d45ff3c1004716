//! The warning and caution lamps beside the digits.
ghost use Rattle.std.specs.Prelude.{◌≡◌, ◌<◌, ◌≤◌, [], ◌∷◌, length};
ghost use Rattle.agc_panel.specs.Lamp.{wiring, words_on, lamp_place, is_from, bit_given};
ghost use Rattle.agc_panel.specs.Lamp.{lamp_given, is_lit, dark_lamps, lit_after, lamps_after};
ghost use Rattle.agc_panel.specs.Lamp.{printed_order};

use crate::relay_word::row_of;
use agc_word::ChannelWrite;
use agc_word::channels::{DSALMOUT, OUT0};
use std::convert::AsStr;

/// A word whose bits light lamps.
#[derive(Clone, Copy, Debug, PartialEq, Eq)]
pub(crate) enum Source {
    /// Row 12 of the relay words, which has no digits.
    LampRow,
    /// The word of channel DSALMOUT.
    Dsalmout,
}

impl Source {
    /// Returns whether a write is such a word.
    fn is_written_by(self, write: &ChannelWrite) -> bool
        ensures { result ≡ is_from self write.now }
    {
        match self {
            Source::LampRow => write.channel == OUT0 && row_of(write.value) == 12,
            Source::Dsalmout => write.channel == DSALMOUT,
        }
    }

    /// Returns what a write sets a bit of the word to, if it writes that word.
    #[tactic(auto, unfolding(crate::specs::Lamp::bit_given))]
    pub(crate) fn bit_given(self, bit: u32, write: &ChannelWrite) -> Option<bool>
        requires counted { 1 ≤ bit }
        requires within { bit ≤ 15 }
        ensures { result ≡ bit_given self bit write.now }
    {
        if self.is_written_by(write) {
            Some(write.value.bit(bit))
        } else {
            None
        }
    }
}

/// A lamp. The variants are in print order.
#[derive(Clone, Copy, Debug, PartialEq, Eq)]
pub enum Lamp {
    CompActy,
    UplinkActy,
    NoAtt,
    Temp,
    GimbalLock,
    Prog,
    KeyRel,
    OprErr,
    Tracker,
    Alt,
    Vel,
    Iss,
}

impl Lamp {
    /// The number of lamps.
    const COUNT: usize = 12;

    /// All lamps, in print order.
    pub const PRINTED: [Lamp; Lamp::COUNT] = [
        Lamp::CompActy,
        Lamp::UplinkActy,
        Lamp::NoAtt,
        Lamp::Temp,
        Lamp::GimbalLock,
        Lamp::Prog,
        Lamp::KeyRel,
        Lamp::OprErr,
        Lamp::Tracker,
        Lamp::Alt,
        Lamp::Vel,
        Lamp::Iss,
    ];

    /// Returns the lamp's row of the wiring table: the word that lights it, its bit there, and the
    /// legend on the lamp.
    fn wiring(self) -> (Source, u32, &'static str)
        ensures source { result.0 ≡ (wiring self).source }
        ensures bit { result.1 ≡ (wiring self).bit }
        ensures words { result.2.now ≡ (wiring self).words }
        ensures counted { 1 ≤ result.1 }
        ensures within { result.1 ≤ 15 }
    {
        match self {
            Lamp::CompActy => (Source::Dsalmout, 2, "COMP ACTY"),
            Lamp::UplinkActy => (Source::Dsalmout, 3, "UPLINK ACTY"),
            Lamp::NoAtt => (Source::LampRow, 4, "NO ATT"),
            Lamp::Temp => (Source::Dsalmout, 4, "TEMP"),
            Lamp::GimbalLock => (Source::LampRow, 6, "GIMBAL LOCK"),
            Lamp::Prog => (Source::LampRow, 9, "PROG"),
            Lamp::KeyRel => (Source::Dsalmout, 5, "KEY REL"),
            Lamp::OprErr => (Source::Dsalmout, 7, "OPR ERR"),
            Lamp::Tracker => (Source::LampRow, 8, "TRACKER"),
            Lamp::Alt => (Source::LampRow, 5, "ALT"),
            Lamp::Vel => (Source::LampRow, 3, "VEL"),
            Lamp::Iss => (Source::Dsalmout, 1, "ISS"),
        }
    }

    /// Returns the legend on the lamp.
    pub fn name(self) -> &'static str
        ensures { result.now ≡ words_on self }
    {
        self.wiring().2
    }

    /// Returns what a write sets the lamp to, if it names it.
    fn given(self, write: &ChannelWrite) -> Option<bool>
        ensures { result ≡ lamp_given self write.now }
    {
        let (source, bit, _) = self.wiring();
        source.bit_given(bit, write)
    }

    /// Returns the lamp's position in print order.
    fn place(self) -> usize
        ensures place { result ≡ lamp_place self }
        ensures within { result < length printed_order }
    {
        self as usize
    }
}

impl AsStr for Lamp {
    ghost text = { words_on };

    fn as_str(&self) -> &str {
        self.name()
    }
}

/// Which lamps are on.
#[derive(Clone, Copy, Debug, PartialEq, Eq)]
pub struct Lamps {
    /// In print order.
    lit: [bool; Lamp::COUNT],
}

impl Lamps {
    /// Returns all lamps off.
    pub(crate) fn dark() -> Lamps
        ensures { result ≡ dark_lamps }
    {
        Lamps {
            lit: [false; Lamp::COUNT],
        }
    }

    /// Returns whether a lamp is on.
    pub fn is_lit(&self, lamp: Lamp) -> bool
        ensures { result ≡ is_lit self.now lamp }
    {
        self.lit[lamp.place()]
    }

    /// Returns whether a lamp is on after a write.
    #[tactic(auto, unfolding(crate::specs::Field::field_after))]
    fn lit_after(&self, lamp: Lamp, write: &ChannelWrite) -> bool
        ensures { result ≡ lit_after self.now (write.now ∷ []) lamp }
    {
        lamp.given(write).unwrap_or(self.is_lit(lamp))
    }

    /// Turns each lamp that a write names on or off, and leaves all others unchanged.
    #[tactic(auto, using(crate::proofs::LampLemmas::no_lamp_named))]
    pub(crate) fn take(&mut self, write: &ChannelWrite)
        ensures { self.new ≡ lamps_after self.old (write.now ∷ []) }
    {
        if !Source::LampRow.is_written_by(write) && !Source::Dsalmout.is_written_by(write) {
            return;
        }
        let mut lit = [false; Lamp::COUNT];
        for lamp in Lamp::PRINTED {
            lit[lamp.place()] = self.lit_after(lamp, write);
        }
        self.lit = lit;
    }
}
