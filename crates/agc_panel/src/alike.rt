//! Compares what two panels show, field by field.
ghost use Rattle.std.specs.Prelude.{◌≡◌, [], ◌∷◌, Decides, not};
ghost use Rattle.agc_panel.specs.Face.{face_after};
ghost use Rattle.agc_panel.specs.Lamp.{is_lit};
ghost use Rattle.agc_panel.specs.Laws.{ShowSame, ShowSameRegister};
ghost use Rattle.agc_panel.specs.Text.{shows_same};
ghost use Rattle.agc_panel.specs.declared.lamp.Lamp.{Lamp};

use crate::face::{Face, Pair, Register};
use crate::lamp::Lamps;
use agc_word::ChannelWrite;

impl Face {
    /// Takes a write, and returns whether the face then shows something else.
    #[inline(always)]
    pub(crate) fn update(&mut self, write: &ChannelWrite) -> bool
        ensures face { self.new ≡ face_after self.old (write.now ∷ []) }
        ensures changed { result ≡ not (shows_same self.old self.new) }
    {
        !self.ignores(write) && self.take_and_compare(write)
    }

    fn take_and_compare(&mut self, write: &ChannelWrite) -> bool
        ensures face { self.new ≡ face_after self.old (write.now ∷ []) }
        ensures changed { result ≡ not (shows_same self.old self.new) }
    {
        let before = *self;
        self.take(write);
        !before.shows_same(self)
    }

    /// Returns whether two faces show the same: their texts are equal.
    pub(crate) fn shows_same(&self, other: &Face) -> bool
        ensures { result ≡ shows_same self.now other.now }
    {
        has_same_fields(self, other)
    }
}

/// Returns whether two faces have the same digits, signs, flash and lamps.
fn has_same_fields(one: &Face, other: &Face) -> bool
    ensures { Decides result (ShowSame one.now other.now) }
{
    is_same_pair(one.program, other.program)
        && is_same_pair(one.verb, other.verb)
        && is_same_pair(one.noun, other.noun)
        && is_same_register(&one.r1, &other.r1)
        && is_same_register(&one.r2, &other.r2)
        && is_same_register(&one.r3, &other.r3)
        && one.flash == other.flash
        && are_same_lamps(one.lamps, other.lamps)
}

/// Returns whether two pairs of digits are the same.
fn is_same_pair(one: Pair, other: Pair) -> bool
    ensures { Decides result (one ≡ other) }
{
    one.left == other.left && one.right == other.right
}

/// Returns whether two registers show the same sign and digits.
fn is_same_register(one: &Register, other: &Register) -> bool
    ensures { Decides result (ShowSameRegister one.now other.now) }
{
    one.sign() == other.sign()
        && one.d1 == other.d1
        && one.d2 == other.d2
        && one.d3 == other.d3
        && one.d4 == other.d4
        && one.d5 == other.d5
}

/// Returns whether the same lamps are on.
fn are_same_lamps(one: Lamps, other: Lamps) -> bool
    ensures { Decides result ((lamp : Lamp) → is_lit one lamp ≡ is_lit other lamp) }
{
    one == other
}
