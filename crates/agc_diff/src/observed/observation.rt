//! What an observer sees of a run at one of its channel writes.
ghost use Rattle.std.specs.Prelude.{◌≡◌, ◌↔◌, [], ◌∷◌, IsTrue, is_some};
ghost use Rattle.agc_panel.specs.Face.{face_after};
ghost use Rattle.agc_panel.specs.Text.{panel_text};
ghost use Rattle.agc_diff.specs.Observation.{InPrint, OnChannel, look_of, seen_at, shown_at, word_of};

use agc_panel::Panel;
use agc_trace::DiffBy;
use agc_word::{ChannelWrite, Narrow};

/// What an observer sees, without the cycle.
#[derive(Clone, Copy, Debug, PartialEq, Eq)]
pub enum Observed {
    /// This word on a channel.
    Word { channel: u16, word: Narrow },
    /// This panel.
    Panel(Panel),
}

/// An observation: what is seen, and the machine cycle of the channel write that shows it.
#[derive(Clone, Copy, Debug, PartialEq, Eq)]
pub struct Observation {
    pub cycle: u64,
    pub sight: Observed,
}

/// Applies a write to the panel, and returns whether it lets an observer see something.
#[inline(always)]
#[tactic(auto, unfolding(crate::specs::Observation::shown_at))]
pub(crate) fn take_write(what: DiffBy, panel: &mut Panel, write: &ChannelWrite) -> bool
    ensures panel { panel.new ≡ face_after panel.old (write.now ∷ []) }
    ensures shown { result ≡ is_some (shown_at what panel.old write.now) }
{
    let is_changed = panel.update(write);
    match what {
        DiffBy::Writes => true,
        DiffBy::Channel(channel) => write.channel == channel,
        DiffBy::Panels => is_changed,
    }
}

/// Returns what the observer sees at a write that shows something. `panel` is the panel after the write.
pub(crate) fn seen_at(what: DiffBy, panel: &Panel, write: &ChannelWrite) -> Observation
    ensures { result ≡ seen_at what panel.now write.now }
{
    match what {
        DiffBy::Writes | DiffBy::Channel(_) => word_of(write),
        DiffBy::Panels => Observation {
            cycle: write.cycle,
            sight: Observed::Panel(*panel),
        },
    }
}

/// Returns the observation of a write's word.
fn word_of(write: &ChannelWrite) -> Observation
    ensures { result ≡ word_of write.now }
{
    Observation {
        cycle: write.cycle,
        sight: Observed::Word {
            channel: write.channel,
            word: write.value,
        },
    }
}

/// Returns whether two sights are alike: the same word on the same channel, or panels that show the same.
pub(crate) fn are_alike(left: Observed, right: Observed) -> bool
    ensures { IsTrue result ↔ (look_of left ≡ look_of right) }
{
    match left {
        Observed::Word { channel, word } => is_word(right, channel, word),
        Observed::Panel(panel) => shows_panel(right, &panel),
    }
}

/// Returns whether a sight is this word on this channel.
fn is_word(sight: Observed, on: u16, wanted: Narrow) -> bool
    ensures { IsTrue result ↔ (OnChannel on wanted ≡ look_of sight) }
{
    match sight {
        Observed::Word { channel, word } => channel == on && word == wanted,
        Observed::Panel(_) => false,
    }
}

/// Returns whether a sight is a panel that shows the same as this one.
fn shows_panel(sight: Observed, wanted: &Panel) -> bool
    ensures { IsTrue result ↔ (InPrint (panel_text wanted.now) ≡ look_of sight) }
{
    match sight {
        Observed::Word { .. } => false,
        Observed::Panel(panel) => wanted.shows_same(&panel),
    }
}
