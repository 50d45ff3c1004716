//! The panel, updated write by write.
ghost use Rattle.std.specs.Prelude.{◌≡◌, List, [], ◌∷◌, ◌++◌, IfOk, map, not, string_bytes};
ghost use Rattle.agc_word.specs.declared.channel_write.ChannelWrite.{ChannelWrite};
ghost use Rattle.agc_panel.specs.Face.{face_after, panel_of};
ghost use Rattle.agc_panel.specs.Text.{panel_lines, panel_text, shows_same};

use crate::face::Face;
use crate::text::{lines_of, text_of};
use agc_word::ChannelWrite;
use std::alloc::{AllocError, Global};
use std::marker::Model;

/// The panel of the keyboard unit. Contracts see what it shows, a `Face`.
#[derive(Clone, Copy, Debug, PartialEq, Eq)]
pub struct Panel {
    face: Face,
}

impl Model for Panel {
    ghost use Rattle.agc_panel.specs.declared.face.Face.{Face};

    ghost Value = { Face };

    ghost view = { λ panel. panel.face };

    ghost inverse = { λ shown. record { face = shown } };
}

impl Panel {
    /// Returns the panel before any write: every digit blank, every sign and lamp and the flash off.
    #[tactic(auto, unfolding(crate::specs::Face::face_after, crate::specs::Face::pair_after, crate::specs::Face::blank_face, crate::specs::Field::field_after))]
    pub fn new() -> Panel
        ensures { result ≡ panel_of [] }
    {
        Panel {
            face: Face::blank(),
        }
    }

    /// Takes one channel write: each field that it names gets the write's value, all others stay. A
    /// write names a field if its channel and, on channel 10 octal, its row are the field's own.
    #[tactic(auto, using(crate::proofs::Taken::takes_all))]
    pub fn take(&mut self, write: &ChannelWrite)
        ensures named { self.new ≡ face_after self.old (write.now ∷ []) }
        ensures all { (taken : List ChannelWrite) → self.old ≡ panel_of taken
            → self.new ≡ panel_of (taken ++ write.now ∷ []) }
    {
        self.face.take(write);
    }

    /// Takes one channel write, as `take` does. Returns whether the panel then shows something else:
    /// its text is not what it was.
    #[inline(always)]
    #[tactic(auto, using(crate::proofs::Taken::takes_all))]
    pub fn update(&mut self, write: &ChannelWrite) -> bool
        ensures named { self.new ≡ face_after self.old (write.now ∷ []) }
        ensures all { (taken : List ChannelWrite) → self.old ≡ panel_of taken
            → self.new ≡ panel_of (taken ++ write.now ∷ []) }
        ensures changed { result ≡ not (shows_same self.old self.new) }
    {
        self.face.update(write)
    }

    /// Prints the panel: eight lines, each ended by a line feed. Fails when memory runs out.
    pub fn text(&self, alloc: Global) -> Result<String, AllocError>
        ensures { IfOk result (λ text. string_bytes text ≡ panel_text self.now) }
    {
        text_of(alloc, &self.face)
    }

    /// Prints the same lines one by one, each ended by a line feed. Fails when memory runs out.
    pub fn lines(&self, alloc: Global) -> Result<Vec<String>, AllocError>
        ensures { IfOk result (λ lines. map string_bytes lines.items ≡ panel_lines self.now) }
    {
        lines_of(alloc, &self.face)
    }

    /// Returns whether two panels show the same: their texts are equal.
    pub fn shows_same(&self, other: &Panel) -> bool
        ensures { result ≡ shows_same self.now other.now }
    {
        self.face.shows_same(&other.face)
    }

    /// Returns what the panel shows.
    pub fn face(&self) -> Face
        ensures { result ≡ self.now }
    {
        self.face
    }
}
