//! Records the frames of a run while it proceeds.
ghost use Rattle.std.specs.Prelude.{◌≡◌, IfOk, OnOk};

use crate::frame::Frame;
use agc_panel::Panel;
use agc_word::ChannelWrite;
use std::alloc::{AllocError, Global};

/// A recorder: the frames so far, and the panel of all writes so far.
#[derive(Debug, Drop)]
pub(crate) struct Recorder {
    pub(crate) panel: Panel,
    pub(crate) frames: Vec<Frame>,
}

impl Recorder {
    ghost use Rattle.std.specs.Prelude.{◌≡◌, [], ◌∷◌, ◌++◌, ℕ, List, IfOk, OnOk};
    ghost use Rattle.agc_word.specs.declared.channel_write.ChannelWrite.{ChannelWrite};
    ghost use Rattle.agc_panel.specs.Face.{panel_of};
    ghost use Rattle.agc_timeline.specs.Run.{HasTaken};

    /// Creates a recorder for a film that begins at `cycle` with this panel. Fails if memory runs out.
    pub(crate) fn new(alloc: Global, cycle: u64, panel: Panel) -> Result<Recorder, AllocError>
        ensures { IfOk result (λ recorder. (before : List ChannelWrite) → panel ≡ panel_of before
            → HasTaken cycle before [] recorder) }
    {
        let mut frames = Vec::new(alloc);
        if !Panel::new().shows_same(&panel) {
            frames.push(Frame {
                cycle,
                written: None,
                panel,
            })?;
        }
        Ok(Recorder { panel, frames })
    }

    /// Records the next write: adds a frame if it changes what the panel shows. Fails if memory runs out.
    pub(crate) fn take(&mut self, write: &ChannelWrite) -> Result<(), AllocError>
        ensures { OnOk result ((from : ℕ) (before taken : List ChannelWrite)
            → HasTaken from before taken self.old
            → HasTaken from before (taken ++ write.now ∷ []) self.new) }
    {
        if !self.panel.update(write) {
            return Ok(());
        }
        self.frames.push(Frame {
            cycle: write.cycle,
            written: Some(*write),
            panel: self.panel,
        })?;
        Ok(())
    }
}
