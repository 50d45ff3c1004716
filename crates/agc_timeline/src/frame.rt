//! A frame of a film.
use agc_panel::Panel;
use agc_word::ChannelWrite;

/// What the panel shows from a cycle until the next frame.
#[derive(Clone, Copy, Debug, PartialEq, Eq)]
pub struct Frame {
    /// The first cycle: that of the write, or that of the film.
    pub cycle: u64,
    /// The channel write that changed what the panel shows, or `None` for the panel with which a film begins.
    pub written: Option<ChannelWrite>,
    /// The panel after this write.
    pub panel: Panel,
}
