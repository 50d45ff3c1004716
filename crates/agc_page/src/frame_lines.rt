//! Prints the frames of a film as the channel writes that made them, in blocks that a browser can read.
use crate::relay_words::{SOURCES, words_of};
use agc_panel::Panel;
use agc_timeline::Frame;
use agc_word::ChannelWrite;
use agc_word::channels::{DSALMOUT, OUT0};
use std::alloc::AllocError;

/// The number of frames in a block.
const BLOCK_FRAMES: usize = 65536;

/// Adds a line for the write of each frame, as `agc --log` prints it, in blocks of a run. Words that the panel has besides
/// stand before it, at the frame's cycle: those that give the panel at the film's first cycle, and those that changed a
/// minus relay under a plus sign.
pub(crate) fn push_frames(
    text: &mut String,
    name: &str,
    frames: &[Frame],
) -> Result<(), AllocError> {
    let mut shown = words_of(&Panel::new().face());
    for (place, frame) in frames.iter().enumerate() {
        let words = words_of(&frame.panel.face());
        push_other_words(text, frame, &shown, &words)?;
        if let Some(write) = frame.written {
            push_write(text, write)?;
        }
        if place % BLOCK_FRAMES == BLOCK_FRAMES - 1 {
            push_border(text, name)?;
        }
        shown = words;
    }
    Ok(())
}

/// Adds the words that changed, but the one that the frame's write changed.
fn push_other_words(
    text: &mut String,
    frame: &Frame,
    before: &[u16; SOURCES],
    words: &[u16; SOURCES],
) -> Result<(), AllocError> {
    let written = source_of(frame.written);
    let cycle = frame.cycle;
    for source in 0..SOURCES {
        let word = words[source];
        if word != before[source] && source != written {
            let channel = if source == 0 { DSALMOUT } else { OUT0 };
            writeln!(text, "{cycle} {channel:03o} {word:05o}")?;
        }
    }
    Ok(())
}

/// Returns the place of a write's word among the words of a panel; without a write it is beyond them.
fn source_of(write: Option<ChannelWrite>) -> usize {
    match write {
        Some(write) if write.channel == DSALMOUT => 0,
        Some(write) => usize::from(write.value.bits() >> 11),
        None => SOURCES,
    }
}

/// Adds a write.
fn push_write(text: &mut String, write: ChannelWrite) -> Result<(), AllocError> {
    let ChannelWrite {
        cycle,
        channel,
        value,
    } = write;
    writeln!(text, "{cycle} {channel:03o} {value}")
}

/// Adds the border to the next block of a run.
fn push_border(text: &mut String, name: &str) -> Result<(), AllocError> {
    writeln!(
        text,
        "</script>\n<script type=\"text/plain\" class=\"{name}\">"
    )
}
