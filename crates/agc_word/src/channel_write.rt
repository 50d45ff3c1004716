//! A channel write as the outside sees it.
use crate::narrow::Narrow;

/// One WRITE, WAND or WOR to a channel from 5 to 777 octal. A write that leaves the value unchanged counts too.
#[derive(Clone, Copy, Debug, PartialEq, Eq)]
pub struct ChannelWrite {
    /// The machine cycle at which the order began, counted from 0.
    pub cycle: u64,
    /// The channel, 5 to 777 octal.
    pub channel: u16,
    /// The channel's word after the write.
    pub value: Narrow,
}
