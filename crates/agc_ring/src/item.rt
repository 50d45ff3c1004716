//! The items that go through the ring.
use agc_word::ChannelWrite;
use rtrb::Protocol;

/// A channel write of the run, or the end after all writes.
#[derive(Clone, Copy, Debug, Default, PartialEq, Eq)]
pub enum Item {
    Write(ChannelWrite),
    #[default]
    End,
}

/// The most items that go through the ring at once.
pub const BLOCK: usize = 64;

/// The ring's protocol: every write sent is to a channel from 5 to 777 octal.
#[derive(Clone, Copy)]
pub(crate) struct IoWrites;

impl Protocol<Item> for IoWrites {
    ghost use Rattle.agc_ring.specs.Item.{IsOutside};

    ghost allows = { λ before item. IsOutside item };
}
