//! The sending end of the ring.
use crate::item::{IoWrites, Item};
use rtrb::{Producer, PushError};
use std::alloc::Global;
use std::marker::Model;

/// The sending end. It may move to another thread.
#[derive(Drop)]
pub struct Sender {
    pub(crate) producer: Producer<Item, Global, IoWrites>,
}

impl Model for Sender {
    ghost use Rattle.agc_ring.specs.Ring.{Sending};

    ghost Value = { Sending };

    ghost use Rattle.std.specs.Prelude.{◌<◌, ◌≤◌};
    ghost use Rattle.rtrb.specs.Ring.{sent, producer_capacity};
    ghost use Rattle.agc_ring.specs.Ring.{ring_of};

    ghost view = { λ s. record { ring = ring_of s.producer.end; slots = producer_capacity s.producer; sent = sent s.producer } };

    ghost invariant = { λ s. (0 < producer_capacity s.producer)
        × (producer_capacity s.producer ≤ 65536) };
}

impl Sender {
    ghost use Rattle.std.specs.Prelude.{◌≡◌, ◌<◌, ◌≤◌, [], ◌∷◌, ◌++◌, length, All, OnOk, IfErr};
    ghost use Rattle.std.specs.Prelude.{IsTrue, IsFalse};
    ghost use Rattle.agc_ring.specs.Item.{IsOutside};

    /// Returns the number of slots of the ring, 1 to 65,536.
    pub fn capacity(&self) -> usize
        ensures slots { result ≡ self.now.slots }
        ensures positive { 0 < result }
        ensures bound { result ≤ 65536 }
    {
        self.producer.capacity()
    }

    /// Sends an item, or returns it if no slot is free; then nothing was sent.
    pub fn try_send(&mut self, item: Item) -> Result<(), Item>
        requires { IsOutside item }
        ensures ok { OnOk result
            (self.new ≡ record self.old { sent = self.old.sent ++ item ∷ [] }) }
        ensures err { IfErr result (λ back. (back ≡ item) × (self.new ≡ self.old)) }
    {
        match self.producer.push(item) {
            Ok(()) => Ok(()),
            Err(PushError::Full(back)) => Err(back),
        }
    }

    /// Sends all items of a block, or none if they do not all fit, and returns whether it did. A block has 1 to 64
    /// items, and no more than the ring holds.
    pub fn send_block(&mut self, items: &[Item]) -> bool
        requires nonempty { 0 < length items.now }
        requires block { length items.now ≤ 64 }
        requires fits { length items.now ≤ self.old.slots }
        requires outside { All IsOutside items.now }
        ensures sent { IsTrue result → self.new
            ≡ record self.old { sent = self.old.sent ++ items.now } }
        ensures none { IsFalse result → self.new ≡ self.old }
    {
        self.producer.push_entire_slice(items).is_ok()
    }
}
