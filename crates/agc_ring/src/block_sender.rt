//! The sending end in blocks: collects writes into blocks and sends each block whole, in order, and the end after all
//! blocks.
ghost use Rattle.std.specs.Prelude.{◌≡◌, ◌<◌, ◌≤◌, [], ◌++◌, length, All};
ghost use Rattle.agc_ring.specs.Item.{IsOutside};
ghost use Rattle.arrayvec.specs.ArrayVec.{array_vec_len};

use crate::gate::Gate;
use crate::item::{BLOCK, Item};
use crate::sender::Sender;
use agc_word::ChannelWrite;
use arrayvec::ArrayVec;
use std::marker::Model;
use std::sync::Wait;
use std::thread;

/// The sending end with the items that wait until their block is full. Waiting items count as sent.
#[derive(Drop)]
pub struct BlockSender {
    sender: Sender,
    block: ArrayVec<Item, BLOCK>,
    /// The number of items in a full block: the places of the block or of the ring, whichever is less.
    full: usize,
    /// The number of writes already announced to the gate.
    reported: u64,
}

impl Model for BlockSender {
    ghost use Rattle.agc_ring.specs.Ring.{Sending};

    ghost Value = { Sending };

    ghost use Rattle.std.specs.Prelude.{◌<◌, ◌≤◌, ◌++◌, All};
    ghost use Rattle.arrayvec.specs.ArrayVec.{array_vec_len};
    ghost use Rattle.agc_ring.specs.Item.{IsOutside};

    ghost view = { λ o. record o.sender { sent = o.sender.sent ++ o.block.items } };

    ghost invariant = { λ o. All IsOutside o.block.items × (array_vec_len o.block < o.full)
        × (o.full ≤ 64) × (o.full ≤ o.sender.slots) };
}

impl BlockSender {
    ghost use Rattle.std.specs.Prelude.{◌≡◌, ◌<◌, ◌≤◌, [], ◌∷◌, ◌++◌};
    ghost use Rattle.agc_ring.specs.Item.{IsOutside};
    ghost use Rattle.agc_ring.specs.declared.item.Item.TheVariants as item;

    /// Makes a sender for this end; nothing waits yet.
    pub fn new(sender: Sender) -> BlockSender
        ensures { result ≡ sender }
    {
        let full = BLOCK.min(sender.capacity());
        BlockSender {
            sender,
            block: ArrayVec::new(),
            full,
            reported: 0,
        }
    }

    /// Appends a write to a channel from 5 to 777 octal to the waiting items. If that fills the block, sends it as soon
    /// as the ring has room.
    pub fn put<R: Wait, G: Gate>(&mut self, rt: &R, gate: &G, write: ChannelWrite)
        requires { IsOutside (item.Write write) }
        ensures { self.new ≡ record self.old { sent = self.old.sent ++ item.Write write ∷ [] } }
    {
        self.block.push(Item::Write(write));
        if self.block.len() == self.full {
            self.reported = tell(gate, self.reported, self.block.len());
            send(rt, &mut self.sender, &mut self.block);
        }
    }

    /// Sends the waiting items and the end, as soon as the ring has room, and returns the sender.
    pub fn finish<R: Wait, G: Gate>(self, rt: &R, gate: &G) -> Sender
        ensures { result ≡ record self { sent = self.sent ++ item.End ∷ [] } }
    {
        let BlockSender {
            mut sender,
            mut block,
            reported,
            ..
        } = self;
        tell(gate, reported, block.len());
        block.push(Item::End);
        send(rt, &mut sender, &mut block);
        sender
    }
}

/// Announces this many more writes to the gate, in order; returns the number announced so far.
fn tell<G: Gate>(gate: &G, reported: u64, writes: usize) -> u64 {
    for n in 0..writes as u64 {
        gate.before_send(reported.saturating_add(n + 1));
    }
    reported.saturating_add(writes as u64)
}

/// Sends a block whole, and empties it.
fn send<R: Wait>(rt: &R, sender: &mut Sender, block: &mut ArrayVec<Item, BLOCK>)
    requires nonempty { 0 < array_vec_len block.old }
    requires fits { array_vec_len block.old ≤ sender.old.slots }
    requires outside { All IsOutside block.old.items }
    ensures sender { sender.new ≡ record sender.old { sent = sender.old.sent ++ block.old.items } }
    ensures block { block.new.items ≡ [] }
{
    send_waiting(rt, sender, block.as_slice());
    block.clear();
}

/// Waits until a block is sent.
fn send_waiting<R: Wait>(rt: &R, sender: &mut Sender, items: &[Item])
    requires nonempty { 0 < length items.now }
    requires block { length items.now ≤ 64 }
    requires fits { length items.now ≤ sender.old.slots }
    requires outside { All IsOutside items.now }
    ensures { sender.new ≡ record sender.old { sent = sender.old.sent ++ items.now } }
{
    for _ in rt.forever() {
        if sender.send_block(items) {
            return;
        }
        thread::yield_now();
    }
    unreachable!()
}
