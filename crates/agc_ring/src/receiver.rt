//! The receiving end of the ring.
use crate::item::{BLOCK, IoWrites, Item};
use arrayvec::ArrayVec;
use rtrb::Consumer;
use std::alloc::Global;
use std::marker::Model;

/// The receiving end. It may move to another thread.
#[derive(Drop)]
pub struct Receiver {
    pub(crate) consumer: Consumer<Item, Global, IoWrites>,
}

impl Model for Receiver {
    ghost use Rattle.agc_ring.specs.Ring.{Receiving};

    ghost Value = { Receiving };

    ghost use Rattle.rtrb.specs.Ring.{received};
    ghost use Rattle.agc_ring.specs.Ring.{ring_of};

    ghost view = { λ r. record { ring = ring_of r.consumer.end; received = received r.consumer } };
}

impl Receiver {
    ghost use Rattle.std.specs.Prelude.{◌≡◌, ◌≤◌, ◌+◌, [], ◌∷◌, ◌++◌, All, IfSome, IfNone, drop, length, take};
    ghost use Rattle.arrayvec.specs.ArrayVec.{array_vec_len};
    ghost use Rattle.agc_ring.specs.Item.{IsOutside};

    /// Returns the next item, if one has arrived.
    pub fn try_next(&mut self) -> Option<Item>
        ensures some { IfSome result
            (λ item. self.new ≡ record self.old { received = self.old.received ++ item ∷ [] }) }
        ensures outside { IfSome result IsOutside }
        ensures none { IfNone result (self.new ≡ self.old) }
    {
        self.consumer.pop().ok()
    }

    /// Returns whether no item has arrived. No contract speaks of the result, because an item may arrive at any time.
    pub fn is_empty(&mut self) -> bool
        ensures { self.new ≡ self.old }
    {
        self.consumer.is_empty()
    }

    /// Takes the next items into a slice, as many as have arrived and fit, and returns their number.
    pub fn next_items(&mut self, items: &mut [Item]) -> usize
        ensures received { self.new
            ≡ record self.old { received = self.old.received ++ take result items.new } }
        ensures count { result ≤ length items.old }
        ensures outside { All IsOutside (take result items.new) }
    {
        self.consumer.pop_partial_slice(items)
    }

    /// Appends the next items to a block, as many as have arrived and fit, and returns their
    /// number.
    pub fn next_block(&mut self, block: &mut ArrayVec<Item, 64>) -> usize
        ensures received { self.new
            ≡ record self.old {
              received = self.old.received
                  ++ drop (array_vec_len block.old) block.new.items;
            } }
        ensures block { block.new.items ≡ block.old.items
            ++ drop (array_vec_len block.old) block.new.items }
        ensures count { array_vec_len block.new ≡ array_vec_len block.old + result }
        ensures outside { All IsOutside (drop (array_vec_len block.old) block.new.items) }
    {
        let mut items = [Item::End; BLOCK];
        let room = block.remaining_capacity();
        let count = self.next_items(&mut items[..room]);
        match block.try_extend_from_slice(&items[..count]) {
            Ok(()) => count,
            Err(_) => unreachable!(),
        }
    }
}
