//! Brings the two ends together again: the items sent and not received.
ghost use Rattle.std.specs.Prelude.{◌≡◌, ◌++◌};

use crate::item::{IoWrites, Item};
use crate::receiver::Receiver;
use crate::sender::Sender;
use rtrb::Consumer;
use std::alloc::Global;
use std::marker::Model;

/// The items that are still in a ring.
#[derive(Drop)]
pub struct Rest {
    consumer: Consumer<Item, Global, IoWrites>,
    left: usize,
}

impl Model for Rest {
    ghost use Rattle.std.specs.Prelude.{List};
    ghost use Rattle.agc_ring.specs.declared.item.Item.{Item};

    ghost Value = { List Item };

    ghost use Rattle.std.specs.Prelude.{◌≡◌, length};
    ghost use Rattle.rtrb.specs.Ring.{known_items};

    ghost view = { λ r. known_items r.consumer };

    ghost invariant = { λ r. r.left ≡ length (known_items r.consumer) };
}

/// Joins both ends of a ring: the items received and the items left are the items sent.
pub fn rejoin(sender: Sender, receiver: Receiver) -> Rest
    requires { sender.ring ≡ receiver.ring }
    ensures { receiver.received ++ result ≡ sender.sent }
{
    let Sender { mut producer } = sender;
    let Receiver { mut consumer } = receiver;
    let left = consumer.slots_beside(&mut producer);
    Rest { consumer, left }
}

impl Rest {
    ghost use Rattle.std.specs.Prelude.{◌≡◌, [], ◌∷◌, IfSome, IfNone};
    ghost use Rattle.agc_ring.specs.Item.{IsOutside};

    /// Returns the next item left, in the order of sending.
    pub fn next(&mut self) -> Option<Item>
        ensures some { IfSome result (λ item. self.old ≡ item ∷ self.new) }
        ensures outside { IfSome result IsOutside }
        ensures none { IfNone result ((self.old ≡ []) × (self.new ≡ [])) }
    {
        if self.left == 0 {
            return None;
        }
        self.left -= 1;
        Some(self.consumer.pop_known())
    }
}
