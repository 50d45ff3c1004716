//! Makes a ring.
ghost use Rattle.std.specs.Prelude.{◌≡◌, ◌<◌, ◌↔◌, [], IfOk, IfErr, IsErrOf};
ghost use Rattle.agc_ring.specs.declared.ring.LinkFault.TheVariants as fault;

use crate::item::{IoWrites, Item};
use crate::receiver::Receiver;
use crate::sender::Sender;
use crate::slots::Slots;
use rtrb::RingBuffer;
use std::alloc::Global;
use thiserror::Error;

/// Why no ring was made.
#[derive(Clone, Copy, Debug, Error, PartialEq, Eq)]
pub enum LinkFault {
    #[error("the ring has no slots")]
    NoSlots,
    #[error("the ring has more than 65536 slots")]
    TooManySlots,
    #[error("out of memory")]
    Memory,
}

/// Makes a ring of 1 to 65,536 slots and returns its two ends. Fails with `NoSlots` for 0, `TooManySlots` above,
/// `Memory` when memory runs out.
pub fn link(alloc: Global, slots: usize) -> Result<(Sender, Receiver), LinkFault>
    ensures ring { IfOk result (λ ends. ends.0.ring ≡ ends.1.ring) }
    ensures sender { IfOk result (λ ends. (ends.0.slots ≡ slots) × (ends.0.sent ≡ [])) }
    ensures receiver { IfOk result (λ ends. ends.1.received ≡ []) }
    ensures no_slots { IsErrOf result fault.NoSlots ↔ (slots ≡ 0) }
    ensures too_many { IsErrOf result fault.TooManySlots ↔ (65536 < slots) }
{
    link_of(alloc, Slots::new(slots)?)
}

/// Makes a ring of checked slots and returns its two ends; the only fault is `Memory`.
pub fn link_of(alloc: Global, slots: Slots) -> Result<(Sender, Receiver), LinkFault>
    ensures ring { IfOk result (λ ends. ends.0.ring ≡ ends.1.ring) }
    ensures sender { IfOk result (λ ends. (ends.0.slots ≡ slots) × (ends.0.sent ≡ [])) }
    ensures receiver { IfOk result (λ ends. ends.1.received ≡ []) }
    ensures fault { IfErr result (λ why. why ≡ fault.Memory) }
{
    match RingBuffer::with_protocol::<Global, IoWrites>(alloc, slots.count()) {
        Ok((producer, consumer)) => Ok((Sender { producer }, Receiver { consumer })),
        Err(_) => Err(LinkFault::Memory),
    }
}
