//! Tests the ring: slots, blocks, and what is left when both ends come together.
mod live;
mod memory;
mod reported;
mod shown;

ghost use Rattle.std.specs.Prelude.{◌≡◌};
ghost use Rattle.agc_ring.specs.Item.{IsOutside};

use agc_pipe::Spacing;
use agc_ring::{Item, LinkFault, Receiver, Sender, Slots, link, rejoin};
use agc_word::{ChannelWrite, Narrow};
use arrayvec::ArrayVec;
use std::process::Abort;
use std::thread;

/// Returns a write at this cycle to channel 10 octal.
fn write(cycle: u64) -> Item
    ensures { IsOutside result }
{
    Item::Write(ChannelWrite {
        cycle,
        channel: 0o10,
        value: Narrow::PLUS_ZERO,
    })
}

/// Returns a ring of `slots` slots.
fn ring(rt: &(impl AllocGlobal + Abort), slots: usize) -> (Sender, Receiver)
    ensures ring { result.0.ring ≡ result.1.ring }
    ensures slots { result.0.slots ≡ slots }
{
    link(rt.alloc(), slots).expect(rt, "a ring")
}

/// Checks which item comes, or that none does.
fn comes(rt: &impl Abort, item: Option<Item>, wanted: Option<Item>) {
    assert_eq!(rt; item, wanted);
}

/// Two slots take two items; a third comes back, and items come out in order.
#[test]
fn ring_has_its_slots(rt: HostRuntime) {
    let (mut sender, mut receiver) = ring(&rt, 2);
    assert!(rt; sender.capacity() == 2);
    assert!(rt; sender.try_send(write(1)).is_ok());
    assert!(rt; sender.try_send(Item::End).is_ok());
    comes(&rt, sender.try_send(write(3)).err(), Some(write(3)));
    comes(&rt, receiver.try_next(), Some(write(1)));
    comes(&rt, receiver.try_next(), Some(Item::End));
    comes(&rt, receiver.try_next(), None);
}

/// Checks the fault of a number of slots.
fn refuses(rt: &impl Abort, fault: Option<LinkFault>, wanted: LinkFault) {
    assert_eq!(rt; fault, Some(wanted));
}

#[test]
fn limits_and_slots(rt: HostRuntime) {
    refuses(&rt, link(rt.alloc(), 0).err(), LinkFault::NoSlots);
    refuses(&rt, link(rt.alloc(), 65_537).err(), LinkFault::TooManySlots);
    assert!(rt; ring(&rt, 1).0.capacity() == 1);
    assert!(rt; ring(&rt, 65_536).0.capacity() == 65_536);
}

#[test]
fn slots_and_spacings_are_looked_at(rt: HostRuntime) {
    refuses(&rt, Slots::new(0).err(), LinkFault::NoSlots);
    refuses(&rt, Slots::new(65_537).err(), LinkFault::TooManySlots);
    assert!(rt; Slots::new(65_536).is_ok_and(|slots| slots.count() == 65_536));
    assert!(rt; Spacing::new(0).is_none());
    assert!(rt; Spacing::new(1).is_some_and(|spacing| spacing.cycles() == 1));
}

/// A block of 64 goes through whole, and at once.
#[test]
fn a_full_block_is_taken_at_once(rt: HostRuntime) {
    let (mut sender, mut receiver) = ring(&rt, 64);
    assert!(rt; sender.send_block(&[write(1); 64]));
    let mut block = ArrayVec::<Item, 64>::new();
    assert!(rt; receiver.next_block(&mut block) == 64);
    assert!(rt; block.as_slice() == [write(1); 64].as_slice());
}

/// If two of four slots are taken, a block of three does not fit and a block of two does. A block with room for two
/// takes two of the four, and a full block none.
#[test]
fn blocks_fit_or_wait(rt: HostRuntime) {
    let (mut sender, mut receiver) = ring(&rt, 4);
    assert!(rt; sender.send_block(&[write(1), write(2)]));
    assert!(rt; !sender.send_block(&[write(3), write(4), write(5)]));
    assert!(rt; sender.send_block(&[write(3), Item::End]));

    let mut block = ArrayVec::<Item, 64>::new();
    assert!(rt; block.try_extend_from_slice(&[Item::End; 62]).is_ok());
    assert!(rt; receiver.next_block(&mut block) == 2);
    comes(&rt, block.get(61).copied(), Some(Item::End));
    comes(&rt, block.get(62).copied(), Some(write(1)));
    comes(&rt, block.get(63).copied(), Some(write(2)));
    assert!(rt; receiver.next_block(&mut block) == 0);
    let mut rest = rejoin(sender, receiver);
    comes(&rt, rest.next(), Some(write(3)));
    comes(&rt, rest.next(), Some(Item::End));
    comes(&rt, rest.next(), None);
}

/// Another thread takes three of the five items that one thread sends; the other two are left.
#[test]
fn rest_after_rejoin(rt: HostRuntime) {
    let (sender, receiver) = ring(&rt, 8);
    let (sender, receiver) = thread::join(
        &rt,
        move || -> Sender
            ensures { result.ring ≡ sender.ring }
        { send_five(&rt, sender) },
        move || -> Receiver
            ensures { result.ring ≡ receiver.ring }
        { take_three(&rt, receiver) },
    );
    let mut rest = rejoin(sender, receiver);
    comes(&rt, rest.next(), Some(write(4)));
    comes(&rt, rest.next(), Some(write(5)));
    comes(&rt, rest.next(), None);
}

/// How often a thread of a test tries again before the test has failed.
const TURNS: u32 = 1_000_000;

fn send_five(rt: &impl Abort, mut sender: Sender) -> Sender
    ensures { result.ring ≡ sender.ring }
{
    for cycle in 1..6 {
        send(rt, &mut sender, cycle);
    }
    sender
}

fn send(rt: &impl Abort, sender: &mut Sender, cycle: u64)
    ensures { sender.new.ring ≡ sender.old.ring }
{
    for _ in 0..TURNS {
        if sender.try_send(write(cycle)).is_ok() {
            return;
        }
        thread::yield_now();
    }
    panic!(rt; "no slot became free");
}

fn take_three(rt: &impl Abort, mut receiver: Receiver) -> Receiver
    ensures { result.ring ≡ receiver.ring }
{
    for cycle in 1..4 {
        comes(rt, Some(take(rt, &mut receiver)), Some(write(cycle)));
    }
    receiver
}

fn take(rt: &impl Abort, receiver: &mut Receiver) -> Item
    ensures { receiver.new.ring ≡ receiver.old.ring }
{
    for _ in 0..TURNS {
        if let Some(item) = receiver.try_next() {
            return item;
        }
        thread::yield_now();
    }
    panic!(rt; "no item came")
}
