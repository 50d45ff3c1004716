//! The key ring: carries keys from the display's thread to the machine's, with the tape of the keys
//! that the machine took.
ghost use Rattle.std.specs.Prelude.{◌≡◌, ◌<◌, ◌≤◌, [], ◌++◌, map, length, drop, IfOk, IfSome};
ghost use Rattle.agc_pipe.specs.Keys.{key_in};
ghost use Rattle.agc_machine.specs.Taken.{AreApart};

use crate::feed::Feed;
use agc_machine::Machine;
use agc_ring::Gate;
use agc_script::{Key, Tape};
use rtrb::{Consumer, Producer, RingBuffer};
use std::alloc::{AllocError, Global};
use std::marker::Model;
use std::sync::Arc;
use std::sync::atomic::{AtomicBool, Ordering};

/// The number of slots of the key ring.
const KEY_SLOTS: usize = 64;

/// Machine cycles between two looks for a key.
const LOOK: u64 = 256;

/// The end that the display's thread feeds, with the keys of the run.
#[derive(Drop)]
pub(crate) struct KeyFeed {
    producer: Producer<Key, Global>,
    keys: Vec<Key>,
    /// How many of the keys were put into the ring.
    fed: usize,
    /// Set when the machine has stopped and takes no more keys.
    over: Arc<AtomicBool, Global>,
}

impl Model for KeyFeed {
    ghost use Rattle.agc_pipe.specs.Keys.{Feeding};

    ghost Value = { Feeding };

    ghost use Rattle.std.specs.Prelude.{◌≡◌, ◌≤◌, take, length};
    ghost use Rattle.rtrb.specs.Ring.{sent};
    ghost use Rattle.agc_ring.specs.Ring.{ring_of};

    ghost view = { λ f. record { ring = ring_of f.producer.end; keys = f.keys.items } };

    ghost invariant = { λ f. (f.fed ≤ length f.keys.items)
        × (sent f.producer ≡ take f.fed f.keys.items) };
}

impl Feed for KeyFeed {
    /// Puts the next key into the ring, if there is one and the ring has room, and calls the gate.
    fn offer<G: Gate>(&mut self, gate: &G) {
        if self.fed == self.keys.len() || self.over.load(Ordering::SeqCst) {
            return;
        }
        if self.producer.push(self.keys[self.fed]).is_ok() {
            self.fed += 1;
            gate.key_sent(self.fed as u64);
        }
    }
}

/// The end at which the machine takes keys, with the tape of the keys taken.
#[derive(Drop)]
pub(crate) struct KeyTaker {
    consumer: Consumer<Key, Global>,
    tape: Tape,
    /// The least number of cycles between two keys.
    spacing: u64,
    /// The tape ran out of memory; no key was taken since.
    refused: bool,
    /// The cycle before which no key is looked for.
    next_look: u64,
    over: Arc<AtomicBool, Global>,
}

impl Model for KeyTaker {
    ghost use Rattle.agc_pipe.specs.Keys.{Taking};

    ghost Value = { Taking };

    ghost use Rattle.std.specs.Prelude.{◌≡◌, ◌<◌, false, map};
    ghost use Rattle.rtrb.specs.Ring.{received};
    ghost use Rattle.agc_machine.specs.Taken.{AreApart};
    ghost use Rattle.agc_ring.specs.Ring.{ring_of};
    ghost use Rattle.agc_pipe.specs.Keys.{key_in};

    ghost view = { λ t. record { ring = ring_of t.consumer.end; spacing = t.spacing; tape = t.tape; refused = t.refused } };

    ghost invariant = { λ t. (0 < t.spacing) × AreApart t.spacing t.tape
        × (t.refused ≡ false → map key_in t.tape ≡ received t.consumer) };
}

/// Makes a key ring: one end with the keys to feed, one with an empty tape.
pub(crate) fn link_keys(
    alloc: Global,
    keys: Vec<Key>,
    spacing: u64,
) -> Result<(KeyFeed, KeyTaker), AllocError>
    requires { 0 < spacing }
    ensures ring { IfOk result (λ ends. ends.0.ring ≡ ends.1.ring) }
    ensures keys { IfOk result (λ ends. ends.0.keys ≡ keys.items) }
    ensures taker { IfOk result (λ ends. (ends.1.spacing ≡ spacing) × (ends.1.tape ≡ [])) }
{
    let over = Arc::new(alloc, AtomicBool::new(false))?;
    let seen = Arc::try_clone(&over)?;
    let (producer, consumer) = RingBuffer::new(alloc, KEY_SLOTS)?;
    let feed = KeyFeed {
        producer,
        keys,
        fed: 0,
        over: seen,
    };
    let taker = KeyTaker {
        consumer,
        tape: Tape::new(alloc),
        spacing,
        refused: false,
        next_look: 0,
        over,
    };
    Ok((feed, taker))
}

impl KeyTaker {
    ghost use Rattle.std.specs.Prelude.{◌≡◌, ◌+◌, ◌-◌, ◌≤◌, ◌↔◌, [], ◌∷◌, ◌++◌, length, slice_get};
    ghost use Rattle.std.specs.Prelude.{IfSome, IfNone, IsTrue};
    ghost use Rattle.agc_machine.specs.Boundary.{WantsKey};

    /// Takes the next key, if it is time to look for one, the machine wants one, the last one is
    /// far enough back and one has arrived. It is then on the tape, at the machine's cycle.
    pub(crate) fn take(&mut self, machine: &Machine) -> Option<Key>
        ensures some { IfSome result
            (λ key. self.new ≡ record self.old {
              tape = self.old.tape
                  ++ (machine.now.cycle, key) ∷ [];
            }) }
        ensures wanted { IfSome result (λ key. WantsKey machine.now) }
        ensures none { IfNone result (self.new ≡ record self.old { refused = self.new.refused }) }
    {
        let cycle = machine.cycle();
        if cycle < self.next_look {
            return None;
        }
        self.next_look = cycle.saturating_add(LOOK);
        if self.refused || !machine.wants_key() || !self.is_far_enough(cycle) {
            return None;
        }
        let Ok(key) = self.consumer.pop() else {
            return None;
        };
        match self.tape.push(cycle, key) {
            Ok(()) => Some(key),
            Err(_) => {
                self.refused = true;
                None
            }
        }
    }

    /// Returns the cycle at which the machine looks for a key again.
    pub(crate) fn next_look(&self) -> u64 {
        self.next_look
    }

    /// Ends the feeding: the machine has stopped.
    pub(crate) fn close(&self) {
        self.over.store(true, Ordering::SeqCst);
    }

    /// Returns whether no key was taken yet, or the last one at least `spacing` cycles before this cycle.
    fn is_far_enough(&self, cycle: u64) -> bool
        ensures { IsTrue result ↔ IfSome (slice_get self.now.tape (length self.now.tape - 1))
            (λ last. last.0 + self.now.spacing ≤ cycle) }
    {
        let count = self.tape.len();
        if count == 0 {
            return true;
        }
        let (last, _) = self.tape.at(count - 1);
        cycle >= last && cycle - last >= self.spacing
    }
}

/// Returns the tape, and the keys that were not taken; `None` if the tape ran out of memory.
pub(crate) fn part_keys(feed: KeyFeed, taker: KeyTaker) -> Option<(Tape, Vec<Key>)>
    requires { feed.ring ≡ taker.ring }
    ensures tape { IfSome result (λ parts. parts.0 ≡ taker.tape) }
    ensures apart { IfSome result (λ parts. AreApart taker.spacing parts.0) }
    ensures rest { IfSome result (λ parts. map key_in parts.0 ++ parts.1.items ≡ feed.keys) }
{
    let KeyFeed {
        mut producer,
        keys,
        ..
    } = feed;
    let KeyTaker {
        mut consumer,
        tape,
        refused,
        ..
    } = taker;
    if refused {
        return None;
    }
    consumer.slots_beside(&mut producer);
    let rest = without_first(keys, tape.len());
    Some((tape, rest))
}

/// Removes the first `count` keys.
fn without_first(mut keys: Vec<Key>, count: usize) -> Vec<Key>
    requires { count ≤ length keys.items }
    ensures { result.items ≡ drop count keys.items }
{
    drop(keys.drain(..count));
    keys
}
