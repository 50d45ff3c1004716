//! Gates at which the two threads wait for each other. A wait that ends in time shows that both threads run; how far
//! one of them gets while the other waits shows how much the ring holds.
ghost use Rattle.std.specs.Prelude.{◌≡◌};

use crate::flag::Flag;
use agc_ring::Gate;

/// Delays the machine before write 2 until the display has taken write 1, and the display after write 1 until the
/// machine reaches a later write. This detects a run on a single thread, a gate that is not called, and a ring of
/// another size: in none of these cases do both waits end as they should.
#[derive(Drop)]
pub struct Rendezvous {
    /// The write before which the machine raises its flag.
    later: u64,
    machine_looks: u32,
    display_looks: u32,
    /// Raised when the machine reaches the later write.
    pub sent: Flag,
    /// Raised when the display has taken write 1.
    pub received: Flag,
    /// Raised if the machine's wait ended in time.
    pub machine_met: Flag,
    /// Raised if the display's wait ended in time.
    pub display_met: Flag,
}

impl Rendezvous {
    /// Creates a gate at which the machine and the display look this many times for each other; with 0 looks a thread
    /// does not wait.
    pub fn new(later: u64, machine_looks: u32, display_looks: u32) -> Rendezvous
        ensures later { result.later ≡ later }
        ensures machine { result.machine_looks ≡ machine_looks }
        ensures display { result.display_looks ≡ display_looks }
    {
        Rendezvous {
            later,
            machine_looks,
            display_looks,
            sent: Flag::new(),
            received: Flag::new(),
            machine_met: Flag::new(),
            display_met: Flag::new(),
        }
    }
}

impl Gate for Rendezvous {
    fn before_send(&self, n: u64) {
        if n == self.later {
            self.sent.raise();
        }
        if n == 2 && self.received.is_up_within(self.machine_looks) {
            self.machine_met.raise();
        }
    }

    fn after_receive(&self, n: u64) {
        if n == 1 {
            self.received.raise();
            if self.sent.is_up_within(self.display_looks) {
                self.display_met.raise();
            }
        }
    }
}

/// Delays the machine before write 1 until the third key is in the key ring, and the display after key 1 until the
/// machine reaches write 1. This detects a run that takes its keys before it starts, or that takes none.
#[derive(Drop)]
pub struct KeyRendezvous {
    looks: u32,
    /// Raised when the machine reaches write 1.
    sent: Flag,
    /// Raised when key 3 is in the key ring.
    fed: Flag,
    /// Raised if the machine's wait ended in time.
    pub machine_met: Flag,
    /// Raised if the display's wait ended in time.
    pub display_met: Flag,
}

impl KeyRendezvous {
    /// Creates a gate at which each thread looks this many times for the other.
    pub fn new(looks: u32) -> KeyRendezvous
        ensures { result.looks ≡ looks }
    {
        KeyRendezvous {
            looks,
            sent: Flag::new(),
            fed: Flag::new(),
            machine_met: Flag::new(),
            display_met: Flag::new(),
        }
    }
}

impl Gate for KeyRendezvous {
    fn before_send(&self, n: u64) {
        if n == 1 {
            self.sent.raise();
            if self.fed.is_up_within(self.looks) {
                self.machine_met.raise();
            }
        }
    }

    fn after_receive(&self, _n: u64) {}

    fn key_sent(&self, n: u64) {
        if n == 1 && self.sent.is_up_within(self.looks) {
            self.display_met.raise();
        }
        if n == 3 {
            self.fed.raise();
        }
    }
}
