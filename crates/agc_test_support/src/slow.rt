//! A gate that slows one of the threads down.
ghost use Rattle.std.specs.Prelude.{◌≡◌};

use agc_ring::Gate;
use std::hint;

/// Makes a thread spin for this many turns at each of its calls. A slow machine leaves the ring empty and a slow
/// display leaves it full; neither may change what is shown.
#[derive(Drop)]
pub struct Slow {
    machine_turns: u32,
    display_turns: u32,
    key_turns: u32,
}

impl Slow {
    /// Makes the machine spin before it sends a write.
    pub fn machine(turns: u32) -> Slow
        ensures { result ≡ record { machine_turns = turns; display_turns = 0; key_turns = 0 } }
    {
        Slow {
            machine_turns: turns,
            display_turns: 0,
            key_turns: 0,
        }
    }

    /// Makes the display spin after each write that it takes.
    pub fn display(turns: u32) -> Slow
        ensures { result ≡ record { machine_turns = 0; display_turns = turns; key_turns = 0 } }
    {
        Slow {
            machine_turns: 0,
            display_turns: turns,
            key_turns: 0,
        }
    }

    /// Makes the display spin after each key that it puts into the key ring.
    pub fn keys(turns: u32) -> Slow
        ensures { result ≡ record { machine_turns = 0; display_turns = 0; key_turns = turns } }
    {
        Slow {
            machine_turns: 0,
            display_turns: 0,
            key_turns: turns,
        }
    }
}

impl Gate for Slow {
    fn before_send(&self, _n: u64) {
        spin(self.machine_turns);
    }

    fn after_receive(&self, _n: u64) {
        spin(self.display_turns);
    }

    fn key_sent(&self, _n: u64) {
        spin(self.key_turns);
    }
}

fn spin(turns: u32) {
    for _ in 0..turns {
        hint::spin_loop();
    }
}
