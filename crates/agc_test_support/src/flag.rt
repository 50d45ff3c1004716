//! A flag shared by two threads.
ghost use Rattle.std.specs.Prelude.{◌≡◌, false};

use std::sync::atomic::{AtomicBool, Ordering};
use std::thread;

/// A flag that one thread raises and the other waits for. It stays up.
#[derive(Drop)]
pub struct Flag {
    up: AtomicBool,
}

impl Flag {
    pub(crate) const fn new() -> Flag {
        Flag {
            up: AtomicBool::new(false),
        }
    }

    pub(crate) fn raise(&self) {
        self.up.store(true, Ordering::SeqCst);
    }

    /// Returns whether the flag was raised.
    pub fn is_up(&self) -> bool {
        self.up.load(Ordering::SeqCst)
    }

    /// Looks at the flag up to `looks` times until it is up, and returns whether it was. Yields to the other thread
    /// after each look.
    pub(crate) fn is_up_within(&self, looks: u32) -> bool
        ensures { looks ≡ 0 → result ≡ false }
    {
        for _ in 0..looks {
            if self.is_up() {
                return true;
            }
            thread::yield_now();
        }
        false
    }
}
