//! Probes whether a thread can be started.
ghost use Rattle.std.specs.Prelude.{◌≡◌, IfErr};
ghost use Rattle.agc_pipe.specs.declared.shown.ShowFault.TheVariants as fault;

use crate::shown::ShowFault;
use std::thread;
use std::thread::Threads;

/// Starts a thread that does nothing, and waits for its end. If no thread can be started, it fails with the fault of a
/// run, which would have needed one.
pub fn try_thread<R: Threads>(rt: &R) -> Result<(), ShowFault>
    ensures fault { IfErr result (λ why. why ≡ fault.Thread) }
{
    match thread::spawn(rt, || ()) {
        Ok(child) => Ok(child.join(rt)),
        Err(_) => Err(ShowFault::Thread),
    }
}
