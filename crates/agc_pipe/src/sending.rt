//! The machine's thread: runs the machine to its stop and sends each channel write, then the end.
ghost use Rattle.std.specs.Prelude.{◌≡◌, [], Some};
ghost use Rattle.agc_machine.specs.Laws.{HasNextChannel};
ghost use Rattle.agc_machine.specs.Run.{next_of, run_of};
ghost use Rattle.agc_ring.specs.Items.{items_of};

use agc_io::next_mark;
use agc_machine::{Machine, Next, Stepped, Stop};
use agc_ring::{BlockSender, Gate, Sender};
use std::sync::Wait;

/// What the machine's thread returns.
#[derive(Drop)]
pub(crate) struct Sent {
    pub(crate) sender: Sender,
    /// The machine at its stop.
    pub(crate) machine: Machine,
    pub(crate) stop: Stop,
}

/// Runs a machine to its stop, and sends its writes and the end. Now and then it reports to the gate how far the run
/// has come.
pub(crate) fn send_run<R: Wait, G: Gate>(
    rt: &R,
    gate: &G,
    mut machine: Machine,
    sender: Sender,
) -> Sent
    requires { sender.sent ≡ [] }
    ensures sender { result.sender ≡ record sender { sent = items_of (run_of machine).writes } }
    ensures machine { result.machine ≡ (run_of machine).last }
    ensures stop { (run_of machine).last.stopped ≡ Some result.stop }
{
    let mut block_sender = BlockSender::new(sender);
    let mut mark = 0u64;
    loop {
        match next_reported(gate, &mut machine, &mut mark) {
            Next::Wrote(write) => block_sender.put(rt, gate, write),
            Next::Stopped(stop) => {
                gate.stopped();
                return Sent {
                    sender: block_sender.finish(rt, gate),
                    machine,
                    stop,
                };
            }
        }
    }
}

/// Runs to the next channel write or the stop; reports the progress at each mark to a gate that wants it.
fn next_reported<G: Gate>(gate: &G, machine: &mut Machine, mark: &mut u64) -> Next
    ensures next { (machine.new, result) ≡ next_of machine.old }
    ensures channel { HasNextChannel result }
{
    if !gate.wants_progress() {
        return machine.next_write();
    }
    loop {
        match machine.next_write_before(*mark) {
            Stepped::Quiet => *mark = tell_mark(gate, machine.cycle()),
            Stepped::Wrote(write) => return Next::Wrote(write),
            Stepped::Stopped(stop) => return Next::Stopped(stop),
        }
    }
}

/// Reports the cycle of a run to the gate; returns the mark of the next report.
pub(crate) fn tell_mark<G: Gate>(gate: &G, cycle: u64) -> u64 {
    gate.progress(cycle);
    next_mark(cycle)
}
