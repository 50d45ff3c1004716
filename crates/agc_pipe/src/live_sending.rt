//! The machine's thread of a live run: looks for keys at intervals, and sends each channel write,
//! then the end.
ghost use Rattle.std.specs.Prelude.{◌≡◌, [], ◌∷◌, ◌++◌, List, map};
ghost use Rattle.agc_word.specs.declared.channel_write.ChannelWrite.{ChannelWrite};
ghost use Rattle.agc_script.specs.Merge.{key_event};
ghost use Rattle.agc_machine.specs.Laws.{HasChannel, KeepsStop};
ghost use Rattle.agc_machine.specs.Live.{IsLive};
ghost use Rattle.agc_machine.specs.Replay.{writes_in};
ghost use Rattle.agc_machine.specs.State.{State, IsAtStart};
ghost use Rattle.agc_pipe.specs.Live.{IsSentLive};

use crate::keys::KeyTaker;
use crate::sending::{Sent, tell_mark};
use agc_machine::{Machine, Stepped};
use agc_ring::{BlockSender, Gate, Sender};
use std::sync::Wait;

/// What the machine's thread of a live run returns.
#[derive(Drop)]
pub(crate) struct LiveSent {
    pub(crate) sent: Sent,
    pub(crate) taker: KeyTaker,
}

/// Runs a machine with live keys to its stop, sends its writes and the end, and ends the feeding of
/// keys at the stop.
pub(crate) fn send_live_run<R: Wait, G: Gate>(
    rt: &R,
    gate: &G,
    mut machine: Machine,
    sender: Sender,
    mut taker: KeyTaker,
) -> LiveSent
    requires sent { sender.sent ≡ [] }
    requires tape { taker.tape ≡ [] }
    requires start { IsAtStart machine }
    ensures { IsSentLive machine sender taker result }
{
    let mut block_sender = BlockSender::new(sender);
    let mut mark = 0u64;
    for _ in rt.forever() {
        match go_on(&mut machine, &mut taker) {
            Stepped::Quiet => mark = reported_past(gate, mark, machine.cycle()),
            Stepped::Wrote(write) => block_sender.put(rt, gate, write),
            Stepped::Stopped(stop) => {
                taker.close();
                gate.stopped();
                let sender = block_sender.finish(rt, gate);
                let sent = Sent {
                    sender,
                    machine,
                    stop,
                };
                return LiveSent { sent, taker };
            }
        }
    }
    unreachable!()
}

/// Reports the cycle of a run to a gate that wants progress, if it has reached the mark; returns the next mark.
fn reported_past<G: Gate>(gate: &G, mark: u64, cycle: u64) -> u64 {
    if cycle < mark || !gate.wants_progress() {
        mark
    } else {
        tell_mark(gate, cycle)
    }
}

/// Gives the machine a key, if one can be taken now; otherwise runs to the next write, the stop or
/// the next look for a key.
fn go_on(machine: &mut Machine, taker: &mut KeyTaker) -> Stepped
    ensures live { (start : State) (writes : List ChannelWrite)
        → IsLive start (map key_event taker.old.tape) writes machine.old
        → IsLive start (map key_event taker.new.tape) (writes ++ writes_in (result ∷ [])) machine.new }
    ensures channel { HasChannel result }
    ensures stop { KeepsStop (machine.new, result) }
    ensures ring { taker.new.ring ≡ taker.old.ring }
    ensures spacing { taker.new.spacing ≡ taker.old.spacing }
{
    match taker.take(machine) {
        Some(key) => machine.step(Some(key)),
        None => machine.next_write_before(taker.next_look()),
    }
}
