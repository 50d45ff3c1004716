//! A live run: the machine takes keys while it runs, from the display's thread through a second
//! ring.
ghost use Rattle.std.specs.Prelude.{◌≡◌, ◌<◌, ◌≤◌, ◌⊎◌, ◌↔◌, [], ◌++◌, true, false, map, IfOk};
ghost use Rattle.std.specs.Prelude.{IfErr, IsErrOf, Some};
ghost use Rattle.agc_machine.specs.Run.{run_of};
ghost use Rattle.agc_machine.specs.State.{State, IsAtStart};
ghost use Rattle.agc_machine.specs.Taken.{IsTakenTape, replayed};
ghost use Rattle.agc_panel.specs.Face.{panel_of};
ghost use Rattle.agc_ring.specs.Ring.{Sending};
ghost use Rattle.agc_pipe.specs.Display.{IsShowing};
ghost use Rattle.agc_ring.specs.Items.{has_end, shown_in};
ghost use Rattle.agc_pipe.specs.Keys.{Taking, key_in};
ghost use Rattle.agc_pipe.specs.Live.{IsSentLive, ShowsLive};
ghost use Rattle.agc_pipe.specs.declared.shown.ShowFault.TheVariants as fault;

use crate::display::{Drained, drain};
use crate::keys::{KeyFeed, KeyTaker, link_keys, part_keys};
use crate::live_sending::{LiveSent, send_live_run};
use crate::shown::{ShowFault, Shown, link_shown, put_together};
use crate::spacing::Spacing;
use agc_machine::Machine;
use agc_ring::{Gate, Receiver, Sender, Slots};
use agc_script::{Key, Tape};
use std::alloc::Global;
use std::snapshot::Snapshot;
use std::sync::Wait;
use std::thread;
use std::thread::{Promise, Threads};

/// What a live run leaves.
#[derive(Drop)]
pub struct Live {
    /// What the run on the script merged with the tape leaves.
    pub shown: Shown,
    /// The keys that the machine took, each with its machine cycle.
    pub tape: Tape,
    /// The keys that it did not take, in the order given by the caller.
    pub rest: Vec<Key>,
}

/// The contract of the machine's thread.
#[derive(Drop)]
struct SendsLiveRun {
    machine: Snapshot<Machine>,
    sender: Snapshot<Sender>,
    taker: Snapshot<KeyTaker>,
}

impl Promise<LiveSent> for SendsLiveRun {
    ghost use Rattle.agc_pipe.specs.Live.{IsSentLive};

    ghost kept_by = { λ promise live. IsSentLive promise.machine.value promise.sender.value promise.taker.value live };
}

/// Runs a fresh machine to its stop on its own thread, as `run_shown` does, while the display's
/// thread feeds it keys. The machine takes a key only if at least `spacing` machine cycles have
/// passed since the last. Whatever the schedule of the two threads, the result is the run on the
/// machine's script merged with the tape of the keys taken, each at its own cycle; the tape's keys
/// followed by the rest are the caller's keys.
pub fn run_live<R: Threads + Wait + Sync, G: Gate + Sync>(
    rt: &R,
    alloc: Global,
    machine: Machine,
    keys: Vec<Key>,
    spacing: u64,
    slots: usize,
    gate: &G,
) -> Result<Live, ShowFault>
    requires { machine.begun ≡ false }
    ensures log { IfOk result
        (λ live. live.shown.log.items ≡ (run_of (replayed live.tape machine)).writes) }
    ensures panel { IfOk result
        (λ live. live.shown.panel ≡ panel_of (run_of (replayed live.tape machine)).writes) }
    ensures store { IfOk result
        (λ live. live.shown.store ≡ (run_of (replayed live.tape machine)).last.processor.store) }
    ensures stop { IfOk result
        (λ live. (run_of (replayed live.tape machine)).last.stopped ≡ Some live.shown.stop) }
    ensures cycle { IfOk result
        (λ live. live.shown.cycle ≡ (run_of (replayed live.tape machine)).last.cycle) }
    ensures tape { IfOk result (λ live. IsTakenTape spacing machine live.tape) }
    ensures keys { IfOk result (λ live. map key_in live.tape ++ live.rest.items ≡ keys.items) }
    ensures slots { IsErrOf result fault.Slots ↔ ((slots ≡ 0) ⊎ (65536 < slots)) }
    ensures spacing { IsErrOf result fault.Spacing
        ↔ ((spacing ≡ 0) × (0 < slots) × (slots ≤ 65536)) }
{
    let Ok(slots) = Slots::new(slots) else {
        return Err(ShowFault::Slots);
    };
    let Some(spacing) = Spacing::new(spacing) else {
        return Err(ShowFault::Spacing);
    };
    run_live_in(rt, alloc, machine, keys, spacing, slots, gate)
}

/// Does what `run_live` does, with checked slots and spacing: it fails only when it runs out of
/// memory or cannot start a thread.
pub fn run_live_in<R: Threads + Wait + Sync, G: Gate + Sync>(
    rt: &R,
    alloc: Global,
    machine: Machine,
    keys: Vec<Key>,
    spacing: Spacing,
    slots: Slots,
    gate: &G,
) -> Result<Live, ShowFault>
    requires { machine.begun ≡ false }
    ensures live { IfOk result (ShowsLive machine spacing keys.items) }
    ensures fault { IfErr result (λ why. (why ≡ fault.Memory) ⊎ (why ≡ fault.Thread)) }
{
    let at_start = machine.fresh();
    prove!(at_start);
    let (sender, receiver) = link_shown(alloc, slots)?;
    let (feed, taker) = link_fed(alloc, keys, spacing)?;
    show_live_between(rt, alloc, machine, gate, sender, receiver, feed, taker)
}

/// Makes the key ring of a live run.
fn link_fed(
    alloc: Global,
    keys: Vec<Key>,
    spacing: Spacing,
) -> Result<(KeyFeed, KeyTaker), ShowFault>
    ensures ring { IfOk result (λ ends. ends.0.ring ≡ ends.1.ring) }
    ensures keys { IfOk result (λ ends. ends.0.keys ≡ keys.items) }
    ensures taker { IfOk result (λ ends. (ends.1.spacing ≡ spacing) × (ends.1.tape ≡ [])) }
    ensures fault { IfErr result (λ why. why ≡ fault.Memory) }
{
    match link_keys(alloc, keys, spacing.cycles()) {
        Ok(ends) => Ok(ends),
        Err(_) => Err(ShowFault::Memory),
    }
}

/// Runs the machine into one end of a ring and shows what comes out at the other, while keys go the
/// other way through their own ring.
fn show_live_between<R: Threads + Wait + Sync, G: Gate + Sync>(
    rt: &R,
    alloc: Global,
    machine: Machine,
    gate: &G,
    sender: Sender,
    receiver: Receiver,
    feed: KeyFeed,
    taker: KeyTaker,
) -> Result<Live, ShowFault>
    requires start { IsAtStart machine }
    requires ring { sender.ring ≡ receiver.ring }
    requires sent { sender.sent ≡ [] }
    requires received { receiver.received ≡ [] }
    requires key_ring { feed.ring ≡ taker.ring }
    requires tape { taker.tape ≡ [] }
    ensures live { IfOk result (ShowsLive machine taker.spacing feed.keys) }
    ensures fault { IfErr result (λ why. (why ≡ fault.Memory) ⊎ (why ≡ fault.Thread)) }
{
    let promise = SendsLiveRun {
        machine: Snapshot::of(&machine),
        sender: Snapshot::of(&sender),
        taker: Snapshot::of(&taker),
    };
    thread::scope(
        thread::scope_env(),
        rt,
        |scope| -> Result<Live, ShowFault>
            requires ring { (sender.ring ≡ receiver.ring) × (sender.sent ≡ [])
                × (receiver.received ≡ []) }
            requires keys { IsAtStart machine × (feed.ring ≡ taker.ring) × (taker.tape ≡ []) }
            requires promise { (promise.machine.value ≡ machine) × (promise.sender.value ≡ sender)
                × (promise.taker.value ≡ taker) }
            ensures live { IfOk result (ShowsLive machine taker.spacing feed.keys) }
            ensures fault { IfErr result (λ why. (why ≡ fault.Memory) ⊎ (why ≡ fault.Thread)) }
        {
            let Ok(child) = scope.spawn_with(
                promise,
                move || -> LiveSent
                    requires { (sender.sent ≡ []) × IsAtStart machine × (taker.tape ≡ []) }
                    ensures { IsSentLive machine sender taker result }
                { send_live_run(rt, gate, machine, sender, taker) },
            ) else {
                return Err(ShowFault::Thread);
            };
            let mut feed = feed;
            let taken = drain(rt, alloc, gate, receiver, &mut feed);
            put_live_together(child.join(rt), taken, feed)
        },
    )
}

/// Combines the results of both threads.
fn put_live_together(live: LiveSent, taken: Drained, feed: KeyFeed) -> Result<Live, ShowFault>
    requires ring { live.sent.sender.ring ≡ taken.receiver.ring }
    requires end { has_end taken.receiver.received ≡ true }
    requires shown { IsShowing taken.display (shown_in taken.receiver.received) }
    requires key_ring { feed.ring ≡ live.taker.ring }
    ensures live { (start : State) (sender : Sending) (keys : Taking)
        → IsSentLive start sender keys live
        → IfOk result (ShowsLive start keys.spacing feed.keys) }
    ensures fault { IfErr result (λ why. why ≡ fault.Memory) }
{
    let LiveSent { sent, taker } = live;
    let shown = match put_together(sent, taken) {
        Ok(shown) => shown,
        Err(why) => return Err(why),
    };
    match part_keys(feed, taker) {
        Some((tape, rest)) => Ok(Live { shown, tape, rest }),
        None => Err(ShowFault::Memory),
    }
}
