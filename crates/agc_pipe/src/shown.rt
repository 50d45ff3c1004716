//! A run with its display: the machine on its own thread, the display on the caller's, a ring between them.
ghost use Rattle.std.specs.Prelude.{◌≡◌, ◌≢◌, ◌<◌, ◌⊎◌, ◌↔◌, [], true, false, IfOk, IfErr, IsErrOf};
ghost use Rattle.std.specs.Prelude.{Some, Err};
ghost use Rattle.agc_machine.specs.Run.{Run, run_of};
ghost use Rattle.agc_panel.specs.Face.{panel_of};
ghost use Rattle.agc_pipe.specs.Display.{IsShowing};
ghost use Rattle.agc_ring.specs.Items.{has_end, items_of, shown_in};
ghost use Rattle.agc_pipe.specs.Shown.{IsSentRun, ShowsRun};
ghost use Rattle.agc_pipe.specs.declared.shown.ShowFault.TheVariants as fault;

use crate::display::{Display, Drained, drain};
use crate::feed::NoFeed;
use crate::sending::{Sent, send_run};
use agc_machine::{Machine, Stop};
use agc_panel::Panel;
use agc_ring::{Gate, Receiver, Sender, Slots, link_of, rejoin};
use agc_store::Store;
use agc_word::ChannelWrite;
use std::alloc::Global;
use std::snapshot::Snapshot;
use std::sync::Wait;
use std::thread;
use std::thread::{Promise, Threads};
use thiserror::Error;

/// What a run leaves.
#[derive(Drop)]
pub struct Shown {
    /// Its channel writes, in order, as the display took them.
    pub log: Vec<ChannelWrite>,
    /// The panel after them.
    pub panel: Panel,
    /// The memory at the stop.
    pub store: Store,
    pub stop: Stop,
    /// The machine cycle of the stop.
    pub cycle: u64,
}

/// Why a run failed.
#[derive(Clone, Copy, Debug, Error, PartialEq, Eq)]
pub enum ShowFault {
    #[error("the ring's slots are not 1 to 65536")]
    Slots,
    #[error("live keys are no cycles apart")]
    Spacing,
    #[error("out of memory")]
    Memory,
    #[error("the machine's thread could not be started")]
    Thread,
}

/// The contract of the machine's thread.
#[derive(Drop)]
struct SendsRun {
    machine: Snapshot<Machine>,
    sender: Snapshot<Sender>,
}

impl Promise<Sent> for SendsRun {
    ghost use Rattle.agc_machine.specs.Run.{run_of};
    ghost use Rattle.agc_pipe.specs.Shown.{IsSentRun};

    ghost kept_by = { λ promise sent. IsSentRun
        (run_of promise.machine.value) promise.sender.value sent };
}

/// Runs a fresh machine to its stop on its own thread, and shows its channel writes on the caller's
/// thread, through a ring of `slots` slots. Whatever the schedule of the two threads, the log is
/// exactly the writes of the run, each once and in order.
pub fn run_shown<R: Threads + Wait + Sync, G: Gate + Sync>(
    rt: &R,
    alloc: Global,
    machine: Machine,
    slots: usize,
    gate: &G,
) -> Result<Shown, ShowFault>
    requires { machine.begun ≡ false }
    ensures log { IfOk result (λ shown. shown.log.items ≡ (run_of machine).writes) }
    ensures panel { IfOk result (λ shown. shown.panel ≡ panel_of (run_of machine).writes) }
    ensures store { IfOk result (λ shown. shown.store ≡ (run_of machine).last.processor.store) }
    ensures stop { IfOk result (λ shown. (run_of machine).last.stopped ≡ Some shown.stop) }
    ensures cycle { IfOk result (λ shown. shown.cycle ≡ (run_of machine).last.cycle) }
    ensures slots { IsErrOf result fault.Slots ↔ ((slots ≡ 0) ⊎ (65536 < slots)) }
    ensures spacing { result ≢ Err fault.Spacing }
{
    match Slots::new(slots) {
        Ok(slots) => run_shown_in(rt, alloc, machine, slots, gate),
        Err(_) => Err(ShowFault::Slots),
    }
}

/// Does what `run_shown` does, with checked slots: it fails only when it runs out of memory or
/// cannot start a thread.
pub fn run_shown_in<R: Threads + Wait + Sync, G: Gate + Sync>(
    rt: &R,
    alloc: Global,
    machine: Machine,
    slots: Slots,
    gate: &G,
) -> Result<Shown, ShowFault>
    requires { machine.begun ≡ false }
    ensures shown { IfOk result (ShowsRun (run_of machine)) }
    ensures fault { IfErr result (λ why. (why ≡ fault.Memory) ⊎ (why ≡ fault.Thread)) }
{
    let (sender, receiver) = link_shown(alloc, slots)?;
    show_between(rt, alloc, machine, gate, sender, receiver)
}

/// Makes the ring of a run.
pub(crate) fn link_shown(alloc: Global, slots: Slots) -> Result<(Sender, Receiver), ShowFault>
    ensures ring { IfOk result (λ ends. ends.0.ring ≡ ends.1.ring) }
    ensures sent { IfOk result (λ ends. ends.0.sent ≡ []) }
    ensures received { IfOk result (λ ends. ends.1.received ≡ []) }
    ensures fault { IfErr result (λ why. why ≡ fault.Memory) }
{
    match link_of(alloc, slots) {
        Ok(ends) => Ok(ends),
        Err(_) => Err(ShowFault::Memory),
    }
}

/// Runs the machine into one end of a new ring, and shows what comes out at the other.
fn show_between<R: Threads + Wait + Sync, G: Gate + Sync>(
    rt: &R,
    alloc: Global,
    machine: Machine,
    gate: &G,
    sender: Sender,
    receiver: Receiver,
) -> Result<Shown, ShowFault>
    requires ring { sender.ring ≡ receiver.ring }
    requires sent { sender.sent ≡ [] }
    requires received { receiver.received ≡ [] }
    ensures shown { IfOk result (ShowsRun (run_of machine)) }
    ensures fault { IfErr result (λ why. (why ≡ fault.Memory) ⊎ (why ≡ fault.Thread)) }
{
    let promise = SendsRun {
        machine: Snapshot::of(&machine),
        sender: Snapshot::of(&sender),
    };
    thread::scope(
        thread::scope_env(),
        rt,
        |scope| -> Result<Shown, ShowFault>
            requires { (sender.ring ≡ receiver.ring) × (sender.sent ≡ []) × (receiver.received ≡ [])
                × (promise.machine.value ≡ machine) × (promise.sender.value ≡ sender) }
            ensures shown { IfOk result (ShowsRun (run_of machine)) }
            ensures fault { IfErr result (λ why. (why ≡ fault.Memory) ⊎ (why ≡ fault.Thread)) }
        {
            let Ok(child) = scope.spawn_with(
                promise,
                move || -> Sent
                    requires { sender.sent ≡ [] }
                    ensures { IsSentRun (run_of machine) sender result }
                { send_run(rt, gate, machine, sender) },
            ) else {
                return Err(ShowFault::Thread);
            };
            let taken = drain(rt, alloc, gate, receiver, &mut NoFeed);
            put_together(child.join(rt), taken)
        },
    )
}

/// Combines the results of both threads.
pub(crate) fn put_together(sent: Sent, taken: Drained) -> Result<Shown, ShowFault>
    requires ring { sent.sender.ring ≡ taken.receiver.ring }
    requires end { has_end taken.receiver.received ≡ true }
    requires shown { IsShowing taken.display (shown_in taken.receiver.received) }
    ensures shown { (run : Run) → (sent.sender.sent ≡ items_of run.writes)
        × (sent.machine ≡ run.last) × (run.last.stopped ≡ Some sent.stop)
        → IfOk result (ShowsRun run) }
    ensures fault { IfErr result (λ why. why ≡ fault.Memory) }
{
    let Sent {
        sender,
        machine,
        stop,
    } = sent;
    let Drained { receiver, display } = taken;
    let _rest = rejoin(sender, receiver);
    let Display {
        log,
        panel,
        refused,
        ..
    } = display;
    if refused {
        return Err(ShowFault::Memory);
    }
    let cycle = machine.cycle();
    Ok(Shown {
        log,
        panel,
        store: machine.into_store(),
        stop,
        cycle,
    })
}
