//! Searches a run back from now: stretch by stretch between copies of the machine, the newest one first.
ghost use Rattle.std.specs.Prelude.{◌≡◌, ◌⊎◌, IsSome, ℕ, ◌+◌, ◌<◌, ◌≤◌, List, [], All, IfOk, IfSome, IsTrue, length, drop, None, ◌↔◌};
ghost use Rattle.agc_machine.specs.Laws.{after};
ghost use Rattle.agc_machine.specs.State.{State, start_state};
ghost use Rattle.agc_session.specs.Condition.{IsConditionInRange, IsFoundFrom};
ghost use Rattle.agc_session.specs.Checkpoints.{IsCheckpoint};
ghost use Rattle.agc_session.specs.Search.{HasAdvanced, HasCounted, HasSearched, IsAt, IsFewerThan, IsOnWrite, resumed, span};
ghost use Rattle.agc_session.specs.Session.{start_with};
ghost use Rattle.agc_script.specs.declared.event.Event.{Event};
ghost use Rattle.agc_panel.specs.Face.{panel_of};

use crate::by_orders::{
    pass, pass_to_caller, pass_to_change, pass_to_order, pass_to_order_if, pass_to_service,
};
use crate::cancellation::Cancellation;
use crate::checkpoint::{Checkpoint, Checkpoints};
use crate::condition::{Condition, is_hit_by_write};
use crate::fault::SearchFault;
use crate::session::copied;
use agc_machine::{Machine, Stepped};
use agc_panel::Panel;
use agc_script::Script;
use std::alloc::Global;

/// The most cycles between two questions whether a search is cancelled: some 50 milliseconds of a fast processor.
const SLICE: u64 = 2_000_000;

/// A point of a run. The boundaries of one cycle differ by the events left and by the stop.
#[derive(Clone, Copy)]
pub(crate) struct Point {
    cycle: u64,
    /// The number of events left.
    left: usize,
    stopped: bool,
}

/// The hit with a number, in a stretch that ends at a point.
#[derive(Clone, Copy)]
pub(crate) struct Wanted {
    number: u64,
    end: Point,
}

/// The hits of a stretch.
#[derive(Clone, Copy)]
pub(crate) struct Counted {
    number: u64,
    /// The cycle of the last one, if there is one.
    last: u64,
}

/// What a stretch says of the hit with a number, counted back from its end.
#[derive(Clone, Copy)]
pub(crate) enum Found {
    /// It began at this cycle.
    At(u64),
    /// The stretch has only this number of hits.
    Fewer(u64),
}

impl Point {
    /// Returns the point at which a machine is.
    fn of(machine: &Machine) -> Point
        ensures { IsAt result machine.now }
    {
        Point {
            cycle: machine.cycle(),
            left: machine.events_left().len(),
            stopped: machine.stopped().is_some(),
        }
    }

    /// Returns whether a machine is at this point.
    fn is_at(self, machine: &Machine) -> bool
        ensures { IsTrue result ↔ IsAt self machine.now }
    {
        machine.cycle() == self.cycle
            && machine.events_left().len() == self.left
            && machine.stopped().is_some() == self.stopped
    }
}

/// Returns the cycle of the hit with the number `count`, counted back from a machine, or `None` if there are fewer.
/// The run of `script` leads to the machine. Fails when memory runs out or the search is cancelled.
pub(crate) fn search_back<C: Cancellation>(
    condition: &Condition,
    count: u64,
    now: &Machine,
    checkpoints: &Checkpoints,
    script: &Script,
    cancellation: &mut C,
) -> Result<Option<u64>, SearchFault>
    requires some { 0 < count }
    requires range { IsConditionInRange condition.now }
    requires right { All (IsCheckpoint now.now.processor.store.fixed now.now.limit) checkpoints.now.copies.items }
    ensures { IfOk result (λ found. (n : ℕ) → after n (start_with script.now now.now) ≡ now.now
        → IsFoundFrom condition.now count (start_with script.now now.now) now.now found) }
{
    let alloc = *checkpoints.copies.allocator();
    let mut wanted = count;
    let mut end = Point::of(now);
    let mut place = checkpoints.copies.len();
    while 0 < place {
        place -= 1;
        let copy = &checkpoints.copies[place];
        if copy.is_on_run_before(script, end.cycle) {
            let hit = Wanted {
                number: wanted,
                end,
            };
            match search_stretch(alloc, condition, hit, copy, script, cancellation)? {
                Found::At(cycle) => return Ok(Some(cycle)),
                Found::Fewer(number) => {
                    wanted -= number;
                    end = begin_of(copy, script);
                }
            }
        }
    }
    let start = start_of(alloc, now).ok_or(SearchFault::Memory)?;
    let hit = Wanted {
        number: wanted,
        end,
    };
    match search_stretch(alloc, condition, hit, &start, script, cancellation)? {
        Found::At(cycle) => Ok(Some(cycle)),
        Found::Fewer(_) => Ok(None),
    }
}

/// Returns the point at which the run of a script resumes from a copy.
fn begin_of(copy: &Checkpoint, script: &Script) -> Point
    requires { length copy.now.taken ≤ length script.now }
    ensures { IsAt result (resumed script.now copy.now) }
{
    Point {
        cycle: copy.machine.cycle(),
        left: script.len() - copy.taken.len(),
        stopped: copy.machine.stopped().is_some(),
    }
}

/// Returns a copy of the start of a machine's run.
fn start_of(alloc: Global, machine: &Machine) -> Option<Checkpoint>
    ensures taken { IfSome result (λ copy. copy.taken ≡ []) }
    ensures start { (script : List Event) → IfSome result (λ copy. resumed script copy ≡ start_with script machine.now) }
    ensures panel { IfSome result (λ copy. copy.panel ≡ panel_of []) }
{
    let machine = machine.copy_with(alloc, Script::empty(alloc))?;
    Some(Checkpoint {
        machine: machine.restart_with(Script::empty(alloc)),
        panel: Panel::new(),
        writes: 0,
        taken: Script::empty(alloc),
    })
}

/// Searches the stretch from a copy to a point for the hit with a number, counted back from the point. Runs it once
/// more if that is not the last one.
fn search_stretch<C: Cancellation>(
    alloc: Global,
    condition: &Condition,
    wanted: Wanted,
    from: &Checkpoint,
    script: &Script,
    cancellation: &mut C,
) -> Result<Found, SearchFault>
    requires some { 0 < wanted.number }
    requires range { IsConditionInRange condition.now }
    requires taken { length from.now.taken ≤ length script.now }
    ensures searched { IfOk result (λ found. (n : ℕ) → IsAt wanted.end (after n (resumed script.now from.now))
        → HasSearched condition.now wanted.number n from.now.panel (resumed script.now from.now) found) }
    ensures fewer { IfOk result (IsFewerThan wanted.number) }
{
    is_short(from, script);
    let Wanted { number, end } = wanted;
    let last = Wanted {
        number: u64::MAX,
        end,
    };
    let all = count_from(alloc, condition, last, from, script, cancellation)?;
    if all.number < number {
        return Ok(Found::Fewer(all.number));
    }
    if number == 1 {
        return Ok(Found::At(all.last));
    }
    let hit = Wanted {
        number: all.number - number + 1,
        end,
    };
    let first = count_from(alloc, condition, hit, from, script, cancellation)?;
    Ok(Found::At(first.last))
}

/// Shows the proof that a machine takes fewer boundaries than a `u64` can count. Does nothing at run time.
fn is_short(from: &Checkpoint, script: &Script)
    ensures { span (resumed script.now from.now) < 18446744073709551615 }
{
    let _events = script.len();
    let _wanted = from.machine.wants_key();
}

/// Runs a copy of the machine to a point, or to the hit with a number if that comes first.
fn count_from<C: Cancellation>(
    alloc: Global,
    condition: &Condition,
    wanted: Wanted,
    from: &Checkpoint,
    script: &Script,
    cancellation: &mut C,
) -> Result<Counted, SearchFault>
    requires some { 0 < wanted.number }
    requires range { IsConditionInRange condition.now }
    requires taken { length from.now.taken ≤ length script.now }
    ensures { IfOk result (λ hits. (n : ℕ) → IsAt wanted.end (after n (resumed script.now from.now))
        → HasCounted condition.now n wanted.number from.now.panel (resumed script.now from.now) hits) }
{
    let mut machine = resume_copy(alloc, from, script).ok_or(SearchFault::Memory)?;
    let mut panel = from.panel;
    count_hits(condition, wanted, &mut machine, &mut panel, cancellation)
}

/// Returns the machine of a copy, with the events of a script that it has not taken.
fn resume_copy(alloc: Global, from: &Checkpoint, script: &Script) -> Option<Machine>
    requires { length from.now.taken ≤ length script.now }
    ensures { IfSome result (λ machine. machine ≡ resumed script.now from.now) }
{
    let events = copied(alloc, script)?;
    let machine = from.machine.copy_with(alloc, Script::empty(alloc))?;
    Some(machine.resume_with(events, from.taken.len()))
}

/// Runs a machine to a point ahead, or to the hit with a number if that comes first, and counts the hits.
fn count_hits<C: Cancellation>(
    condition: &Condition,
    wanted: Wanted,
    machine: &mut Machine,
    panel: &mut Panel,
    cancellation: &mut C,
) -> Result<Counted, SearchFault>
    requires some { 0 < wanted.number }
    requires range { IsConditionInRange condition.now }
    ensures { IfOk result (λ hits. (n : ℕ) → IsAt wanted.end (after n machine.old)
        → HasCounted condition.now n wanted.number panel.old machine.old hits) }
{
    let Wanted { number: most, end } = wanted;
    let mut hits = Counted { number: 0, last: 0 };
    let mut pause = machine.cycle();
    while !has_ended(machine, end) {
        pause = next_pause(pause, machine.cycle(), cancellation)?;
        if let Some(cycle) = advance(condition, machine, panel, end.cycle.min(pause)) {
            hits = Counted {
                number: hits.number + 1,
                last: cycle,
            };
            if hits.number == most {
                return Ok(hits);
            }
        }
    }
    Ok(hits)
}

/// Returns the cycle of the next pause, at which it is time to ask whether a search is cancelled. Asks if the pause has
/// come.
fn next_pause<C: Cancellation>(
    pause: u64,
    cycle: u64,
    cancellation: &mut C,
) -> Result<u64, SearchFault> {
    if cycle < pause {
        return Ok(pause);
    }
    if cancellation.is_cancelled() {
        return Err(SearchFault::Cancelled);
    }
    Ok(cycle.saturating_add(SLICE))
}

/// Takes one boundary or more to a cycle, but none after a hit. Returns the cycle of the hit, if there is one.
fn advance(condition: &Condition, machine: &mut Machine, panel: &mut Panel, end: u64) -> Option<u64>
    requires range { IsConditionInRange condition.now }
    requires runs { machine.old.stopped ≡ None }
    ensures { HasAdvanced condition.now end panel.old panel.new machine.old machine.new result }
{
    match condition {
        Condition::Boundary => Some(pass(machine, panel)),
        Condition::Order(place) => pass_to_order(*place, machine, panel, end),
        Condition::OrderIf { place, comparison } => {
            pass_to_order_if(*place, comparison, machine, panel, end)
        }
        Condition::Caller(caller) => pass_to_caller(caller, machine, panel, end),
        Condition::Cell(cell) => pass_to_change(*cell, machine, panel, end),
        Condition::Interrupt(which) => pass_to_service(*which, machine, panel, end),
        Condition::Write { .. } | Condition::Panel | Condition::Shows(_) => {
            advance_to_write(condition, machine, panel, end)
        }
    }
}

/// Runs to the next write, or to the first boundary that ends at a cycle or later.
fn advance_to_write(
    condition: &Condition,
    machine: &mut Machine,
    panel: &mut Panel,
    end: u64,
) -> Option<u64>
    requires { IsOnWrite condition.now }
    ensures { HasAdvanced condition.now end panel.old panel.new machine.old machine.new result }
{
    let stepped = machine.next_write_before(end);
    let Stepped::Wrote(write) = &stepped else {
        return None;
    };
    let before = *panel;
    panel.take(write);
    if is_hit_by_write(condition, &stepped, &before, panel) {
        Some(write.cycle)
    } else {
        None
    }
}

/// Returns whether a machine is at a point, or has stopped.
fn has_ended(machine: &Machine, end: Point) -> bool
    ensures { IsTrue result ↔ (IsAt end machine.now ⊎ IsSome machine.now.stopped) }
{
    machine.stopped().is_some() || end.is_at(machine)
}
