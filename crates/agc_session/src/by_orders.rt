//! Takes boundaries up to a hit: whole runs of orders if nothing but orders can come, otherwise one boundary.
ghost use Rattle.std.specs.Prelude.{◌≡◌, ◌<◌, None};
ghost use Rattle.agc_machine.specs.Boundary.{boundary};
ghost use Rattle.agc_machine.specs.OrderRun.{IsWatchInRange};
ghost use Rattle.agc_session.specs.Comparison.{IsComparisonInRange};
ghost use Rattle.agc_session.specs.Condition.{IsJobInRange, panel_after, place_number, window_address};
ghost use Rattle.agc_session.specs.Search.{HasAdvanced, HasPassed};
ghost use Rattle.agc_session.specs.Session.{shown_after};
ghost use Rattle.agc_store.specs.Places.{erasable_cells};

use crate::comparison::{Comparison, has_changed, word_of};
use crate::condition::{
    Caller, Condition, is_caller_next, is_order_next, is_service_next, place_number, window_address,
};
use agc_listing::Location;
use agc_machine::{Machine, Stepped, Watch};
use agc_panel::Panel;
use agc_processor::Rupt;

/// Takes one boundary or more to a cycle, but none after the order at a place. Returns the cycle at which the order
/// began, if it ran.
pub(crate) fn pass_to_order(
    place: Location,
    machine: &mut Machine,
    panel: &mut Panel,
    end: u64,
) -> Option<u64>
    requires runs { machine.old.stopped ≡ None }
    ensures { HasAdvanced (Condition.Order place) end panel.old panel.new machine.old machine.new result }
{
    if is_order_next(machine, place) {
        return Some(pass(machine, panel));
    }
    pass_some(&watch_of(place), machine, panel, end);
    None
}

/// Takes one boundary or more to a cycle, but none after the order at a place. Returns the cycle at which the order
/// began, if it ran and a comparison held just before it.
pub(crate) fn pass_to_order_if(
    place: Location,
    comparison: &Comparison,
    machine: &mut Machine,
    panel: &mut Panel,
    end: u64,
) -> Option<u64>
    requires range { IsComparisonInRange comparison.now }
    requires runs { machine.old.stopped ≡ None }
    ensures { HasAdvanced (Condition.OrderIf place comparison.now) end panel.old panel.new machine.old machine.new result }
{
    if !is_order_next(machine, place) {
        pass_some(&watch_of(place), machine, panel, end);
        return None;
    }
    let hit = comparison.holds_in(machine.store());
    let began = pass(machine, panel);
    if hit { Some(began) } else { None }
}

/// Takes one boundary. Returns the cycle at which it began, if it was an order of a caller.
pub(crate) fn pass_to_caller(
    caller: &Caller,
    machine: &mut Machine,
    panel: &mut Panel,
    end: u64,
) -> Option<u64>
    requires range { IsJobInRange caller.now.job }
    requires runs { machine.old.stopped ≡ None }
    ensures { HasAdvanced (Condition.Caller caller.now) end panel.old panel.new machine.old machine.new result }
{
    let hit = is_caller_next(machine, caller);
    let began = pass(machine, panel);
    if hit { Some(began) } else { None }
}

/// Returns the watch that ends a run of orders before the order at a place.
fn watch_of(place: Location) -> Watch
    ensures { result ≡ Watch.Next (place_number place) (window_address place) }
{
    Watch::Next {
        address: place_number(place),
        window: window_address(place),
    }
}

/// Takes one boundary or more to a cycle, but none after the start of the service of this interrupt, or of any. Returns
/// the cycle at which it began, if it did.
pub(crate) fn pass_to_service(
    which: Option<Rupt>,
    machine: &mut Machine,
    panel: &mut Panel,
    end: u64,
) -> Option<u64>
    requires runs { machine.old.stopped ≡ None }
    ensures { HasAdvanced (Condition.Interrupt which) end panel.old panel.new machine.old machine.new result }
{
    if is_service_next(machine, which) {
        return Some(pass(machine, panel));
    }
    pass_some(&Watch::Nothing, machine, panel, end);
    None
}

/// Takes one boundary or more to a cycle, but none after a change of a cell. Returns the cycle at which the boundary of
/// the change began, if there was one.
pub(crate) fn pass_to_change(
    cell: u16,
    machine: &mut Machine,
    panel: &mut Panel,
    end: u64,
) -> Option<u64>
    requires range { cell < erasable_cells }
    requires runs { machine.old.stopped ≡ None }
    ensures { HasAdvanced (Condition.Cell cell) end panel.old panel.new machine.old machine.new result }
{
    let before = word_of(machine.store(), cell);
    let watch = Watch::Change { cell, word: before };
    let cycle = pass_some(&watch, machine, panel, end);
    if has_changed(machine.store(), cell, before) {
        Some(cycle)
    } else {
        None
    }
}

/// Runs orders to a cycle, but none after a watch is triggered, if nothing but orders can come. Otherwise takes one
/// boundary. Returns the cycle at which the last one began. The panel shows its write.
fn pass_some(watch: &Watch, machine: &mut Machine, panel: &mut Panel, end: u64) -> u64
    requires range { IsWatchInRange watch.now }
    ensures { HasPassed watch.now end panel.old panel.new machine.old machine.new result }
{
    match machine.run_orders(watch, end) {
        Some(run) => {
            show(&run.stepped, panel);
            run.began
        }
        None => pass(machine, panel),
    }
}

/// Takes one boundary. Returns the cycle at which it began. The panel shows its write.
#[inline(always)]
pub(crate) fn pass(machine: &mut Machine, panel: &mut Panel) -> u64
    ensures now { machine.new ≡ (boundary None machine.old).0 }
    ensures panel { panel.new ≡ panel_after panel.old machine.old }
    ensures began { result ≡ machine.old.cycle }
{
    let began = machine.cycle();
    show(&machine.step(None), panel);
    began
}

/// Shows the write of a boundary on a panel, if there is one.
fn show(stepped: &Stepped, panel: &mut Panel)
    ensures { panel.new ≡ shown_after stepped.now panel.old }
{
    if let Stepped::Wrote(write) = stepped {
        panel.take(write);
    }
}
