//! The interrupt service that is still in progress when a run stops.
ghost use Rattle.std.specs.Prelude.{◌≡◌, if◌then◌else◌, nat_le};
ghost use Rattle.agc_trace.specs.Service.{served, service_after};

use crate::entry::Entry;
use crate::selection::{Selection, ends_service};
use agc_machine::Upcoming;
use agc_processor::Rupt;

/// The service of an interrupt that RESUME has not ended yet.
#[derive(Clone, Copy, Debug, PartialEq, Eq)]
pub struct Service {
    pub rupt: Rupt,
    /// The cycle at which the interrupt was taken.
    pub cycle: u64,
}

/// Returns the service in progress after a boundary, given the one before it. A service that begins
/// before the range does not count.
pub fn service_after(
    selection: &Selection,
    before: Option<Service>,
    entry: &Entry,
) -> Option<Service>
    ensures { result ≡ service_after selection.now before entry.now }
{
    service_past(selection, before, entry.cycle, &entry.happening)
}

/// Returns the same from the cycle of the boundary and what happened.
#[inline]
pub(crate) fn service_past(
    selection: &Selection,
    before: Option<Service>,
    cycle: u64,
    happening: &Upcoming,
) -> Option<Service>
    ensures { result
        ≡ (if nat_le selection.now.from cycle then served cycle happening.now before else before) }
{
    if selection.from <= cycle {
        served(cycle, *happening, before)
    } else {
        before
    }
}

/// Returns the service after what happens at a cycle, which begins one, ends it, or leaves it unchanged.
fn served(cycle: u64, happening: Upcoming, before: Option<Service>) -> Option<Service>
    ensures { result ≡ served cycle happening before }
{
    match happening {
        Upcoming::Interrupt(rupt) => Some(Service { rupt, cycle }),
        Upcoming::Order(order) => { if ends_service(order) { None } else { before } }
        Upcoming::Stop(_) | Upcoming::Event(_) | Upcoming::Timer(_) => before,
    }
}
