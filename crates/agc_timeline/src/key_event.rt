//! Finds the key events of a script.
ghost use Rattle.std.specs.Prelude.{◌≡◌, IfOk};
ghost use Rattle.agc_timeline.specs.KeyEvents.{is_on_keyboard, presses_of};

use agc_script::{Event, What};
use std::alloc::{AllocError, Global};

/// Returns the key events among these events, in order: a key is pressed, or PRO is pressed or released. Fails if memory
/// runs out.
#[tactic(auto, unfolding(crate::specs::KeyEvents::presses_of))]
pub(crate) fn presses(alloc: Global, events: &[Event]) -> Result<Vec<Event>, AllocError>
    ensures { IfOk result (λ presses. presses.items ≡ presses_of events.now) }
{
    events
        .iter()
        .copied()
        .filter(|event| is_on_keyboard(event.what))
        .collect(alloc)
}

/// Returns whether an event presses a key, or presses or releases PRO.
fn is_on_keyboard(what: What) -> bool
    ensures { result ≡ is_on_keyboard what }
{
    matches!(what, What::Key(_) | What::Pro(_))
}
