//! Merges a script with injected events: those of another script or the keys of a tape.
ghost use Rattle.std.specs.Prelude.{◌≡◌, ◌+◌, ◌<◌, ◌≤◌, [], ◌∷◌, ◌++◌, length, take, position};
ghost use Rattle.std.specs.Prelude.{nat_lt, OnOk, IfOk, IfSome};
ghost use Rattle.agc_script.specs.Event.{most_events};
ghost use Rattle.agc_script.specs.Merge.{joined, due_at};

use crate::event::Event;
use std::alloc::{AllocError, Global};

/// Merges a script's events and the injected ones into one list.
pub(crate) fn join_events(
    alloc: Global,
    script: &[Event],
    given: &[Event],
) -> Result<Vec<Event>, AllocError>
    requires { length script.now + length given.now ≤ most_events }
    ensures { IfOk result (λ events. events.items ≡ joined script.now given.now) }
{
    let mut events = Vec::with_capacity(alloc, script.len() + given.len())?;
    push_joined(&mut events, script, given)?;
    Ok(events)
}

/// Appends a script's events and the injected ones to a list. Each injected event follows all
/// script events of its cycle or earlier.
fn push_joined(events: &mut Vec<Event>, script: &[Event], given: &[Event]) -> Result<(), AllocError>
    requires { length script.now ≤ most_events }
    ensures { OnOk result (events.new.items ≡ events.old.items ++ joined script.now given.now) }
{
    let mut rest = script;
    for event in given {
        let due = push_given(events, rest, *event)?;
        rest = &rest[due..];
    }
    events.extend_from_slice(rest)
}

/// Appends an injected event to a list, after the script events that are due at its cycle, and
/// returns their number.
fn push_given(events: &mut Vec<Event>, script: &[Event], given: Event) -> Result<usize, AllocError>
    ensures due { IfOk result (λ due. due ≡ due_at given.cycle script.now) }
    ensures bound { IfOk result (λ due. due ≤ length script.now) }
    ensures events { IfOk result
        (λ due. events.new.items ≡ (events.old.items ++ take due script.now) ++ given ∷ []) }
{
    let due = first_later(script, given.cycle).unwrap_or(script.len());
    events.extend_from_slice(&script[..due])?;
    events.push(given)?;
    Ok(due)
}

/// Returns the position of the first event after a cycle.
fn first_later(events: &[Event], cycle: u64) -> Option<usize>
    ensures place { result ≡ position (λ event. nat_lt cycle event.cycle) events.now }
    ensures bound { IfSome result (λ place. place < length events.now) }
{
    events.iter().position(|event| event.cycle > cycle)
}
