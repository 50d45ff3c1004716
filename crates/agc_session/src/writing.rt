//! Writes a script line by line, so that no copy of it is needed.
ghost use Rattle.std.specs.Prelude.{◌≡◌, ◌≤◌, ◌<◌, ◌++◌, ◌∷◌, [], length, take, position, nat_le, nat_lt, OnOk, IfOk, IfSome};
ghost use Rattle.std.specs.Prelude.{string_bytes};
ghost use Rattle.std.specs.List.{flat_map};
ghost use Rattle.std.specs.Io.KnownBytes.{Appends};
ghost use Rattle.agc_script.specs.Event.{most_events};
ghost use Rattle.agc_script.specs.Merge.{due_at, joined};
ghost use Rattle.agc_script.specs.Written.{event_text};
ghost use Rattle.agc_session.specs.Session.{since};

use agc_script::{Event, push_what};
use std::alloc::AllocError;
use std::io::{self, Write};

/// The bytes of the longest line of an event, and more.
pub const LINE_ROOM: usize = 64;

/// Writes two scripts merged into one: each event of the second follows all events of the first of its cycle or
/// earlier. Uses `line` for one line at a time.
pub(crate) fn write_joined<W: Write>(
    out: &mut W,
    line: &mut String,
    script: &[Event],
    given: &[Event],
) -> io::Result<()>
    requires { length script.now ≤ most_events }
    ensures { OnOk result (Appends (W.contents out.old) (W.contents out.new)
        (flat_map event_text (joined script.now given.now))) }
{
    let mut rest = script;
    for event in given {
        let due = write_given(out, line, rest, *event)?;
        rest = &rest[due..];
    }
    write_events(out, line, rest)
}

/// Writes an event after the events of a script that are due at its cycle, and returns their number.
fn write_given<W: Write>(
    out: &mut W,
    line: &mut String,
    script: &[Event],
    given: Event,
) -> io::Result<usize>
    ensures due { IfOk result (λ due. due ≡ due_at given.cycle script.now) }
    ensures bound { IfOk result (λ due. due ≤ length script.now) }
    ensures written { IfOk result (λ due. Appends (W.contents out.old) (W.contents out.new)
        (flat_map event_text (take due script.now) ++ event_text given)) }
{
    let due = first_later(script, given.cycle).unwrap_or(script.len());
    write_events(out, line, &script[..due])?;
    write_event(out, line, &given)?;
    Ok(due)
}

/// Returns the position of the first event after a cycle.
fn first_later(events: &[Event], cycle: u64) -> Option<usize>
    ensures place { result ≡ position (λ event. nat_lt cycle event.cycle) events.now }
    ensures bound { IfSome result (λ place. place < length events.now) }
{
    events.iter().position(|event| event.cycle > cycle)
}

/// Returns the events at a cycle or later.
pub(crate) fn events_since(events: &[Event], cycle: u64) -> &[Event]
    ensures since { result.now ≡ since cycle events.now }
    ensures few { length result.now ≤ length events.now }
{
    let place = first_since(events, cycle).unwrap_or(events.len());
    &events[place..]
}

/// Returns the position of the first event at a cycle or later.
fn first_since(events: &[Event], cycle: u64) -> Option<usize>
    ensures place { result ≡ position (λ event. nat_le cycle event.cycle) events.now }
    ensures bound { IfSome result (λ place. place < length events.now) }
{
    events.iter().position(|event| event.cycle >= cycle)
}

/// Writes events, a line each.
fn write_events<W: Write>(out: &mut W, line: &mut String, events: &[Event]) -> io::Result<()>
    ensures { OnOk result (Appends (W.contents out.old) (W.contents out.new)
        (flat_map event_text events.now)) }
{
    for event in events {
        write_event(out, line, event)?;
    }
    Ok(())
}

/// Writes an event as a line.
fn write_event<W: Write>(out: &mut W, line: &mut String, event: &Event) -> io::Result<()>
    ensures { OnOk result (Appends (W.contents out.old) (W.contents out.new) (event_text event.now)) }
{
    line.clear();
    push_event(line, event)?;
    out.write_all(line.as_bytes())
}

/// Adds the line of an event: its cycle, its command, and a line feed.
fn push_event(line: &mut String, event: &Event) -> Result<(), AllocError>
    ensures { OnOk result (string_bytes line.new ≡ string_bytes line.old ++ event_text event.now) }
{
    let cycle = event.cycle;
    write!(line, "{cycle} ")?;
    push_what(line, event.what)?;
    line.push_str("\n")
}
