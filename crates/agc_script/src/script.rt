//! A script: events in the order of their cycles.
ghost use Rattle.std.specs.Prelude.{◌≡◌, ◌≢◌, ◌==◌, ◌<◌, ◌≤◌, [], ◌∷◌, ◌++◌, length, drop, slice_get};
ghost use Rattle.std.specs.Prelude.{Some, Ok, Err, IfOk, IfErr, IsErrOf, OnOk, OnErr, ◌+◌, ◌↔◌};
ghost use Rattle.std.specs.Prelude.{map, nat_le, position, string_bytes, IfSome};
ghost use Rattle.agc_script.specs.Event.{IsInRange, IsWhatInRange, last_cycle, most_events};
ghost use Rattle.agc_word.specs.Text.{lines_of};
ghost use Rattle.agc_script.specs.Injection.{events_of_lines};
ghost use Rattle.agc_script.specs.Fault.{AreFaultless, IsFirstFault};
ghost use Rattle.agc_script.specs.Laws.{IsArrangement};
ghost use Rattle.agc_script.specs.Injection.{parsed_at};
ghost use Rattle.agc_script.specs.Script.{before, IsNotBefore, IsScript};
ghost use Rattle.agc_script.specs.Parse.{script_of, IsSoundLine};
ghost use Rattle.agc_script.specs.Merge.{joined, key_event, merged, IsMerge, too_many, no_memory};
ghost use Rattle.agc_script.specs.Tape.{IsTape};
ghost use Rattle.agc_script.specs.Written.{script_text};

use crate::event::{Event, MOST_EVENTS, What};
use crate::fault::{FaultKind, ScriptFault};
use crate::merge::join_events;
use crate::parse::{Reading, arrange, read_lines};
use crate::tape::Tape;
use crate::written::push_event;
use std::alloc::{AllocError, Global};
use std::marker::Model;

/// The events of a run: at most 65,536, each in its ranges, in the order of their cycles.
#[derive(Debug, Drop)]
pub struct Script {
    events: Vec<Event>,
}

impl Model for Script {
    ghost use Rattle.std.specs.Prelude.{List};
    ghost use Rattle.agc_script.specs.declared.event.Event.{Event};
    ghost use Rattle.agc_script.specs.Script.{IsScript};

    ghost Value = { List Event };

    ghost view = { λ s. s.events.items };

    ghost invariant = { λ s. IsScript s.events.items };
}

impl Script {
    /// Returns the script without events.
    #[tactic(auto, unfolding(crate::specs::Script::IsInOrder))]
    pub fn empty(alloc: Global) -> Script
        ensures { result ≡ [] }
    {
        Script {
            events: Vec::new(alloc),
        }
    }

    /// Parses a file: the events of its lines, in the order of their cycles.
    ///
    /// An error names the first faulty line, and its first fault in the order of [`FaultKind`].
    /// `Memory` names the line at which memory ran out, which is not faulty itself, or the last
    /// line if memory ran out while the events were sorted.
    pub fn parse(alloc: Global, file: &[u8]) -> Result<Script, ScriptFault>
        ensures ok { IfOk result (λ script. script_of file.now ≡ Ok script) }
        ensures faultless { IfOk result
            (λ _. AreFaultless (lines_of file.now) (length (lines_of file.now))) }
        ensures arranged { IfOk result
            (λ script. IsArrangement (events_of_lines (lines_of file.now)) script) }
        ensures fault { IfErr result
            (λ fault. fault.kind ≢ FaultKind.Memory → script_of file.now ≡ Err fault) }
        ensures first_fault { IfErr result
            (λ fault. fault.kind ≢ FaultKind.Memory → IsFirstFault (lines_of file.now) fault) }
        ensures memory { IfErr result
            (λ fault. fault.kind ≡ FaultKind.Memory → IsSoundLine file.now fault.line) }
        ensures sound { IfErr result
            (λ fault. fault.kind ≡ FaultKind.Memory → AreFaultless (lines_of file.now) fault.line) }
    {
        let Reading { mut events, lines } = read_lines(alloc, file)?;
        match arrange(&mut events) {
            Ok(()) => Ok(Script { events }),
            Err(_) => Err(ScriptFault {
                line: lines,
                kind: FaultKind::Memory,
            }),
        }
    }

    /// Returns the number of events, at most 65,536.
    pub fn len(&self) -> usize
        ensures count { result ≡ length self.now }
        ensures script { IsScript self.now }
    {
        self.events.len()
    }

    /// Returns whether there are no events.
    pub fn is_empty(&self) -> bool
        ensures { result ≡ (length self.now == 0) }
    {
        self.events.is_empty()
    }

    /// Returns the event at a position, counted from 0.
    pub fn at(&self, i: usize) -> Event
        requires { i < length self.now }
        ensures event { slice_get self.now i ≡ Some result }
        ensures in_range { IsInRange result }
    {
        self.events[i]
    }

    /// Returns the events from a position on, counted from 0; an empty slice if there are no more.
    pub fn rest(&self, from: usize) -> &[Event]
        ensures { result.now ≡ drop from self.now }
    {
        let events = self.events.as_slice();
        &events[from.min(events.len())..]
    }

    /// Returns the events before a cycle, as a script. Fails when memory runs out.
    pub fn before(&self, alloc: Global, cycle: u64) -> Result<Script, AllocError>
        ensures { IfOk result (λ script. script ≡ before cycle self.now) }
    {
        let events = self.events.as_slice();
        let count = first_from(events, cycle).unwrap_or(events.len());
        let mut earlier = Vec::with_capacity(alloc, count)?;
        earlier.extend_from_slice(&events[..count])?;
        Ok(Script { events: earlier })
    }

    /// Reserves room for one more event, so that adding it cannot run out of memory.
    pub fn reserve(&mut self) -> Result<(), AllocError>
        ensures { self.new ≡ self.old }
    {
        self.events.reserve(1)
    }

    /// Appends an event whose cycle is not before the last event's. Fails with `TooMany` if the script has 65,536
    /// events, otherwise with `Memory`; the fault names no line, and the script stays unchanged.
    pub fn push(&mut self, cycle: u64, what: What) -> Result<(), ScriptFault>
        requires later { IsNotBefore self.old cycle }
        requires range { cycle ≤ last_cycle }
        requires what { IsWhatInRange what }
        ensures ok { OnOk result (self.new ≡ self.old ++ parsed_at what cycle ∷ []) }
        ensures err { OnErr result (self.new ≡ self.old) }
        ensures many { IsErrOf result too_many ↔ (length self.old ≡ most_events) }
        ensures memory { IfErr result (λ fault. fault ≢ too_many → fault ≡ no_memory) }
    {
        if self.events.len() == MOST_EVENTS {
            return Err(refused(FaultKind::TooMany));
        }
        let event = Event { cycle, what };
        match self.events.push(event) {
            Ok(()) => Ok(()),
            Err(_) => Err(refused(FaultKind::Memory)),
        }
    }

    /// Returns the script merged with another; each injected event follows all events of this
    /// script of its cycle or earlier. Fails with `TooMany` if both together have more than 65,536
    /// events, otherwise with `Memory`; the fault names no line.
    pub fn join(&self, alloc: Global, given: &Script) -> Result<Script, ScriptFault>
        ensures ok { IfOk result (λ script. script ≡ joined self.now given.now) }
        ensures both { IfOk result (λ script. IsMerge self.now given.now script) }
        ensures many { IsErrOf result too_many ↔ (most_events < length self.now + length given.now) }
        ensures memory { IfErr result (λ fault. fault ≢ too_many → fault ≡ no_memory) }
    {
        if given.len() > MOST_EVENTS - self.len() {
            return Err(refused(FaultKind::TooMany));
        }
        match join_events(alloc, &self.events, &given.events) {
            Ok(events) => Ok(Script { events }),
            Err(_) => Err(refused(FaultKind::Memory)),
        }
    }

    /// Returns the script merged with the keys of a tape; each key follows all events of its cycle
    /// or earlier. Fails with `TooMany` if both together have more than 65,536 entries, otherwise
    /// with `Memory`; the fault names no line.
    pub fn merge(&self, alloc: Global, tape: &Tape) -> Result<Script, ScriptFault>
        ensures ok { IfOk result (λ script. script ≡ merged self.now tape.now) }
        ensures both { IfOk result (λ script. IsMerge self.now (map key_event tape.now) script) }
        ensures many { IsErrOf result too_many ↔ (most_events < length self.now + length tape.now) }
        ensures memory { IfErr result (λ fault. fault ≢ too_many → fault ≡ no_memory) }
    {
        if tape.len() > MOST_EVENTS - self.len() {
            return Err(refused(FaultKind::TooMany));
        }
        match merge_tape(alloc, &self.events, tape) {
            Ok(events) => Ok(Script { events }),
            Err(_) => Err(refused(FaultKind::Memory)),
        }
    }

    /// Appends the script as text, a line for each event; it reads back as the same script. Fails
    /// when memory runs out.
    #[tactic(auto, unfolding(crate::specs::Written::script_text))]
    pub fn push_text(&self, text: &mut String) -> Result<(), AllocError>
        ensures { OnOk result
            (string_bytes text.new ≡ string_bytes text.old ++ script_text self.now) }
    {
        let events = self.events.as_slice();
        for event in events {
            push_event(text, event)?;
        }
        Ok(())
    }
}

/// Returns the position of the first event at a cycle or later.
fn first_from(events: &[Event], cycle: u64) -> Option<usize>
    ensures place { result ≡ position (λ event. nat_le cycle event.cycle) events.now }
    ensures bound { IfSome result (λ place. place < length events.now) }
{
    events.iter().position(|event| event.cycle >= cycle)
}

/// Merges a script's events and the keys of a tape into one list.
fn merge_tape(alloc: Global, script: &[Event], tape: &Tape) -> Result<Vec<Event>, AllocError>
    requires { length script.now + length tape.now ≤ most_events }
    ensures merged { IfOk result (λ events. events.items ≡ merged script.now tape.now) }
    ensures tape { IfOk result (λ _. IsTape tape.now) }
{
    let given = tape.events(alloc)?;
    join_events(alloc, script, &given)
}

/// Returns the fault of a failed push or merge, which names no line.
fn refused(kind: FaultKind) -> ScriptFault
    ensures { result ≡ record { line = 0; kind = kind } }
{
    ScriptFault { line: 0, kind }
}
