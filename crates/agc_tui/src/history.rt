//! Records the last boundaries of a session, as trace entries in folded lines.
ghost use Rattle.std.specs.Prelude.{◌≡◌, ◌==◌, ◌++◌, ◌∷◌, ◌-◌, take, [], All, IfOk, IfSome, OnOk, OnErr, None, length, option_copied};
ghost use Rattle.circular_buffer.specs.Buffer.{buffer, keep_last};
ghost use Rattle.agc_script.specs.Event.{IsWhatInRange};
ghost use Rattle.agc_machine.specs.Boundary.{boundary};
ghost use Rattle.agc_session.specs.Session.{HasGone, injected_now};
ghost use Rattle.agc_trace.specs.Entry.{FitsLine, entry_of, write_shown};
ghost use Rattle.agc_tui.specs.Fold.{Fits, added, counted_up};
ghost use Rattle.agc_tui.specs.History.{given_entry, with_last};

use crate::fold::Line;
use agc_machine::{Stepped, Upcoming};
use agc_script::What;
use agc_session::{InjectFault, Session};
use agc_trace::{Entry, registers_in, write_shown};
use circular_buffer::HeapCircularBuffer;
use std::alloc::{AllocError, Global};
use std::marker::Model;

/// The number of lines kept.
pub const KEPT: usize = 12;

/// The last boundaries of a session, in order: a line each, or one line for the equal ones of an idle loop.
#[derive(Drop)]
pub struct History {
    lines: HeapCircularBuffer<Line>,
}

impl Model for History {
    ghost use Rattle.std.specs.Prelude.{◌≡◌, List, All};
    ghost use Rattle.agc_tui.specs.Fold.{Fits};
    ghost use Rattle.agc_tui.specs.History.{most_recent};
    ghost use Rattle.agc_tui.specs.declared.fold.Line.{Line};

    ghost Value = { List Line };

    ghost view = { λ history. history.lines.items };

    ghost invariant = { λ history. All Fits history.lines.items × (history.lines.capacity ≡ most_recent) };
}

impl History {
    /// Creates an empty history.
    pub fn new(alloc: Global) -> Result<History, AllocError>
        ensures { IfOk result (λ history. history ≡ []) }
    {
        let lines = HeapCircularBuffer::with_capacity(alloc, KEPT)?;
        Ok(History { lines })
    }

    /// Takes one boundary of a session and records it as the last one.
    #[tactic(auto, unfolding(agc_trace::specs::Entry::entry_of))]
    pub fn step(&mut self, session: &mut Session)
        ensures retained { self.new ≡ with_last (entry_of session.old.now) self.old }
        ensures gone { HasGone session.old (boundary None session.old.now) (boundary None session.old.now).1 session.new }
    {
        let cycle = session.machine().cycle();
        let happening = session.machine().upcoming();
        // The proof needs the type of an event spelled out here.
        let _event = event_in(&happening);
        let write = write_shown(session.step());
        let entry = Entry {
            cycle,
            happening,
            write,
            registers: registers_in(session.machine().store()),
        };
        push_entry(&mut self.lines, entry);
    }

    /// Injects an event into a session, and records its boundary as the last one.
    #[tactic(auto, unfolding(crate::specs::History::given_entry))]
    pub fn inject(&mut self, session: &mut Session, what: What) -> Result<(), InjectFault>
        requires { IsWhatInRange what }
        ensures retained { OnOk result (self.new ≡ with_last (given_entry what session.old.now) self.old) }
        ensures injected { OnOk result (session.new ≡ injected_now what session.old) }
        ensures same { OnErr result (self.new ≡ self.old) }
        ensures refused { OnErr result (session.new ≡ session.old) }
    {
        // The proof needs the type of `what` spelled out here.
        let event = what;
        let given_at = session.machine().cycle();
        session.inject(event)?;
        let happening = Upcoming::Event(what);
        let write = write_shown(Stepped::Quiet);
        let registers = registers_in(session.machine().store());
        let entry = Entry {
            cycle: given_at,
            happening,
            write,
            registers,
        };
        push_entry(&mut self.lines, entry);
        Ok(())
    }

    /// Forgets all boundaries, because the session moved by others that are not recorded.
    pub fn forget(&mut self)
        ensures { self.new ≡ [] }
    {
        self.lines.clear();
    }

    /// Returns whether no boundary is recorded.
    pub fn is_empty(&self) -> bool
        ensures { result ≡ (length self.now == 0) }
    {
        self.lines.is_empty()
    }

    /// Returns the lines. Fails if memory runs out.
    pub(crate) fn lines(&self, alloc: Global) -> Result<Vec<Line>, AllocError>
        ensures lines { IfOk result (λ lines. lines.items ≡ self.now) }
        ensures fit { IfOk result (λ lines. All Fits lines.items) }
    {
        self.lines.to_vec(alloc)
    }
}

/// Appends a boundary: the last line counts up, or the boundary gets a line of its own, in place of the oldest one if the
/// buffer is full.
#[tactic(auto, unfolding(crate::specs::Fold::added), using(crate::proofs::Fits::kept_fit, crate::proofs::Fits::replaced_fit))]
fn push_entry(lines: &mut HeapCircularBuffer<Line>, entry: Entry)
    requires before { All Fits lines.old.items }
    requires entry { FitsLine entry }
    ensures lines { lines.new ≡ buffer
        (keep_last lines.old.capacity (added entry lines.old.items)) lines.old.capacity }
    ensures fit { All Fits lines.new.items }
{
    // The proof needs the type of an event spelled out here.
    let _event = event_in(&entry.happening);
    match counted_up(lines.back(), &entry) {
        Some(line) => replace_last(lines, line),
        None => push_last(lines, Line::alone(entry)),
    }
}

/// Appends an item, in place of the oldest one if the buffer is full.
fn push_last<T: Drop>(items: &mut HeapCircularBuffer<T>, item: T)
    ensures { items.new ≡ buffer
        (keep_last items.old.capacity (items.old.items ++ item ∷ [])) items.old.capacity }
{
    items.push_back(item);
}

/// Replaces the last item.
fn replace_last<T: Drop>(items: &mut HeapCircularBuffer<T>, item: T)
    ensures { items.new ≡ buffer
        (keep_last items.old.capacity (take (length items.old.items - 1) items.old.items ++ item ∷ [])) items.old.capacity }
{
    items.pop_back();
    items.push_back(item);
}

/// Returns a last line with one more boundary, or `None` if that needs a line of its own.
fn counted_up(line: Option<&Line>, entry: &Entry) -> Option<Line>
    ensures line { result ≡ counted_up (option_copied line.entry) entry.now }
    ensures last { IfSome result (λ line. line.last ≡ entry.now) }
{
    match line {
        Some(line) => line.with(entry),
        None => None,
    }
}

/// Returns the event that comes next, if one does.
fn event_in(happening: &Upcoming) -> Option<What> {
    match happening {
        Upcoming::Event(what) => Some(*what),
        _ => None,
    }
}
