//! The interactive session: a machine, the panel that its writes make, the events injected so far, and copies of the
//! machine to go back to.
ghost use Rattle.std.specs.Prelude.{◌≡◌, ◌⊎◌, ◌+◌, ◌<◌, ◌≤◌, ◌↔◌, false, IsSome, List, [], ◌∷◌, ◌++◌, All, length, None, Some};
ghost use Rattle.std.specs.Prelude.{IfOk, IfErr, IfSome, IsErrOf, IsOk, IsTrue, OnOk, OnErr};
ghost use Rattle.std.specs.Io.KnownBytes.{Appends};
ghost use Rattle.agc_word.specs.declared.channel_write.ChannelWrite.{ChannelWrite};
ghost use Rattle.agc_script.specs.Event.{IsWhatInRange, last_cycle, most_events};
ghost use Rattle.agc_script.specs.Injection.{parsed_at};
ghost use Rattle.agc_script.specs.Merge.{joined};
ghost use Rattle.agc_script.specs.Script.{IsInOrder, IsNotBefore};
ghost use Rattle.agc_script.specs.Written.{script_text};
ghost use Rattle.agc_machine.specs.Boundary.{boundary, WantsKey};
ghost use Rattle.agc_machine.specs.Laws.{HasChannel};
ghost use Rattle.agc_machine.specs.Run.{next_before};
ghost use Rattle.agc_machine.specs.State.{start_state};
ghost use Rattle.agc_machine.specs.declared.answer.Stepped.{Stepped};
ghost use Rattle.agc_machine.specs.Replay.{writes_in};
ghost use Rattle.agc_panel.specs.Face.{panel_of};
ghost use Rattle.agc_session.specs.Condition.{AreArmedInRange, Ends, HasRunTo, IsConditionInRange, IsFoundBack, first_hit, next_stretch};
ghost use Rattle.agc_session.specs.Checkpoints.{IsCheckpoint, IsOnWay, counted};
ghost use Rattle.agc_session.specs.Session.{HasGone, HasReached, IsReplay, injected_now, shown_after, start_with};
ghost use Rattle.agc_session.specs.Session.{discarded, retained_before, script_of, script_before};

use crate::cancellation::{Cancellation, NoCancellation};
use crate::checkpoint::{Checkpoint, Checkpoints};
use crate::comparison::{has_changed, word_of};
use crate::condition::{
    Armed, Condition, first_hit, is_caller_next, is_hit_by_write, is_order_next, is_order_next_if,
    is_service_next, needs_each,
};
use crate::fault::{BeginFault, InjectFault, RewindFailed, SearchFault};
use crate::search::search_back;
use crate::writing::{events_since, write_joined};
use agc_machine::{LimitFault, Machine, Stepped};
use agc_panel::Panel;
use agc_script::{MOST_EVENTS, Script, What};
use agc_store::Rope;
use std::alloc::{AllocError, Global};
use std::io::{self, Write};
use std::marker::Model;

/// The scripts that a rewind starts from.
#[derive(Drop)]
struct Known {
    retained: Script,
    script: Script,
    /// A second copy of the script, for the machine.
    events: Script,
}

/// An interactive session: runs by boundaries, takes events at the present cycle, and rewinds. Its state and what it
/// has shown are always those of the plain run of [`Session::script`].
#[derive(Drop)]
pub struct Session {
    machine: Machine,
    panel: Panel,
    /// The script that the session was opened with.
    base: Script,
    /// The events injected before the last rewind that it retained.
    retained: Script,
    /// The events known at the last start: `base` and `retained` merged.
    script: Script,
    /// The events injected since then, each at the cycle of its injection.
    injected: Script,
    /// The number of channel writes from the start to here.
    writes: usize,
    /// Copies of the machine, to go back to.
    checkpoints: Checkpoints,
}

/// A session that has gone back, and the number of channel writes from the start to where it is now.
#[derive(Drop)]
pub struct Rewound {
    pub session: Session,
    pub writes: usize,
}

/// What a run has come to.
#[derive(Clone, Copy, Debug, PartialEq, Eq)]
pub struct Advanced {
    /// What the last boundary returned.
    pub stepped: Stepped,
    /// The first condition that it has hit.
    pub hit: Option<Armed>,
}

/// A state from which a run continues.
struct Resumed {
    machine: Machine,
    panel: Panel,
    writes: usize,
}

impl Model for Session {
    ghost use Rattle.agc_session.specs.Checkpoints.{IsKept};
    ghost use Rattle.agc_session.specs.Session.{SessionState};

    ghost Value = { SessionState };

    ghost view = { λ s. record { base = s.base; retained = s.retained; script = s.script; injected = s.injected; now = s.machine; panel = s.panel } };

    ghost invariant = { λ s. IsKept (record { base = s.base; retained = s.retained; script = s.script; injected = s.injected; now = s.machine; panel = s.panel })
        s.writes s.checkpoints.copies.items };
}

impl Session {
    /// Creates a session at the start of time: nothing has happened yet. The script may be empty.
    pub fn new(alloc: Global, rope: Rope, script: Script, limit: u64) -> Result<Session, BeginFault>
        ensures base { IfOk result (λ session. session.base ≡ script) }
        ensures retained { IfOk result (λ session. session.retained ≡ []) }
        ensures script { IfOk result (λ session. session.script ≡ script) }
        ensures injected { IfOk result (λ session. session.injected ≡ []) }
        ensures now { IfOk result (λ session. session.now ≡ start_state rope script limit None) }
        ensures panel { IfOk result (λ session. session.panel ≡ panel_of []) }
        ensures zero { IsErrOf result (BeginFault.Limit LimitFault.Zero)
            ↔ (limit ≡ 0) × (IsErrOf result BeginFault.Memory → ⊥) }
        ensures too_large { IsErrOf result (BeginFault.Limit LimitFault.TooLarge)
            ↔ (1000000000000 < limit) × (IsErrOf result BeginFault.Memory → ⊥) }
        ensures in_range { IsOk result
            ↔ (0 < limit) × (limit ≤ 1000000000000) × (IsErrOf result BeginFault.Memory → ⊥) }
    {
        let known = copied(alloc, &script).ok_or(BeginFault::Memory)?;
        let events = copied(alloc, &script).ok_or(BeginFault::Memory)?;
        match Machine::new(rope, events, limit) {
            Ok(machine) => Ok(Session {
                machine,
                panel: Panel::new(),
                base: script,
                retained: Script::empty(alloc),
                script: known,
                injected: Script::empty(alloc),
                writes: 0,
                checkpoints: Checkpoints::new(alloc),
            }),
            Err(refused) => Err(BeginFault::Limit(refused.fault)),
        }
    }

    /// Takes one boundary: an event, a timer step, an interrupt, an order, or the stop.
    pub fn step(&mut self) -> Stepped
        ensures gone { HasGone self.old (boundary None self.old.now) result self.new }
        ensures channel { HasChannel result }
    {
        self.copy_if_due();
        let stepped = self.machine.step(None);
        show(&mut self.panel, &mut self.writes, stepped)
    }

    /// Runs to the next channel write or to the stop, but no further than the first boundary that ends at `cycle` or
    /// later, for which it returns `Quiet`. Takes at least one boundary.
    pub fn go_on(&mut self, cycle: u64) -> Stepped
        ensures gone { HasGone self.old (next_before cycle self.old.now) result self.new }
        ensures channel { HasChannel result }
    {
        loop {
            self.copy_if_due();
            match self.go_stretch(cycle.min(self.checkpoints.due)) {
                Stepped::Quiet => {
                    if cycle <= self.machine.cycle() {
                        return Stepped::Quiet;
                    }
                }
                Stepped::Wrote(write) => return Stepped::Wrote(write),
                Stepped::Stopped(why) => return Stepped::Stopped(why),
            }
        }
    }

    /// Does the same without making a copy on the way.
    fn go_stretch(&mut self, cycle: u64) -> Stepped
        ensures gone { HasGone self.old (next_before cycle self.old.now) result self.new }
        ensures channel { HasChannel result }
    {
        let stepped = self.machine.next_write_before(cycle);
        show(&mut self.panel, &mut self.writes, stepped)
    }

    /// Makes a copy of the machine if one is due and no event of the script is.
    #[inline]
    fn copy_if_due(&mut self)
        ensures { self.new ≡ self.old }
    {
        if self.checkpoints.due <= self.machine.cycle() && self.machine.wants_key() {
            self.make_copy();
        }
    }

    /// Makes a copy of the machine, if there is memory for it. This is a function of its own because each call clears the
    /// room of all its variables.
    #[cold]
    #[inline(never)]
    fn make_copy(&mut self)
        ensures { self.new ≡ self.old }
    {
        self.checkpoints.wait(self.machine.cycle());
        if let Some(copy) = self.checkpoint() {
            self.checkpoints.keep(copy);
        }
    }

    /// Runs to the first boundary that ends at `cycle` or later, or to the stop if that comes first.
    pub fn go_to(&mut self, cycle: u64)
        ensures reached { HasReached cycle self.old.now self.new.now }
        ensures base { self.new.base ≡ self.old.base }
        ensures retained { self.new.retained ≡ self.old.retained }
        ensures script { self.new.script ≡ self.old.script }
        ensures injected { self.new.injected ≡ self.old.injected }
    {
        while self.machine.cycle() < cycle {
            match self.go_on(cycle) {
                Stepped::Quiet => {}
                Stepped::Wrote(_) => {}
                Stepped::Stopped(_) => return,
            }
        }
    }

    /// Restarts at the start of time without the events injected at `cycle` or later, which are discarded. Those
    /// injected earlier will happen again. Injecting all discarded events again restores the script. If memory runs
    /// out, returns the session unchanged.
    pub fn rewind(self, alloc: Global, cycle: u64) -> Result<Session, RewindFailed>
        ensures base { IfOk result (λ session. session.base ≡ self.base) }
        ensures retained { IfOk result (λ session. session.retained ≡ retained_before cycle self) }
        ensures script { IfOk result (λ session. session.script ≡ script_before cycle self) }
        ensures again { IfOk result (λ session. joined session.script (discarded cycle self) ≡ script_of self) }
        ensures injected { IfOk result (λ session. session.injected ≡ []) }
        ensures now { IfOk result
            (λ session. session.now ≡ start_with (script_before cycle self) self.now) }
        ensures panel { IfOk result (λ session. session.panel ≡ panel_of []) }
        ensures err { IfErr result (λ refused. refused.session ≡ self) }
    {
        let Some(known) = self.known_before(alloc, cycle) else {
            return Err(RewindFailed { session: self });
        };
        let Known {
            retained,
            script,
            events,
        } = known;
        let Session { machine, base, .. } = self;
        Ok(Session {
            machine: machine.restart_with(events),
            panel: Panel::new(),
            base,
            retained,
            script,
            injected: Script::empty(alloc),
            writes: 0,
            checkpoints: Checkpoints::new(alloc),
        })
    }

    /// Discards the events that [`rewind`](Session::rewind) discards, and goes back to the newest copy of the machine
    /// below `before`, otherwise to the start of time. If memory runs out, returns the session unchanged.
    pub fn rewind_near(
        self,
        alloc: Global,
        cycle: u64,
        before: u64,
    ) -> Result<Rewound, RewindFailed>
        ensures base { IfOk result (λ rewound. rewound.session.base ≡ self.base) }
        ensures retained { IfOk result (λ rewound. rewound.session.retained ≡ retained_before cycle self) }
        ensures script { IfOk result (λ rewound. rewound.session.script ≡ script_before cycle self) }
        ensures again { IfOk result
            (λ rewound. joined rewound.session.script (discarded cycle self) ≡ script_of self) }
        ensures injected { IfOk result (λ rewound. rewound.session.injected ≡ []) }
        ensures way { IfOk result (λ rewound. IsOnWay before (start_with (script_before cycle self) self.now)
            rewound.session.now rewound.session.panel rewound.writes) }
        ensures err { IfErr result (λ refused. refused.session ≡ self) }
    {
        let Some(known) = self.known_before(alloc, cycle) else {
            return Err(RewindFailed { session: self });
        };
        let Known {
            retained,
            script,
            events,
        } = known;
        let Session {
            machine,
            base,
            mut checkpoints,
            ..
        } = self;
        let Resumed {
            machine,
            panel,
            writes,
        } = resume(machine, &mut checkpoints, events, before);
        checkpoints.wait(machine.cycle());
        let session = Session {
            machine,
            panel,
            base,
            retained,
            script,
            injected: Script::empty(alloc),
            writes,
            checkpoints,
        };
        Ok(Rewound { session, writes })
    }

    /// Restarts as [`rewind`](Session::rewind) does, and runs to `cycle`. If memory runs out, returns the session
    /// unchanged.
    pub fn rewind_to(self, alloc: Global, cycle: u64) -> Result<Session, RewindFailed>
        ensures base { IfOk result (λ session. session.base ≡ self.base) }
        ensures retained { IfOk result (λ session. session.retained ≡ retained_before cycle self) }
        ensures script { IfOk result (λ session. session.script ≡ script_before cycle self) }
        ensures again { IfOk result (λ session. joined session.script (discarded cycle self) ≡ script_of self) }
        ensures injected { IfOk result (λ session. session.injected ≡ []) }
        ensures reached { IfOk result
            (λ session. HasReached cycle (start_with (script_before cycle self) self.now) session.now) }
        ensures err { IfErr result (λ refused. refused.session ≡ self) }
    {
        let Rewound { mut session, .. } = self.rewind_near(alloc, cycle, cycle)?;
        session.go_to(cycle);
        Ok(session)
    }

    /// Returns the scripts for a rewind to before `cycle`, or `None` if memory runs out.
    fn known_before(&self, alloc: Global, cycle: u64) -> Option<Known>
        ensures retained { IfSome result (λ known. known.retained ≡ retained_before cycle self.now) }
        ensures script { IfSome result (λ known. known.script ≡ script_before cycle self.now) }
        ensures again { IfSome result (λ known. joined known.script (discarded cycle self.now) ≡ script_of self.now) }
        ensures same { IfSome result (λ known. known.events ≡ known.script) }
        ensures bound { IfSome result (λ known. length known.script ≤ most_events) }
    {
        rises(&self.retained);
        rises(&self.injected);
        let retained = self.retained.before(alloc, cycle).ok()?;
        let injected = self.injected.before(alloc, cycle).ok()?;
        let retained = retained.join(alloc, &injected).ok()?;
        let script = self.base.join(alloc, &retained).ok()?;
        let events = copied(alloc, &script)?;
        Some(Known {
            retained,
            script,
            events,
        })
    }

    /// Injects an event at the present cycle, after the script's events of this cycle and after the events injected
    /// at it before.
    pub fn inject(&mut self, what: What) -> Result<(), InjectFault>
        requires { IsWhatInRange what }
        ensures ok { OnOk result (self.new ≡ injected_now what self.old) }
        ensures err { OnErr result (self.new ≡ self.old) }
        ensures wanted { OnOk result (WantsKey self.old.now) }
        ensures unwanted { IsErrOf result InjectFault.Unwanted ↔ (WantsKey self.old.now → ⊥) }
        ensures many { WantsKey self.old.now → (IsErrOf result InjectFault.TooMany
            ↔ (length self.old.script + length self.old.injected ≡ most_events)) }
    {
        if !self.machine.wants_key() {
            return Err(InjectFault::Unwanted);
        }
        if self.script.len() + self.injected.len() == MOST_EVENTS {
            return Err(InjectFault::TooMany);
        }
        let cycle = self.machine.cycle();
        // The proof needs the type of `what` spelled out here.
        let event = what;
        keep(&mut self.injected, cycle, event)?;
        self.machine.inject(what);
        Ok(())
    }

    /// Reserves room for one more event. Fails with `TooMany` or `Memory`.
    pub fn make_room(&mut self) -> Result<(), InjectFault>
        ensures same { self.new ≡ self.old }
        ensures many { IsErrOf result InjectFault.TooMany
            ↔ (length self.old.script + length self.old.injected ≡ most_events) }
        ensures fault { IsErrOf result InjectFault.Unwanted → ⊥ }
    {
        if MOST_EVENTS <= self.script.len() + self.injected.len() {
            return Err(InjectFault::TooMany);
        }
        match self.injected.reserve() {
            Ok(()) => Ok(()),
            Err(_) => Err(InjectFault::Memory),
        }
    }

    /// Returns the script of the session, whose plain run replays the session up to now, or `None` if memory runs
    /// out.
    pub fn script(&self, alloc: Global) -> Option<Script>
        ensures script_of { IfSome result (λ script. script ≡ script_of self.now) }
        ensures replay { IfSome result (λ script. IsReplay script self.now) }
    {
        self.script.join(alloc, &self.injected).ok()
    }

    /// Returns a copy of the present state. Returns `None` if memory runs out, the machine has stopped, or an event of the
    /// script is due.
    fn checkpoint(&self) -> Option<Checkpoint>
        ensures { IfSome result (IsCheckpoint self.now.now.processor.store.fixed self.now.now.limit) }
    {
        if !self.machine.wants_key() {
            return None;
        }
        rises(&self.script);
        let alloc = *self.checkpoints.copies.allocator();
        let known = self.script.before(alloc, self.machine.cycle() + 1).ok()?;
        if self.script.len() - known.len() != self.machine.events_left().len() {
            return None;
        }
        let taken = known.join(alloc, &self.injected).ok()?;
        let machine = self.machine.copy_with(alloc, Script::empty(alloc))?;
        Some(Checkpoint {
            machine,
            panel: self.panel,
            writes: self.writes,
            taken,
        })
    }

    /// Returns the cycle at which the last boundary before now began that hits a condition: with `count` 2 the last but
    /// one, and so on. Returns `None` if there were fewer. Boundaries of a stopped machine do not count. Runs copies of
    /// the machine, and fails when memory runs out.
    pub fn last_hit(
        &self,
        alloc: Global,
        condition: Condition,
        count: u64,
    ) -> Result<Option<u64>, AllocError>
        requires some { 0 < count }
        requires range { IsConditionInRange condition }
        ensures { IfOk result (IsFoundBack condition count self.now) }
    {
        match self.last_hit_unless(alloc, condition, count, &mut NoCancellation) {
            Ok(found) => Ok(found),
            Err(_) => Err(AllocError),
        }
    }

    /// Does the same unless it is cancelled. Asks whether it is at the start, and after a stretch that takes some 50
    /// milliseconds.
    pub fn last_hit_unless<C: Cancellation>(
        &self,
        alloc: Global,
        condition: Condition,
        count: u64,
        cancellation: &mut C,
    ) -> Result<Option<u64>, SearchFault>
        requires some { 0 < count }
        requires range { IsConditionInRange condition }
        ensures { IfOk result (IsFoundBack condition count self.now) }
    {
        let script = self.script(alloc).ok_or(SearchFault::Memory)?;
        search_back(
            &condition,
            count,
            &self.machine,
            &self.checkpoints,
            &script,
            cancellation,
        )
    }

    /// Runs on towards the first of some conditions that is hit: to the next channel write if only a write can hit one,
    /// but no further than [`go_on`](Session::go_on), otherwise by one boundary.
    pub fn advance(&mut self, armed: &[Armed], cycle: u64) -> Advanced
        requires { AreArmedInRange armed.now }
        ensures gone { HasGone self.old (next_stretch armed.now cycle self.old.now) result.stepped self.new }
        ensures hit { result.hit ≡ first_hit armed.now self.old.panel self.new.now result.stepped }
        ensures channel { HasChannel result.stepped }
    {
        let before = *self.panel();
        let stepped = self.run_stretch(armed, cycle);
        let hit = first_hit(armed, &stepped, &before, self.panel(), self.machine());
        Advanced { stepped, hit }
    }

    /// Does the same without looking whether a condition is hit.
    fn run_stretch(&mut self, armed: &[Armed], cycle: u64) -> Stepped
        ensures gone { HasGone self.old (next_stretch armed.now cycle self.old.now) result self.new }
        ensures channel { HasChannel result }
    {
        if needs_each(armed) {
            self.step()
        } else {
            self.go_on(cycle)
        }
    }

    /// Runs to the first boundary that hits a condition, and returns true; for an order, to just before it. Returns
    /// false if a boundary ends at `cycle` or later, or the machine stops, before that. Takes no boundary if the cycle
    /// is reached already.
    pub fn go_until(&mut self, condition: Condition, cycle: u64) -> bool
        requires { IsConditionInRange condition }
        ensures { HasRunTo condition cycle self.old self.new result }
    {
        while self.is_short_of(cycle) {
            if self.step_to(&condition) {
                return true;
            }
        }
        false
    }

    /// Returns whether the machine has neither reached a cycle nor stopped.
    fn is_short_of(&self, cycle: u64) -> bool
        ensures short { IsTrue result → (self.now.now.cycle < cycle) × (self.now.now.stopped ≡ None) }
        ensures ended { result ≡ false → (cycle ≤ self.now.now.cycle) ⊎ IsSome self.now.now.stopped }
    {
        self.machine().cycle() < cycle && self.machine().stopped().is_none()
    }

    /// Takes one boundary, and returns whether a run forward ends there.
    fn step_to(&mut self, condition: &Condition) -> bool
        requires { IsConditionInRange condition.now }
        ensures gone { (answer : Stepped) × HasGone self.old (boundary None self.old.now) answer self.new }
        ensures ends { IsTrue result ↔ Ends condition.now self.old.panel self.old.now }
    {
        match condition {
            Condition::Boundary => {
                self.step();
                true
            }
            Condition::Order(place) => {
                self.step();
                is_order_next(self.machine(), *place)
            }
            Condition::OrderIf { place, comparison } => {
                self.step();
                is_order_next_if(self.machine(), *place, comparison)
            }
            Condition::Caller(caller) => {
                self.step();
                is_caller_next(self.machine(), caller)
            }
            Condition::Cell(cell) => {
                let before = word_of(self.machine().store(), *cell);
                self.step();
                has_changed(self.machine().store(), *cell, before)
            }
            Condition::Interrupt(which) => {
                let hit = is_service_next(self.machine(), *which);
                self.step();
                hit
            }
            Condition::Write { .. } | Condition::Panel | Condition::Shows(_) => {
                let before = *self.panel();
                let stepped = self.step();
                is_hit_by_write(condition, &stepped, &before, self.panel())
            }
        }
    }

    /// Returns the number of events in the script of the session.
    pub fn events(&self) -> usize
        ensures { result ≡ length self.now.script + length self.now.injected }
    {
        self.script.len() + self.injected.len()
    }

    /// Writes the script of the session as text, a line for each event. Uses `line` for one line at a time, so it
    /// needs no memory if `line` has room for [`LINE_ROOM`](crate::LINE_ROOM) bytes.
    #[tactic(auto, unfolding(agc_script::specs::Written::script_text))]
    pub fn write_script<W: Write>(&self, line: &mut String, out: &mut W) -> io::Result<()>
        ensures written { OnOk result (Appends (W.contents out.old) (W.contents out.new)
            (script_text (script_of self.now))) }
    {
        let _count = self.script.len();
        write_joined(out, line, self.script.rest(0), self.injected.rest(0))
    }

    /// Writes the events that [`rewind`](Session::rewind) to `cycle` discards as text, a line for each. Uses `line` as
    /// [`write_script`](Session::write_script) does.
    #[tactic(auto, unfolding(agc_script::specs::Written::script_text))]
    pub fn write_discarded<W: Write>(
        &self,
        cycle: u64,
        line: &mut String,
        out: &mut W,
    ) -> io::Result<()>
        ensures written { OnOk result (Appends (W.contents out.old) (W.contents out.new)
            (script_text (discarded cycle self.now))) }
    {
        let _count = self.retained.len();
        let retained = events_since(self.retained.rest(0), cycle);
        let injected = events_since(self.injected.rest(0), cycle);
        write_joined(out, line, retained, injected)
    }

    /// Returns the machine in its present state.
    pub fn machine(&self) -> &Machine
        ensures { result.now ≡ self.now.now }
    {
        &self.machine
    }

    /// Returns the panel in its present state.
    pub fn panel(&self) -> &Panel
        ensures { result.now ≡ self.now.panel }
    {
        &self.panel
    }
}

/// Returns the state from which the run of these events continues: the newest copy below `before` that it leads to,
/// or its start.
fn resume(machine: Machine, checkpoints: &mut Checkpoints, events: Script, before: u64) -> Resumed
    requires { All (IsCheckpoint machine.processor.store.fixed machine.limit) checkpoints.old.copies.items }
    ensures way { IsOnWay before (start_with events machine) result.machine result.panel result.writes }
    ensures right { All (IsCheckpoint machine.processor.store.fixed machine.limit) checkpoints.new.copies.items }
{
    let Some(copy) = checkpoints.take_newest(&events, before) else {
        return Resumed {
            machine: machine.restart_with(events),
            panel: Panel::new(),
            writes: 0,
        };
    };
    let Checkpoint {
        machine,
        panel,
        writes,
        taken,
    } = copy;
    Resumed {
        machine: machine.resume_with(events, taken.len()),
        panel,
        writes,
    }
}

/// Applies the write of a boundary, if there is one, to the panel, and counts it.
#[tactic(auto, unfolding(agc_machine::specs::Replay::writes_in))]
fn show(panel: &mut Panel, writes: &mut usize, stepped: Stepped) -> Stepped
    ensures same { result ≡ stepped }
    ensures named { panel.new ≡ shown_after stepped panel.old }
    ensures all { (taken : List ChannelWrite) → panel.old ≡ panel_of taken
        → panel.new ≡ panel_of (taken ++ writes_in (stepped ∷ [])) }
    ensures count { (taken : List ChannelWrite) → writes.old ≡ counted taken
        → writes.new ≡ counted (taken ++ writes_in (stepped ∷ [])) }
{
    match stepped {
        Stepped::Quiet => Stepped::Quiet,
        Stepped::Wrote(write) => {
            panel.take(&write);
            *writes = writes.saturating_add(1);
            Stepped::Wrote(write)
        }
        Stepped::Stopped(why) => Stepped::Stopped(why),
    }
}

/// Shows the proof that the cycles of a script never fall. Does nothing at run time.
fn rises(script: &Script)
    ensures { IsInOrder script.now }
{
    let _events = script.len();
}

/// Appends an event at this cycle to the injected ones.
fn keep(injected: &mut Script, cycle: u64, what: What) -> Result<(), InjectFault>
    requires later { IsNotBefore injected.old cycle }
    requires range { cycle ≤ last_cycle }
    requires what { IsWhatInRange what }
    ensures ok { OnOk result (injected.new ≡ injected.old ++ parsed_at what cycle ∷ []) }
    ensures err { OnErr result (injected.new ≡ injected.old) }
    ensures fault { IfErr result (λ fault. fault ≡ InjectFault.Memory) }
{
    match injected.push(cycle, what) {
        Ok(()) => Ok(()),
        Err(_) => Err(InjectFault::Memory),
    }
}

/// Returns a copy of the script, or `None` if memory runs out.
pub(crate) fn copied(alloc: Global, script: &Script) -> Option<Script>
    ensures { IfSome result (λ copy. copy ≡ script.now) }
{
    script.join(alloc, &Script::empty(alloc)).ok()
}
