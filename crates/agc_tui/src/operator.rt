//! The operator: queues typed keys and presses each one when the machine can accept it.
ghost use Rattle.std.specs.Prelude.{◌≡◌, ◌<◌, ◌^◌, ◌-◌, [], false, true, IfOk, IfSome, IsSome, IsTrue, None, OnErr, OnOk, Some};
ghost use Rattle.std.specs.Io.KnownBytes.{Appends};
ghost use Rattle.agc_script.specs.Event.{IsWhatInRange};
ghost use Rattle.agc_script.specs.Written.{script_text};
ghost use Rattle.agc_session.specs.Condition.{HasRunTo, IsConditionInRange, IsFoundBack};
ghost use Rattle.agc_session.specs.Session.{script_of};
ghost use Rattle.agc_tui.specs.Operator.{HasBegunBack, HasSought, IsCutAt, IsIdle, IsRerunOf, Keeps, is_held};

use crate::history::{History, KEPT};
use crate::keyboard::Button;
use agc_machine::{Machine, Stop};
use agc_script::{MOST_EVENTS, Script, What};
use agc_session::{Cancellation, Condition, InjectFault, SearchFault, Session};
use std::alloc::{AllocError, Global};
use std::io::{self, Write};

/// The least number of cycles between two keys: a tenth of a second, so that a program that each key interrupts has
/// time to take it.
const SPACING: u64 = 8_533;

/// The number of cycles that PRO is held: a fifth of a second.
const PRO_HELD: u64 = 17_067;

/// The last cycles of a rerun, a tenth of a second, whose boundaries are taken one by one: they fill a history, because no
/// boundary takes more than six, and count an idle loop.
const RECENT_CYCLES: u64 = 8_533;

/// A key press.
#[derive(Clone, Copy, Debug, PartialEq, Eq)]
struct Press {
    button: Button,
    /// The cycle at which the key went down.
    cycle: u64,
    /// The cycle at which PRO was released.
    released: Option<u64>,
}

/// A run again from a copy of the machine or from the start, to where the session goes back to or to the stop.
#[derive(Clone, Copy, Debug, PartialEq, Eq)]
struct Rerun {
    /// The cycle that it runs to.
    to: u64,
    /// Whether it takes the events of that cycle too.
    with_events: bool,
    /// The cycle of the session at its end, and the limit with which `agc` gets as far.
    end: u64,
    limit: u64,
}

/// A session, the keys that wait to be pressed, and those that were pressed.
#[derive(Drop)]
pub struct Operator {
    session: Session,
    /// The last boundaries of the session; empty if they are not known.
    history: History,
    /// The keys that were typed but not yet pressed, in the order of typing.
    waiting: Vec<Button>,
    /// The keys that were pressed, in order.
    pressed: Vec<Press>,
    /// The rerun that has not ended yet.
    rerun: Option<Rerun>,
}

impl Operator {
    /// Creates an operator who has typed nothing.
    pub fn new(alloc: Global, session: Session) -> Result<Operator, AllocError> {
        let history = History::new(alloc)?;
        Ok(Operator {
            session,
            history,
            waiting: Vec::new(alloc),
            pressed: Vec::new(alloc),
            rerun: None,
        })
    }

    /// Queues a typed key until it can be pressed.
    pub fn type_key(&mut self, button: Button) -> Result<(), AllocError> {
        match self.waiting.push(button) {
            Ok(()) => Ok(()),
            Err(_) => Err(AllocError),
        }
    }

    /// Returns the number of waiting keys.
    pub fn waiting(&self) -> usize {
        self.waiting.len()
    }

    pub fn session(&self) -> &Session {
        &self.session
    }

    /// Returns the last boundaries of the session, if they are known.
    pub fn history(&self) -> &History {
        &self.history
    }

    pub fn machine(&self) -> &Machine {
        self.session.machine()
    }

    /// Returns the present cycle.
    pub fn cycle(&self) -> u64 {
        self.machine().cycle()
    }

    /// Returns the limit with which `agc` gets as far as this session. It is above the present cycle if a key was
    /// pressed at this cycle or an order stopped the machine, because both only happen below the limit.
    /// During a rerun it is the one for its end.
    pub fn limit_to_repeat(&self) -> u64 {
        if let Some(rerun) = self.rerun {
            return rerun.limit;
        }
        let cycle = self.cycle();
        match self.machine().stopped() {
            Some(Stop::Limit) => cycle.max(1),
            None => self.limit_at(cycle),
            Some(_) => cycle.saturating_add(1),
        }
    }

    /// Returns the limit with which `agc` gets to a cycle, and takes a key that was pressed last at it.
    fn limit_at(&self, cycle: u64) -> u64 {
        match self.pressed.last() {
            Some(last) if last.released.unwrap_or(last.cycle) == cycle => cycle.saturating_add(1),
            _ => cycle.max(1),
        }
    }

    /// Runs to `cycle` or to the stop, and presses each waiting key on the way as soon as it can be.
    pub fn go_to(&mut self, cycle: u64) -> Result<(), InjectFault> {
        for _key in 0..u64::MAX {
            self.press_due()?;
            if cycle <= self.cycle() || self.has_stopped() {
                return Ok(());
            }
            let next = self.next_pause(cycle);
            self.run_to(next);
        }
        Ok(())
    }

    /// Presses the keys that are due, and runs to the first boundary that hits a condition, but not past `cycle`, the stop
    /// or the cycle at which the next key is due. Returns whether one has hit.
    pub fn seek(&mut self, condition: Condition, cycle: u64) -> Result<bool, InjectFault>
        requires { IsConditionInRange condition }
        ensures sought { IfOk result (HasSought condition cycle self.old self.new.session) }
        ensures kept { Keeps self.old.session self.new.session }
    {
        self.press_due()?;
        let end = self.next_pause(cycle);
        Ok(self.run_until(condition, end))
    }

    /// Takes one boundary, after the keys that are due.
    pub fn step(&mut self) -> Result<(), InjectFault> {
        self.press_due()?;
        self.take_boundary();
        Ok(())
    }

    /// Takes as many boundaries as the history keeps, one by one, so that they are recorded.
    pub fn step_tail(&mut self) -> Result<(), InjectFault> {
        for _boundary in 0..KEPT {
            self.step()?;
        }
        Ok(())
    }

    /// Runs to `cycle` or to the stop at full speed, without recording boundaries.
    fn run_to(&mut self, cycle: u64) {
        self.history.forget();
        self.session.go_to(cycle);
    }

    /// Runs to the first boundary that hits a condition, or to `cycle` or the stop, without recording boundaries. Returns
    /// whether one has hit.
    fn run_until(&mut self, condition: Condition, cycle: u64) -> bool
        requires { IsConditionInRange condition }
        ensures { HasRunTo condition cycle self.old.session self.new.session result }
    {
        self.history.forget();
        self.session.go_until(condition, cycle)
    }

    /// Takes one boundary, or none if the machine has stopped.
    fn take_boundary(&mut self)
        ensures { Keeps self.old.session self.new.session }
    {
        if self.has_stopped() {
            return;
        }
        self.history.step(&mut self.session);
    }

    /// Runs to `cycle` or to the stop, and takes the last boundaries one by one so that they are recorded.
    fn run_recorded_to(&mut self, cycle: u64) {
        self.run_to(cycle.saturating_sub(RECENT_CYCLES));
        for _boundary in 0..u64::MAX {
            if cycle <= self.cycle() || self.has_stopped() {
                return;
            }
            self.take_boundary();
        }
    }

    /// Returns whether the machine has stopped.
    pub fn has_stopped(&self) -> bool {
        self.machine().stopped().is_some()
    }

    /// Returns the cycle at which the next key is pressed or PRO released, or the largest number if nothing is due.
    fn next_due(&self) -> u64
        ensures { IsIdle self.now → result ≡ 2 ^ 64 - 1 }
    {
        let up = self.release_due().unwrap_or(u64::MAX);
        match self.waiting.first() {
            Some(_) if up == u64::MAX => self.press_possible(),
            _ => up,
        }
    }

    /// Returns a cycle, or the one at which the next key is due if that is sooner.
    fn next_pause(&self, cycle: u64) -> u64
        ensures { IsIdle self.now → result ≡ cycle }
    {
        cycle.min(self.next_due())
    }

    /// Returns the cycle from which on a key may be pressed: some time after the last press, or after the release of
    /// PRO.
    fn press_possible(&self) -> u64 {
        match self.pressed.last() {
            Some(last) => last.released.unwrap_or(last.cycle).saturating_add(SPACING),
            None => 0,
        }
    }

    /// Returns the cycle at which PRO is released, if it is down.
    fn release_due(&self) -> Option<u64>
        ensures { IsSome result → IsTrue (is_held self.now.pressed.items) }
    {
        match self.pressed.last() {
            Some(
                Press {
                    button: Button::Pro,
                    cycle,
                    released: None,
                },
            ) => Some(cycle.saturating_add(PRO_HELD)),
            _ => None,
        }
    }

    /// Releases PRO if that is due, and presses the next key if possible. A machine that has stopped takes no keys,
    /// so those that wait are dropped.
    fn press_due(&mut self) -> Result<(), InjectFault>
        ensures kept { Keeps self.old.session self.new.session }
        ensures same { IsIdle self.old → self.new.session ≡ self.old.session }
        ensures idle { IsIdle self.old → IsIdle self.new }
    {
        if self.has_stopped() {
            self.waiting.clear();
            return Ok(());
        }
        if let Some(due) = self.release_due() {
            return if due <= self.cycle() {
                self.release()
            } else {
                Ok(())
            };
        }
        if self.press_possible() <= self.cycle() {
            self.press_first()
        } else {
            Ok(())
        }
    }

    /// Releases PRO. If the event cannot be injected, PRO still counts as released, so that it does not hold up the
    /// machine.
    #[tactic(auto, unfolding(agc_script::specs::Event::IsWhatInRange))]
    fn release(&mut self) -> Result<(), InjectFault>
        ensures { Keeps self.old.session self.new.session }
    {
        let injected = self.inject(What::Pro(false));
        let cycle = self.cycle();
        release_last(&mut self.pressed, cycle);
        injected
    }

    /// Presses the first waiting key, if there is one. If that fails, drops all that wait.
    fn press_first(&mut self) -> Result<(), InjectFault>
        ensures kept { Keeps self.old.session self.new.session }
        ensures none { self.old.waiting.items ≡ [] → self.new ≡ self.old }
    {
        let Some(button) = self.waiting.first().copied() else {
            return Ok(());
        };
        let pressed = self.press(button);
        drop_first(&mut self.waiting, pressed.is_ok());
        pressed
    }

    /// Presses a key, and records that.
    fn press(&mut self, button: Button) -> Result<(), InjectFault>
        ensures { Keeps self.old.session self.new.session }
    {
        if self.pressed.reserve(1).is_err() {
            return Err(InjectFault::Memory);
        }
        self.inject(button.press())?;
        let cycle = self.cycle();
        let press = Press {
            button,
            cycle,
            released: None,
        };
        match self.pressed.push(press) {
            Ok(()) => Ok(()),
            Err(_) => Err(InjectFault::Memory),
        }
    }

    /// Injects an event, after the events of the script that are due.
    fn inject(&mut self, what: What) -> Result<(), InjectFault>
        requires { IsWhatInRange what }
        ensures { Keeps self.old.session self.new.session }
    {
        self.session.make_room()?;
        self.take_events();
        self.history.inject(&mut self.session, what)?;
        Ok(())
    }

    /// Takes the events that are due at the present cycle.
    fn take_events(&mut self)
        ensures { Keeps self.old.session self.new.session }
    {
        for _event in 0..2 * MOST_EVENTS {
            if self.machine().wants_key() || self.has_stopped() {
                return;
            }
            self.take_boundary();
        }
    }

    /// Begins to go back to `cycle`, and discards the keys pressed at it or later and all that wait. A PRO that was down
    /// then is released as it would have been. [`rerun`](Operator::rerun) does the rest. Returns false if memory ran out;
    /// then nothing has changed.
    pub fn back(self, alloc: Global, cycle: u64) -> (Operator, bool) {
        let rerun = Rerun {
            to: cycle,
            with_events: false,
            end: cycle,
            limit: cycle.max(1),
        };
        self.return_to(alloc, cycle, rerun)
    }

    /// Begins to go back to where the last boundary before now began that hits a condition, or with a `count` of 2 the last
    /// but one, and so on. Discards the keys pressed after that and all that wait. [`rerun`](Operator::rerun) does the rest.
    /// Returns the cycle. If there was no such boundary, the search was cancelled or memory ran out, nothing has changed.
    pub fn back_to_last<C: Cancellation>(
        self,
        alloc: Global,
        condition: Condition,
        count: u64,
        cancellation: &mut C,
    ) -> (Operator, Result<Option<u64>, SearchFault>)
        requires some { 0 < count }
        requires range { IsConditionInRange condition }
        ensures found { IfOk result.1 (IsFoundBack condition count self.session) }
        ensures back { IfOk result.1 (λ found. IfSome found (λ cycle. HasBegunBack cycle self result.0)) }
        ensures none { IfOk result.1 (λ found. found ≡ None → result.0 ≡ self) }
        ensures fault { OnErr result.1 (result.0 ≡ self) }
    {
        match self
            .session
            .last_hit_unless(alloc, condition, count, cancellation)
        {
            Ok(Some(cycle)) => {
                let (operator, is_new) = self.back_to_events(alloc, cycle);
                if is_new {
                    (operator, Ok(Some(cycle)))
                } else {
                    (operator, Err(SearchFault::Memory))
                }
            }
            Ok(None) => (self, Ok(None)),
            Err(fault) => (self, Err(fault)),
        }
    }

    /// Begins to go back to after the events of a cycle. Returns false if memory ran out; then nothing has changed.
    fn back_to_events(self, alloc: Global, cycle: u64) -> (Operator, bool)
        ensures back { result.1 ≡ true → HasBegunBack cycle self result.0 }
        ensures memory { result.1 ≡ false → result.0 ≡ self }
    {
        let rerun = Rerun {
            to: cycle,
            with_events: true,
            end: cycle,
            limit: cycle.max(1),
        };
        let after = cycle.saturating_add(1);
        self.return_to(alloc, after, rerun)
    }

    /// Begins a rerun that goes back, and discards the keys pressed at `cycle` or later and all that wait.
    fn return_to(self, alloc: Global, cycle: u64, rerun: Rerun) -> (Operator, bool)
        ensures cut { result.1 ≡ true → IsCutAt cycle self.session result.0.session }
        ensures rerun { result.1 ≡ true → IsRerunOf rerun result.0 }
        ensures memory { result.1 ≡ false → result.0 ≡ self }
    {
        let (mut operator, is_new) = self.rewind(alloc, cycle, rerun);
        if is_new {
            operator.waiting.clear();
            forget_from(&mut operator.pressed, cycle);
            operator.rerun = Some(Rerun {
                limit: operator.limit_at(rerun.end),
                ..rerun
            });
            return (operator, true);
        }
        (operator, false)
    }

    /// Begins to rebuild an empty history, by a rerun to the present cycle or to the stop. If memory runs out, nothing has
    /// changed.
    pub fn rebuild_history(self, alloc: Global) -> Operator {
        let end = self.cycle();
        let to = if self.has_stopped() {
            end.saturating_add(1)
        } else {
            end
        };
        if to == 0 || self.rerun.is_some() || !self.history.is_empty() {
            return self;
        }
        let rerun = Rerun {
            to,
            with_events: false,
            end,
            limit: self.limit_to_repeat(),
        };
        let (operator, _is_new) = self.rewind(alloc, u64::MAX, rerun);
        operator
    }

    /// Returns the cycle at which the rerun ends, if there is one. Meanwhile no key is pressed.
    pub fn rerun_end(&self) -> Option<u64> {
        match self.rerun {
            Some(rerun) => Some(rerun.end),
            None => None,
        }
    }

    /// Continues a rerun for about this many cycles, or to its end. Takes its last boundaries one by one, so that they are
    /// recorded.
    pub fn rerun(&mut self, cycles: u64) {
        let Some(rerun) = self.rerun else {
            return;
        };
        let next = self.cycle().saturating_add(cycles);
        if next < rerun.to.saturating_sub(RECENT_CYCLES) {
            self.run_to(next);
        } else {
            self.run_recorded_to(rerun.to);
            if rerun.with_events {
                self.take_events();
            }
            self.rerun = None;
        }
    }

    /// Takes the session back without the events injected at `cycle` or later, to the newest copy from which a rerun comes
    /// to all its last boundaries. Returns false if memory ran out; then nothing has changed.
    fn rewind(self, alloc: Global, cycle: u64, rerun: Rerun) -> (Operator, bool)
        ensures cut { result.1 ≡ true → IsCutAt cycle self.session result.0.session }
        ensures rerun { result.1 ≡ true → result.0.rerun ≡ Some rerun }
        ensures memory { result.1 ≡ false → result.0 ≡ self }
    {
        let Operator {
            session,
            mut history,
            waiting,
            pressed,
            rerun: before,
        } = self;
        let first_recent = rerun.to.saturating_sub(RECENT_CYCLES);
        match session.rewind_near(alloc, cycle, first_recent) {
            Ok(rewound) => {
                history.forget();
                let operator = Operator {
                    session: rewound.session,
                    history,
                    waiting,
                    pressed,
                    rerun: Some(rerun),
                };
                (operator, true)
            }
            Err(same) => {
                let operator = Operator {
                    session: same.session,
                    history,
                    waiting,
                    pressed,
                    rerun: before,
                };
                (operator, false)
            }
        }
    }

    /// Returns the number of keys pressed.
    pub fn presses(&self) -> usize {
        self.pressed.len()
    }

    /// Returns the key that was pressed last.
    pub fn last_pressed(&self) -> Option<Button> {
        match self.pressed.last() {
            Some(last) => Some(last.button),
            None => None,
        }
    }

    /// Returns the script of the session, or `None` if memory runs out.
    pub fn script(&self, alloc: Global) -> Option<Script> {
        self.session.script(alloc)
    }

    /// Writes the script of the session as text. Uses `line` for one line at a time, so it needs no memory if `line` has
    /// room for one.
    pub fn write_script<W: Write>(&self, line: &mut String, out: &mut W) -> io::Result<()>
        ensures { OnOk result (Appends (W.contents out.old) (W.contents out.new)
            (script_text (script_of self.now.session))) }
    {
        self.session.write_script(line, out)
    }
}

/// Drops the first waiting key, which was pressed, or all if it was refused.
fn drop_first(waiting: &mut Vec<Button>, is_pressed: bool) {
    if is_pressed && !waiting.is_empty() {
        waiting.remove(0);
    } else {
        waiting.clear();
    }
}

/// Sets the cycle at which the key that was pressed last was released.
fn release_last(pressed: &mut [Press], cycle: u64) {
    if let Some(last) = pressed.last_mut() {
        last.released = Some(cycle);
    }
}

/// Forgets the keys pressed at `cycle` or later, and a release of PRO at `cycle` or later.
fn forget_from(pressed: &mut Vec<Press>, cycle: u64) {
    for _press in 0..pressed.len() {
        match pressed.last() {
            Some(last) if cycle <= last.cycle => {
                pressed.pop();
            }
            _ => break,
        }
    }
    if let Some(last) = pressed.last_mut() {
        match last.released {
            Some(released) if cycle <= released => last.released = None,
            _ => {}
        }
    }
}
