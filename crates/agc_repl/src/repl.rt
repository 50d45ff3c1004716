//! The state of a console: a session, the number of channel writes that it has shown, and its settings.
ghost use Rattle.std.specs.Prelude.{◌≡◌, [], ◌∷◌, nat_le, IfOk, IfErr, IfSome, true};
ghost use Rattle.agc_machine.specs.Boundary.{boundary};
ghost use Rattle.agc_machine.specs.Laws.{HasChannel};
ghost use Rattle.agc_machine.specs.Replay.{writes_in};
ghost use Rattle.agc_repl.specs.Repl.{
  Advances,
  RunsOn,
  after_run,
  at_start,
  counted,
  gone_back,
  gone_on,
  run_of,
};
ghost use Rattle.agc_command.specs.Command.{IsBreakpointInRange};
ghost use Rattle.agc_session.specs.Condition.{first_hit};
ghost use Rattle.agc_repl.specs.Settings.{at_first};
ghost use Rattle.agc_repl.specs.Run.{AreSound, is_short_of, run_on};

use crate::settings::Settings;
use agc_machine::{Machine, Stepped, Stop};
use agc_session::{Advanced, Armed, Session};
use std::alloc::Global;

/// A session, the number of channel writes that it has shown, and the settings.
#[derive(Drop)]
pub(crate) struct Repl {
    pub(crate) session: Session,
    pub(crate) writes: usize,
    pub(crate) settings: Settings,
}

impl Repl {
    /// Creates the console's state for a session that has shown no writes.
    pub(crate) fn new(alloc: Global, session: Session) -> Repl
        ensures { result ≡ at_start at_first session }
    {
        Repl {
            session,
            writes: 0,
            settings: Settings::new(alloc),
        }
    }

    /// Returns the machine in its present state.
    pub(crate) fn machine(&self) -> &Machine
        ensures { result.now ≡ self.now.session.now }
    {
        self.session.machine()
    }

    /// Returns the present cycle.
    pub(crate) fn cycle(&self) -> u64
        ensures { result ≡ self.now.session.now.cycle }
    {
        self.session.machine().cycle()
    }

    /// Returns why the machine has stopped, or `None` while it has not.
    pub(crate) fn stopped(&self) -> Option<Stop>
        ensures { result ≡ self.now.session.now.stopped }
    {
        self.session.machine().stopped()
    }

    /// Returns whether the machine has neither reached `cycle` nor stopped.
    pub(crate) fn is_before(&self, cycle: u64) -> bool
        ensures { result ≡ is_short_of cycle self.now.session.now }
    {
        self.cycle() < cycle && self.stopped().is_none()
    }

    /// Returns whether the machine has reached `cycle`.
    pub(crate) fn has_reached(&self, cycle: u64) -> bool
        ensures { result ≡ nat_le cycle self.now.session.now.cycle }
    {
        cycle <= self.cycle()
    }

    /// Takes one boundary.
    pub(crate) fn step(&mut self) -> Stepped
        ensures boundary { (self.new.session.now, result) ≡ boundary None self.old.session.now }
        ensures shown { self.new ≡ gone_on self.new.session.now (writes_in (result ∷ [])) self.old }
        ensures on { RunsOn self.old self.new }
        ensures advances { Advances self.old.session.now self.new.session.now }
        ensures channel { HasChannel result }
    {
        let stepped = self.session.step();
        self.note(stepped)
    }

    /// Runs on like [`Session::advance`].
    pub(crate) fn advance(&mut self, armed: &[Armed], cycle: u64) -> Advanced
        requires range { AreSound armed.now }
        requires short { is_short_of cycle self.old.session.now ≡ true }
        ensures run { run_of armed.now cycle self.old
            ≡ run_on result.hit (self.new.session.now, result.stepped) (run_of armed.now cycle self.new) }
        ensures hit { result.hit ≡ first_hit armed.now self.old.session.panel self.new.session.now result.stepped }
        ensures range { IfSome result.hit (λ a. IsBreakpointInRange a.condition) }
        ensures shown { self.new ≡ gone_on self.new.session.now (writes_in (result.stepped ∷ [])) self.old }
        ensures on { RunsOn self.old self.new }
        ensures advances { Advances self.old.session.now self.new.session.now }
        ensures channel { HasChannel result.stepped }
    {
        let next = self.session.advance(armed, cycle);
        let stepped = self.note(next.stepped);
        Advanced {
            stepped,
            hit: next.hit,
        }
    }

    /// Counts the write of a boundary, if there is one.
    fn note(&mut self, stepped: Stepped) -> Stepped
        ensures same { result ≡ stepped }
        ensures session { self.new.session ≡ self.old.session }
        ensures counted { self.new.writes ≡ counted stepped self.old.writes }
        ensures settings { self.new.settings ≡ self.old.settings }
    {
        if let Stepped::Wrote(_) = stepped {
            self.writes = self.writes.saturating_add(1);
        }
        stepped
    }

    /// Runs to `cycle` without printing anything.
    fn go_silently(&mut self, cycle: u64)
        ensures { self.new ≡ after_run (run_of [] cycle self.old) self.old }
    {
        while self.is_before(cycle) {
            self.advance(&[], cycle);
        }
    }

    /// Rewinds to the state before `cycle`, without the events injected at `cut` or later. If memory runs out, returns
    /// the unchanged state.
    pub(crate) fn back(self, alloc: Global, cut: u64, cycle: u64) -> Result<Repl, Repl>
        ensures ok { IfOk result (λ repl. repl ≡ gone_back cut cycle self) }
        ensures err { IfErr result (λ repl. repl ≡ self) }
    {
        let Repl {
            session,
            writes,
            settings,
        } = self;
        match session.rewind_near(alloc, cut, cycle) {
            Ok(rewound) => {
                let mut earlier = Repl {
                    session: rewound.session,
                    writes: rewound.writes,
                    settings,
                };
                earlier.go_silently(cycle);
                Ok(earlier)
            }
            Err(same) => Err(Repl {
                session: same.session,
                writes,
                settings,
            }),
        }
    }
}
