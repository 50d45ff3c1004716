//! What a console is set to: its numbered breakpoints, and whether runs print their channel writes.
ghost use Rattle.std.specs.Prelude.{◌≡◌, OnErr, OnOk};
ghost use Rattle.agc_command.specs.Command.{IsBreakpointInRange};
ghost use Rattle.agc_repl.specs.Settings.{
  AreInRange,
  at_first,
  has_number,
  is_full,
  next_number,
  with_breakpoint,
  without,
  without_number,
};

use agc_session::Condition;
use std::alloc::{AllocError, Global};
use std::marker::Model;

/// The largest number of breakpoints.
const MOST_BREAKPOINTS: usize = 64;

/// A breakpoint with its number.
#[derive(Clone, Copy, Debug, PartialEq, Eq)]
pub struct Numbered {
    pub number: u64,
    pub what: Condition,
}

/// The settings of a console.
#[derive(Drop)]
pub(crate) struct Settings {
    breakpoints: Vec<Numbered>,
    /// The last number that a breakpoint got.
    last: u64,
    quiet: bool,
}

impl Model for Settings {
    ghost use Rattle.agc_repl.specs.Settings.{AreInRange, SettingsState};

    ghost Value = { SettingsState };

    ghost view = { λ s. record { breakpoints = s.breakpoints.items; last = s.last; quiet = s.quiet } };

    ghost invariant = { λ s. AreInRange s.breakpoints.items };
}

impl Settings {
    /// Creates the settings of a new session: no breakpoint, and writes are printed.
    pub(crate) fn new(alloc: Global) -> Settings
        ensures { result ≡ at_first }
    {
        Settings {
            breakpoints: Vec::new(alloc),
            last: 0,
            quiet: false,
        }
    }

    /// Returns the breakpoints, in the order of their numbers.
    pub(crate) fn breakpoints(&self) -> &[Numbered]
        ensures breakpoints { result.now ≡ self.now.breakpoints }
        ensures range { AreInRange result.now }
    {
        self.breakpoints.as_slice()
    }

    /// Returns whether runs print no channel writes.
    pub(crate) fn quiet(&self) -> bool
        ensures { result ≡ self.now.quiet }
    {
        self.quiet
    }

    /// Lets runs print no channel writes, or print them again.
    pub(crate) fn set_quiet(&mut self, quiet: bool)
        ensures { self.new ≡ record self.old { quiet = quiet } }
    {
        self.quiet = quiet;
    }

    /// Returns whether no further breakpoint can be set.
    pub(crate) fn is_full(&self) -> bool
        ensures { result ≡ is_full self.now }
    {
        MOST_BREAKPOINTS <= self.breakpoints.len()
    }

    /// Returns the number that the next breakpoint gets.
    pub(crate) fn next_number(&self) -> u64
        ensures { result ≡ next_number self.now }
    {
        self.last.saturating_add(1)
    }

    /// Adds a breakpoint. If memory runs out, changes nothing.
    pub(crate) fn add(&mut self, what: &Condition) -> Result<(), AllocError>
        requires { IsBreakpointInRange what.now }
        ensures ok { OnOk result (self.new ≡ with_breakpoint what.now self.old) }
        ensures err { OnErr result (self.new ≡ self.old) }
    {
        let number = self.next_number();
        self.breakpoints.push(Numbered {
            number,
            what: *what,
        })?;
        self.last = number;
        Ok(())
    }

    /// Returns whether there is a breakpoint with this number.
    pub(crate) fn has_number(&self, number: u64) -> bool
        ensures { result ≡ has_number number self.now }
    {
        self.breakpoints
            .iter()
            .any(|breakpoint| breakpoint.number == number)
    }

    /// Deletes the breakpoint with this number.
    pub(crate) fn delete(&mut self, number: u64)
        ensures { self.new ≡ without_number number self.old }
    {
        remove(&mut self.breakpoints, number);
    }
}

/// Removes the breakpoint with this number.
fn remove(breakpoints: &mut Vec<Numbered>, number: u64)
    ensures without { breakpoints.new.items ≡ without number breakpoints.old.items }
    ensures range { AreInRange breakpoints.old.items → AreInRange breakpoints.new.items }
{
    breakpoints.retain(|breakpoint| breakpoint.number != number);
}
