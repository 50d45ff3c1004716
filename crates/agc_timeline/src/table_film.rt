//! Records the tables over a part of a run: those at its first cycle, and the lines that change after that. The
//! caller runs the machine and passes each state.
use crate::shown::LastTables;
use agc_machine::Machine;
use agc_panel::{CheckedSpec, Tables};
use agc_trace::Span;
use std::alloc::{AllocError, Global};
use std::marker::Model;

/// The tables of the last state read up to a cycle. Contracts see their text, which is empty before the first state.
#[derive(Debug, Drop)]
pub struct InitialTables {
    tables: Option<Tables>,
}

impl Model for InitialTables {
    ghost use Rattle.std.specs.Prelude.{ℕ, List};
    ghost use Rattle.agc_timeline.specs.Film.{opening_text};

    ghost Value = { List ℕ };

    ghost view = { λ opening. opening_text opening.tables };
}

impl InitialTables {
    ghost use Rattle.std.specs.Prelude.{◌≡◌, [], ◌∷◌};
    ghost use Rattle.agc_timeline.specs.Changes.{shown_after, sights_in};
    ghost use Rattle.agc_timeline.specs.Film.{until};

    /// Creates the value before any state was read.
    pub fn nothing() -> InitialTables
        ensures { result ≡ [] }
    {
        InitialTables { tables: None }
    }

    /// Reads the tables of a state of the run, if its cycle is at most `cycle`.
    pub fn look(&mut self, machine: &Machine, spec: &CheckedSpec, cycle: u64)
        ensures { self.new ≡ shown_after self.old
            (sights_in (until cycle) spec.now (machine.now ∷ [])) }
    {
        let before = Span { from: 0, to: cycle };
        if before.has(machine.cycle()) {
            self.tables = Some(Tables::read(machine.store(), spec));
        }
    }
}

/// The tables from the first cycle of a part on: their lines at that cycle, and those that changed after it.
#[derive(Debug, Drop)]
pub struct TablesFilm {
    shown: LastTables,
    text: String,
}

impl Model for TablesFilm {
    ghost use Rattle.std.specs.Prelude.{string_bytes};
    ghost use Rattle.agc_timeline.specs.Film.{Telling};

    ghost Value = { Telling };

    ghost view = { λ film. record { shown = film.shown; text = string_bytes film.text } };
}

impl TablesFilm {
    ghost use Rattle.std.specs.Prelude.{◌≡◌, ◌++◌, [], ◌∷◌, IfOk, None, OnOk, string_bytes};
    ghost use Rattle.agc_timeline.specs.Changes.{shown_after, sight_of, sights_in};
    ghost use Rattle.agc_timeline.specs.Film.{after_first};
    ghost use Rattle.agc_timeline.specs.Lines.{change_text, reported_of};

    /// Begins at a cycle with these tables. Fails if memory runs out.
    pub fn begin(
        alloc: Global,
        cycle: u64,
        opening: InitialTables,
    ) -> Result<TablesFilm, AllocError>
        ensures { IfOk result (λ film. film ≡ record {
          shown = opening;
          text = change_text None [] (record { cycle = cycle; text = opening });
        }) }
    {
        let mut shown = LastTables::nothing(alloc);
        let text = match opening.tables {
            Some(tables) => shown.take(alloc, &None, cycle, tables)?,
            None => String::new(alloc),
        };
        Ok(TablesFilm { shown, text })
    }

    /// Adds the changed lines of a state of the run, if its cycle is after the first one of a span and at most the
    /// last one. Fails if memory runs out.
    pub fn look(
        &mut self,
        alloc: Global,
        machine: &Machine,
        spec: &CheckedSpec,
        span: Span,
    ) -> Result<(), AllocError>
        ensures shown { OnOk result (self.new.shown ≡ shown_after self.old.shown
            (sights_in (after_first span) spec.now (machine.now ∷ []))) }
        ensures text { OnOk result (self.new.text ≡ self.old.text ++ reported_of None self.old.shown
            (sights_in (after_first span) spec.now (machine.now ∷ []))) }
    {
        if span.has_later(machine.cycle()) {
            self.see(alloc, machine, spec)
        } else {
            Ok(())
        }
    }

    /// Adds the changed lines of a state of the run.
    fn see(
        &mut self,
        alloc: Global,
        machine: &Machine,
        spec: &CheckedSpec,
    ) -> Result<(), AllocError>
        ensures shown { OnOk result (self.new.shown ≡ (sight_of spec.now machine.now).text) }
        ensures text { OnOk result (self.new.text ≡ self.old.text
            ++ change_text None self.old.shown (sight_of spec.now machine.now)) }
    {
        let tables = Tables::read(machine.store(), spec);
        if self.shown.is_of(&tables) {
            return Ok(());
        }
        let reported = self.shown.take(alloc, &None, machine.cycle(), tables)?;
        self.text.push_str(reported.as_str())?;
        Ok(())
    }

    /// Returns the lines.
    pub fn into_text(self) -> String
        ensures { string_bytes result ≡ self.text }
    {
        let TablesFilm { text, .. } = self;
        text
    }
}
