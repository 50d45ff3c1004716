//! Records who had the processor in a part of a run, as lines of text.
use crate::title::push_lines_of_names;
use agc_listing::{Location, LocationRange, location_at};
use agc_machine::{ChannelWrite, InHand, Machine, Upcoming};
use agc_panel::{CheckedSpec, Lamp, Panel, Tables};
use agc_symbols::SymbolTable;
use agc_timeline::LastTables;
use agc_trace::Entry;
use std::alloc::{AllocError, Global};

/// The number of cycles in a slice of time. The cycles that counters take are summed by slices.
pub(crate) const SLICE: u64 = 4096;

/// Places whose orders are marked.
#[derive(Debug, Drop)]
pub struct Mark {
    /// What the page calls them.
    pub name: String,
    pub places: LocationRange,
}

/// The lines so far, and what the next ones depend on.
#[derive(Drop)]
pub(crate) struct JobsRecord {
    pub(crate) text: String,
    shown: LastTables,
    /// The panel after the channel writes so far.
    panel: Panel,
    /// Whether the service of an interrupt is running.
    serving: bool,
    /// The first cycle of the slice in progress.
    slice: u64,
    /// The cycles that counters took in this slice.
    stolen: u64,
}

impl JobsRecord {
    /// Begins to add lines to a text, with the present state of a machine and its panel.
    pub(crate) fn begin(
        alloc: Global,
        text: String,
        machine: &Machine,
        panel: Panel,
    ) -> Result<JobsRecord, AllocError> {
        let mut record = JobsRecord {
            text,
            shown: LastTables::nothing(alloc),
            panel,
            serving: machine.serving(),
            slice: 0,
            stolen: 0,
        };
        if record.serving {
            record.begin_service(machine.cycle(), "?")?;
        }
        Ok(record)
    }

    /// Adds the lines of the tables that changed.
    pub(crate) fn look(
        &mut self,
        alloc: Global,
        names: &Option<SymbolTable>,
        machine: &Machine,
        spec: &CheckedSpec,
    ) -> Result<(), AllocError> {
        let tables = Tables::read(machine.store(), spec);
        if self.shown.is_of(&tables) {
            return Ok(());
        }
        let lines = self.shown.take(alloc, names, machine.cycle(), tables)?;
        push_lines_of_names(&mut self.text, lines.as_bytes())
    }

    /// Adds what a boundary did besides, after which this is the machine.
    pub(crate) fn take(
        &mut self,
        entry: &Entry,
        machine: &Machine,
        marks: &[Mark],
    ) -> Result<(), AllocError> {
        match entry.happening {
            Upcoming::Interrupt(rupt) => self.begin_service(entry.cycle, rupt.name()),
            Upcoming::Order(order) => {
                self.take_order(entry.cycle, order, machine, marks)?;
                self.take_write(entry.write)
            }
            Upcoming::Event(_) | Upcoming::Timer(_) => {
                self.steal(entry.cycle, machine.cycle().saturating_sub(entry.cycle))
            }
            Upcoming::Stop(_) => Ok(()),
        }
    }

    /// Adds that the service of an interrupt begins.
    fn begin_service(&mut self, cycle: u64, name: &str) -> Result<(), AllocError> {
        self.serving = true;
        writeln!(self.text, "{cycle} RUPT {name}")
    }

    /// Adds the marks of an order, and that it ended a service.
    fn take_order(
        &mut self,
        cycle: u64,
        order: InHand,
        machine: &Machine,
        marks: &[Mark],
    ) -> Result<(), AllocError> {
        let place = location_at(order.bank, order.address);
        push_marks(&mut self.text, cycle, place, marks)?;
        if self.serving && !machine.serving() {
            self.serving = false;
            let end = machine.cycle();
            writeln!(self.text, "{end} RESUME")?;
        }
        Ok(())
    }

    /// Adds an alarm if a channel write turns the PROG lamp on.
    fn take_write(&mut self, write: Option<ChannelWrite>) -> Result<(), AllocError> {
        let Some(write) = write else {
            return Ok(());
        };
        let was_lit = is_prog_lit(&self.panel);
        self.panel.take(&write);
        if was_lit || !is_prog_lit(&self.panel) {
            return Ok(());
        }
        let cycle = write.cycle;
        writeln!(self.text, "{cycle} ALARM")
    }

    /// Counts cycles that a counter took.
    fn steal(&mut self, cycle: u64, cycles: u64) -> Result<(), AllocError> {
        let slice = cycle - cycle % SLICE;
        if slice != self.slice {
            self.end_slice()?;
            self.slice = slice;
        }
        self.stolen = self.stolen.saturating_add(cycles);
        Ok(())
    }

    /// Adds the cycles that counters took in the slice in progress, if any.
    pub(crate) fn end_slice(&mut self) -> Result<(), AllocError> {
        let (slice, stolen) = (self.slice, self.stolen);
        self.stolen = 0;
        if stolen == 0 {
            return Ok(());
        }
        writeln!(self.text, "{slice} STOLEN {stolen}")
    }
}

/// Returns whether the PROG lamp of a panel is on.
fn is_prog_lit(panel: &Panel) -> bool {
    panel.face().lamps.is_lit(Lamp::Prog)
}

/// Adds the number of each mark that has a place.
fn push_marks(
    text: &mut String,
    cycle: u64,
    place: Location,
    marks: &[Mark],
) -> Result<(), AllocError> {
    let mut number: usize = 0;
    for mark in marks {
        if mark.places.has(place) {
            writeln!(text, "{cycle} MARK {number}")?;
        }
        number = number.saturating_add(1);
    }
    Ok(())
}
