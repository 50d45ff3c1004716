//! Goes through a run observation by observation.
use crate::observed::next::next_write;
use crate::observed::observation::{Observation, seen_at, take_write};
use agc_io::{Progress, report_at};
use agc_machine::{Machine, Next};
use agc_panel::Panel;
use agc_trace::DiffBy;

/// A cursor that goes through a run observation by observation.
#[derive(Clone, Copy, Debug, PartialEq, Eq)]
pub(crate) struct Cursor {
    /// The panel of the writes so far.
    pub(crate) panel: Panel,
    /// The cycle at which progress is reported next.
    mark: u64,
}

impl Cursor {
    ghost use Rattle.std.specs.Prelude.{◌≡◌, [], IfSome};
    ghost use Rattle.agc_panel.specs.Face.{panel_of};
    ghost use Rattle.agc_diff.specs.ObservedCursor.{HasShown};
    ghost use Rattle.agc_diff.specs.Observation.{FitsShown};

    /// Creates a cursor that has observed nothing yet.
    pub(crate) fn new() -> Cursor
        ensures { result.panel ≡ panel_of [] }
    {
        Cursor {
            panel: Panel::new(),
            mark: 0,
        }
    }

    /// Advances to the next observation. Returns `None` if the run stops before one.
    pub(crate) fn next_shown<P: Progress>(
        &mut self,
        what: DiffBy,
        machine: &mut Machine,
        progress: &mut P,
    ) -> Option<Observation>
        ensures next { HasShown what self.old.panel machine.old result self.new.panel machine.new }
        ensures fits { IfSome result FitsShown }
    {
        loop {
            match next_write(machine, progress) {
                Next::Wrote(write) => {
                    self.mark = report_at(self.mark, write.cycle, progress);
                    if take_write(what, &mut self.panel, &write) {
                        return Some(seen_at(what, &self.panel, &write));
                    }
                }
                Next::Stopped(_) => return None,
            }
        }
    }
}
