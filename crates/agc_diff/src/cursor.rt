//! Compares the writes of two runs after their common boundaries, up to their stops.
ghost use Rattle.std.specs.Prelude.{◌≡◌, ◌++◌, List, IfOk};
ghost use Rattle.agc_word.specs.declared.channel_write.ChannelWrite.{ChannelWrite};
ghost use Rattle.agc_panel.specs.Face.{panel_of};
ghost use Rattle.agc_diff.specs.CommonPrefix.{one_write};
ghost use Rattle.agc_machine.specs.Run.{run_of};
ghost use Rattle.agc_diff.specs.Cursor.{IsEnd, FindsWriteDivergence};

use crate::observed::{next_write, one_more};
use crate::same::is_same_write;
use agc_io::{Progress, report_at};
use agc_machine::{Machine, Next, Stop};
use agc_panel::Panel;
use agc_word::ChannelWrite;
use std::alloc::AllocError;

/// The first channel write that differs; `None` for a run that has no such write.
#[derive(Clone, Copy, Debug, PartialEq, Eq)]
pub struct WriteDivergence {
    /// The number of the write in both runs, counted from 1.
    pub number: u64,
    pub left: Option<ChannelWrite>,
    pub right: Option<ChannelWrite>,
}

/// The end of a run.
#[derive(Clone, Copy, Debug, PartialEq, Eq)]
pub struct End {
    /// Why it stopped.
    pub stop: Stop,
    /// The machine cycle of the stop.
    pub cycle: u64,
    /// The panel of all its writes.
    pub panel: Panel,
}

/// A cursor that goes through a run write by write.
#[derive(Clone, Copy, Debug, PartialEq, Eq)]
pub(crate) struct Cursor {
    /// A write that the machine has made but the cursor has not returned yet.
    pub(crate) held: Option<ChannelWrite>,
    /// The panel of the writes that the cursor has returned.
    pub(crate) panel: Panel,
}

/// Runs both machines up to the first write that differs, or to their stops if none does. `before` is the number of
/// common writes before that.
pub(crate) fn first_write_apart<P: Progress>(
    before: u64,
    left: &mut Cursor,
    left_machine: &mut Machine,
    right: &mut Cursor,
    right_machine: &mut Machine,
    progress: &mut P,
) -> Result<Option<WriteDivergence>, AllocError>
    ensures { IfOk result (λ divergence. FindsWriteDivergence before left.old right.old left_machine.old
        right_machine.old divergence left.new right.new left_machine.new right_machine.new) }
{
    let mut number = before;
    let mut mark = 0;
    loop {
        number = one_more(number)?;
        let pair = WriteDivergence {
            number,
            left: left.next_write(left_machine, progress),
            right: right.next_write(right_machine, progress),
        };
        if pair.differs() {
            return Ok(Some(pair));
        }
        if pair.left_has_ended() {
            return Ok(None);
        }
        mark = report_at(mark, left_machine.cycle(), progress);
    }
}

impl WriteDivergence {
    ghost use Rattle.std.specs.Prelude.{◌≡◌, ◌≢◌, IsSome, IsTrue, None, false};

    /// Returns whether the writes differ, or only one run has one.
    fn differs(&self) -> bool
        ensures differ { IsTrue result → self.now.left ≢ self.now.right }
        ensures same { result ≡ false → self.now.left ≡ self.now.right }
    {
        !is_same_write(self.left, self.right)
    }

    /// Returns whether the run on the left has no further write. If the pair does not differ, then neither run has
    /// one.
    fn left_has_ended(&self) -> bool
        ensures none { IsTrue result → self.now.left ≡ None }
        ensures some { result ≡ false → IsSome self.now.left }
    {
        self.left.is_none()
    }
}

/// Returns a panel with a write applied, if there is one.
#[tactic(auto, using(crate::proofs::Nothing::append_nothing))]
fn panel_with(mut panel: Panel, write: Option<ChannelWrite>) -> Panel
    ensures { (taken : List ChannelWrite) → panel ≡ panel_of taken
        → result ≡ panel_of (taken ++ one_write write) }
{
    if let Some(write) = write {
        panel.take(&write);
    }
    panel
}

/// Runs a machine to its stop, from the panel of the writes before.
fn run_out<P: Progress>(mut panel: Panel, machine: &mut Machine, progress: &mut P) -> End
    ensures { IsEnd panel (run_of machine.old) result machine.new }
{
    let mut mark = 0;
    loop {
        match next_write(machine, progress) {
            Next::Wrote(write) => {
                panel.take(&write);
                mark = report_at(mark, write.cycle, progress);
            }
            Next::Stopped(stop) => {
                return End {
                    stop,
                    cycle: machine.cycle(),
                    panel,
                };
            }
        }
    }
}

impl Cursor {
    ghost use Rattle.std.specs.Prelude.{◌≡◌, [], None};
    ghost use Rattle.agc_diff.specs.CommonPrefix.{one_write};
    ghost use Rattle.agc_diff.specs.Cursor.{HasAdvanced, IsEnd, run_with};

    /// Advances to the next write. Returns `None` if the machine stops before one.
    fn next_write<P: Progress>(
        &mut self,
        machine: &mut Machine,
        progress: &mut P,
    ) -> Option<ChannelWrite>
        ensures gone { HasAdvanced self.old machine.old (one_write result) self.new machine.new }
        ensures ended { result ≡ None → (run_with self.new.held machine.new).writes ≡ [] }
    {
        let write = match self.held {
            Some(write) => write,
            None => match next_write(machine, progress) {
                Next::Wrote(write) => write,
                Next::Stopped(_) => return None,
            },
        };
        self.held = None;
        self.panel.take(&write);
        Some(write)
    }

    /// Runs the machine to its stop.
    pub(crate) fn finish<P: Progress>(self, machine: &mut Machine, progress: &mut P) -> End
        ensures { IsEnd self.panel (run_with self.held machine.old) result machine.new }
    {
        run_out(panel_with(self.panel, self.held), machine, progress)
    }
}
