//! Finds the boundaries that two runs have in common from their starts.
ghost use Rattle.std.specs.Prelude.{◌≡◌, [], ◌∷◌, ◌++◌, IfOk};
ghost use Rattle.circular_buffer.specs.Buffer.{buffer, keep_last};
ghost use Rattle.agc_diff.specs.ObservedPrefix.{kept};
ghost use Rattle.agc_diff.specs.CommonPrefix.{ComesApart, HaveBegun};

use crate::observed::{one_more, push_last};
use crate::same::is_same_entry;
use crate::turn::Turn;
use agc_io::{Progress, report_at};
use agc_machine::Machine;
use agc_panel::Panel;
use agc_trace::Entry;
use agc_word::ChannelWrite;
use circular_buffer::HeapCircularBuffer;
use std::alloc::AllocError;

/// The common start of two runs.
#[derive(Clone, Copy, Debug, PartialEq, Eq)]
pub(crate) struct CommonPrefix {
    /// The number of boundaries from the start that are the same.
    pub(crate) boundaries: u64,
    /// The number of channel writes of these boundaries.
    pub(crate) writes: u64,
    /// The panel of these writes.
    pub(crate) panel: Panel,
}

/// The entries of two runs at the first boundary that differs.
#[derive(Clone, Copy, Debug, PartialEq, Eq)]
pub(crate) struct Divergence {
    pub(crate) left: Entry,
    pub(crate) right: Entry,
}

/// Runs both machines while their boundaries are the same: past the first boundaries that differ, or to the stop.
/// Keeps the last common entries in `last`.
#[inline(never)]
pub(crate) fn run_together<P: Progress>(
    left: &mut Machine,
    right: &mut Machine,
    last: &mut HeapCircularBuffer<Entry>,
    progress: &mut P,
) -> Result<(CommonPrefix, Option<Divergence>), AllocError>
    requires { last.old ≡ buffer [] kept }
    ensures { IfOk result (λ (common, diverging).
        ComesApart left.old right.old common last.new diverging left.new right.new) }
{
    let mut common = CommonPrefix::none();
    let mut mark = 0;
    loop {
        let (left_turn, right_turn) = run_orders_together(
            left,
            right,
            &mut common,
            last,
            &mut mark,
            progress,
        )?;
        let left_entry = left_turn.finish(left);
        let right_entry = right_turn.finish(right);
        if !is_same_entry(&left_entry, &right_entry) {
            let diverging = Divergence {
                left: left_entry,
                right: right_entry,
            };
            return Ok((common, Some(diverging)));
        }
        common.take(left_entry.write)?;
        push_last(last, left_entry);
        if left_entry.is_stop() {
            return Ok((common, None));
        }
        mark = report_at(mark, left_entry.cycle, progress);
    }
}

/// Runs both machines while each runs an order that writes to no channel, and both entries are the same. Returns how far
/// they have begun the boundaries after these. It is a function of its own so that the loop over such orders stays small.
#[inline(never)]
fn run_orders_together<P: Progress>(
    left: &mut Machine,
    right: &mut Machine,
    common: &mut CommonPrefix,
    last: &mut HeapCircularBuffer<Entry>,
    mark: &mut u64,
    progress: &mut P,
) -> Result<(Turn, Turn), AllocError>
    ensures { IfOk result (λ (left_turn, right_turn).
        HaveBegun common.old last.old left.old right.old common.new last.new left_turn right_turn left.new right.new) }
{
    loop {
        let left_turn = Turn::begin(left);
        let Some(left_entry) = left_turn.quiet_entry(left) else {
            return Ok((left_turn, Turn::wait(right)));
        };
        let right_turn = Turn::begin(right);
        let Some(right_entry) = right_turn.quiet_entry(right) else {
            return Ok((left_turn, right_turn));
        };
        if !is_same_entry(&left_entry, &right_entry) {
            return Ok((left_turn, right_turn));
        }
        common.take(left_entry.write)?;
        push_copy(last, &left_entry);
        *mark = report_at(*mark, left_entry.cycle, progress);
    }
}

/// Appends a copy of an item, in place of the oldest one if the buffer is full.
#[inline(always)]
fn push_copy<T: Copy + Drop>(last: &mut HeapCircularBuffer<T>, item: &T)
    ensures { last.new ≡ buffer
        (keep_last last.old.capacity (last.old.items ++ item.now ∷ [])) last.old.capacity }
{
    push_last(last, *item);
}

impl CommonPrefix {
    ghost use Rattle.std.specs.Prelude.{◌≡◌, ◌+◌, [], ◌++◌, List, length, OnOk};
    ghost use Rattle.agc_word.specs.declared.channel_write.ChannelWrite.{ChannelWrite};
    ghost use Rattle.agc_panel.specs.Face.{panel_of};
    ghost use Rattle.agc_diff.specs.CommonPrefix.{one_write};

    /// Returns an empty common start.
    fn none() -> CommonPrefix
        ensures boundaries { result.boundaries ≡ 0 }
        ensures writes { result.writes ≡ 0 }
        ensures panel { result.panel ≡ panel_of [] }
    {
        CommonPrefix {
            boundaries: 0,
            writes: 0,
            panel: Panel::new(),
        }
    }

    /// Adds one more common boundary, with its write, if there is one.
    #[inline(always)]
    #[tactic(auto, using(crate::proofs::Nothing::append_nothing))]
    fn take(&mut self, write: Option<ChannelWrite>) -> Result<(), AllocError>
        ensures boundaries { OnOk result (self.new.boundaries ≡ self.old.boundaries + 1) }
        ensures writes { OnOk result
            (self.new.writes ≡ self.old.writes + length (one_write write)) }
        ensures panel { OnOk result ((taken : List ChannelWrite) → self.old.panel ≡ panel_of taken
            → self.new.panel ≡ panel_of (taken ++ one_write write)) }
    {
        self.boundaries = one_more(self.boundaries)?;
        if let Some(write) = write {
            self.writes = one_more(self.writes)?;
            self.panel.take(&write);
        }
        Ok(())
    }
}
