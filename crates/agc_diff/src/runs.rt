//! Runs two machines side by side to their stops, and compares them.
ghost use Rattle.std.specs.Prelude.{◌≡◌, ◌↔◌, IfOk, IsTrue};
ghost use Rattle.agc_machine.specs.Run.{run_of};
ghost use Rattle.agc_trace.specs.Trace.{trace_of};
ghost use Rattle.agc_diff.specs.Cells.{cells_that_differ};
ghost use Rattle.agc_diff.specs.CommonPrefix.{held_left, held_right};
ghost use Rattle.agc_diff.specs.Compare.{FitsLines, SummarizesCommon, ShowsEnd, TracesPart};
ghost use Rattle.agc_diff.specs.Compare.{cells_at_end, is_same};
ghost use Rattle.agc_diff.specs.Cursor.{WritesPart};
ghost use Rattle.agc_diff.specs.Divergence.{HasEnds, IsDivergencePoint};

use crate::cells::differing_cells;
use crate::common_prefix::{CommonPrefix, Divergence, run_together};
use crate::comparison::{Comparison, DivergencePoint};
use crate::cursor::{Cursor, End, WriteDivergence, first_write_apart};
use crate::observed::{none_kept, one_more};
use agc_io::Progress;
use agc_machine::Machine;
use agc_word::ChannelWrite;
use std::alloc::{AllocError, Global};

/// Runs both machines to their stops, and returns what they have in common and where they diverge. Fails if memory
/// runs out. Progress is reported for the run on the left, and after a divergence for the one on the right.
pub fn compare<P: Progress>(
    alloc: Global,
    left: &mut Machine,
    right: &mut Machine,
    progress: &mut P,
) -> Result<Comparison, AllocError>
    ensures law { IfOk result (λ c. IsTrue (is_same c) ↔ ((trace_of left.old ≡ trace_of right.old)
        × (cells_at_end left.old ≡ cells_at_end right.old))) }
    ensures common { IfOk result (λ c. SummarizesCommon (trace_of left.old) (trace_of right.old) c) }
    ensures divergence { IfOk result (λ c.
        TracesPart c.boundaries (trace_of left.old) (trace_of right.old) c.divergence) }
    ensures write { IfOk result (λ c.
        WritesPart 0 (run_of left.old).writes (run_of right.old).writes c.write) }
    ensures left_end { IfOk result (λ c. ShowsEnd left.old c.left left.new) }
    ensures right_end { IfOk result (λ c. ShowsEnd right.old c.right right.new) }
    ensures fits { IfOk result (λ c. FitsLines c) }
    ensures cells { IfOk result (λ c.
        c.cells.items ≡ cells_that_differ (cells_at_end left.old) (cells_at_end right.old)) }
{
    let mut last = none_kept(alloc)?;
    let (common, diverging) = run_together(left, right, &mut last, progress)?;
    let divergence = divergence_point(common.boundaries, diverging)?;
    let ends = run_apart(common, diverging, left, right, progress)?;
    Ok(Comparison {
        boundaries: common.boundaries,
        writes: common.writes,
        before: last.to_vec(alloc)?,
        divergence,
        write: ends.write,
        left: ends.left,
        right: ends.right,
        cells: differing_cells(alloc, left.store(), right.store())?,
    })
}

/// How two runs end, and the first write that differs.
#[derive(Clone, Copy, Debug, PartialEq, Eq)]
pub(crate) struct Ends {
    write: Option<WriteDivergence>,
    left: End,
    right: End,
}

/// Returns the boundary at which the runs diverge, after this many common ones.
fn divergence_point(
    boundaries: u64,
    diverging: Option<Divergence>,
) -> Result<Option<DivergencePoint>, AllocError>
    ensures { IfOk result (λ divergence. IsDivergencePoint boundaries diverging divergence) }
{
    let number = one_more(boundaries)?;
    match diverging {
        Some(diverging) => {
            let Divergence { left, right } = diverging;
            Ok(Some(DivergencePoint {
                number,
                left,
                right,
            }))
        }
        None => Ok(None),
    }
}

/// Runs both machines from the divergence to their stops.
fn run_apart<P: Progress>(
    common: CommonPrefix,
    diverging: Option<Divergence>,
    left: &mut Machine,
    right: &mut Machine,
    progress: &mut P,
) -> Result<Ends, AllocError>
    ensures { IfOk result (λ ends.
        HasEnds common diverging left.old right.old ends left.new right.new) }
{
    let (left_held, right_held) = held_writes(diverging);
    let mut left_cursor = Cursor {
        held: left_held,
        panel: common.panel,
    };
    let mut right_cursor = Cursor {
        held: right_held,
        panel: common.panel,
    };
    let write = first_write_apart(
        common.writes,
        &mut left_cursor,
        left,
        &mut right_cursor,
        right,
        progress,
    )?;
    Ok(Ends {
        write,
        left: left_cursor.finish(left, progress),
        right: right_cursor.finish(right, progress),
    })
}

/// Returns the writes of the boundaries at which the runs diverge.
fn held_writes(diverging: Option<Divergence>) -> (Option<ChannelWrite>, Option<ChannelWrite>)
    ensures left { result.0 ≡ held_left diverging }
    ensures right { result.1 ≡ held_right diverging }
{
    match diverging {
        Some(diverging) => (diverging.left.write, diverging.right.write),
        None => (None, None),
    }
}
