//! Decides when progress is reported: at marks a million cycles apart, so that reporting costs almost nothing.
ghost use Rattle.std.specs.Prelude.{◌≡◌, ◌<◌};
ghost use Rattle.agc_io.specs.Mark.{mark_after, next_mark};

use crate::progress::Progress;

/// Cycles between two reports.
const STRIDE: u64 = 1_000_000;

/// Returns the next mark after a report at this cycle: a million cycles later.
pub fn next_mark(cycle: u64) -> u64
    ensures { result ≡ next_mark cycle }
{
    cycle.saturating_add(STRIDE)
}

/// Reports the cycle if it has reached the mark. Returns the next mark; the first mark is 0.
pub fn report_at<P: Progress>(mark: u64, cycle: u64, progress: &mut P) -> u64
    ensures next { result ≡ mark_after mark cycle }
    ensures unchanged { cycle < mark → progress.new ≡ progress.old }
{
    if cycle < mark {
        return mark;
    }
    progress.come_to(cycle);
    next_mark(cycle)
}
