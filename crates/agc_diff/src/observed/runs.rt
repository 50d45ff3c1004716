//! Runs two machines side by side and compares their observations.
ghost use Rattle.std.specs.Prelude.{◌≡◌, ◌↔◌, IfOk, IsTrue};
ghost use Rattle.agc_diff.specs.ObservedPrefix.{ShownPart};
ghost use Rattle.agc_diff.specs.ObservedCompared.{FitsLines, SummarizesPairs, is_same};
ghost use Rattle.agc_diff.specs.Observation.{looks_of, shown_by};

use crate::observed::common_prefix::{go_together, none_kept};
use crate::observed::comparison::ObservedComparison;
use agc_io::Progress;
use agc_machine::Machine;
use agc_trace::DiffBy;
use std::alloc::{AllocError, Global};

/// Runs both machines to the first place where they do not show the same, or to their stops, and returns what they
/// have in common and where they diverge. Fails if memory runs out. Progress is reported for both runs in turn.
pub fn compare_shown<P: Progress>(
    alloc: Global,
    what: DiffBy,
    left: &mut Machine,
    right: &mut Machine,
    progress: &mut P,
) -> Result<ObservedComparison, AllocError>
    ensures law { IfOk result (λ c. IsTrue (is_same c)
        ↔ (looks_of (shown_by what left.old) ≡ looks_of (shown_by what right.old))) }
    ensures compared { IfOk result (λ c. c.what ≡ what) }
    ensures pairs { IfOk result (λ c.
        SummarizesPairs (shown_by what left.old) (shown_by what right.old) c) }
    ensures divergence { IfOk result (λ c.
        ShownPart c.count (shown_by what left.old) (shown_by what right.old) c.divergence) }
    ensures fits { IfOk result (λ c. FitsLines c) }
{
    let mut last = none_kept(alloc)?;
    let (common, divergence) = go_together(what, left, right, &mut last, progress)?;
    Ok(ObservedComparison {
        what,
        count: common.count,
        skew: common.skew,
        before: last.to_vec(alloc)?,
        divergence,
    })
}
