//! Finds the observations that two runs have in common from their starts.
ghost use Rattle.std.specs.Prelude.{◌≡◌, [], ◌∷◌, ◌++◌, IfOk};
ghost use Rattle.circular_buffer.specs.Buffer.{buffer, keep_last};
ghost use Rattle.agc_diff.specs.ObservedPrefix.{GoTogether, kept};

use crate::observed::comparison::{ObservedDivergence, Pair};
use crate::observed::count::one_more;
use crate::observed::cursor::Cursor;
use crate::observed::pairing::{Pairing, pairing_of};
use agc_io::Progress;
use agc_machine::Machine;
use agc_trace::DiffBy;
use circular_buffer::HeapCircularBuffer;
use std::alloc::{AllocError, Global};

/// The number of last pairs kept.
const KEPT: usize = 5;

/// The common start of two runs, by their observations.
#[derive(Clone, Copy, Debug, PartialEq, Eq)]
pub(crate) struct CommonPrefix {
    /// The number of pairs.
    pub(crate) count: u64,
    /// The largest difference between the cycles of a pair.
    pub(crate) skew: u64,
}

/// Creates an empty buffer for the last five items.
pub fn none_kept<T: Drop>(alloc: Global) -> Result<HeapCircularBuffer<T>, AllocError>
    ensures { IfOk result (λ last. last ≡ buffer [] kept) }
{
    HeapCircularBuffer::with_capacity(alloc, KEPT)
}

/// Runs both machines while their observations are the same: to the first place where they differ, or to their stops.
/// Keeps the last pairs. Fails if the count overflows.
pub(crate) fn go_together<P: Progress>(
    what: DiffBy,
    left: &mut Machine,
    right: &mut Machine,
    last: &mut HeapCircularBuffer<Pair>,
    progress: &mut P,
) -> Result<(CommonPrefix, Option<ObservedDivergence>), AllocError>
    requires { last.old ≡ buffer [] kept }
    ensures { IfOk result (λ (common, divergence).
        GoTogether what left.old right.old common last.new divergence) }
{
    let mut left_cursor = Cursor::new();
    let mut right_cursor = Cursor::new();
    let mut common = CommonPrefix::none();
    loop {
        let left_shown = left_cursor.next_shown(what, left, progress);
        let right_shown = right_cursor.next_shown(what, right, progress);
        match pairing_of(left_shown, right_shown) {
            Pairing::Alike(pair) => {
                common.take(&pair)?;
                push_last(last, pair);
            }
            Pairing::Apart => {
                let divergence = ObservedDivergence {
                    number: one_more(common.count)?,
                    left: left_shown,
                    right: right_shown,
                };
                return Ok((common, Some(divergence)));
            }
            Pairing::Over => return Ok((common, None)),
        }
    }
}

impl CommonPrefix {
    ghost use Rattle.std.specs.Prelude.{◌≡◌, ◌+◌, max, OnOk};
    ghost use Rattle.agc_diff.specs.ObservedPrefix.{apart};

    /// Returns an empty common start.
    fn none() -> CommonPrefix
        ensures count { result.count ≡ 0 }
        ensures skew { result.skew ≡ 0 }
    {
        CommonPrefix { count: 0, skew: 0 }
    }

    /// Adds one more pair. Fails if the count overflows.
    fn take(&mut self, pair: &Pair) -> Result<(), AllocError>
        ensures count { OnOk result (self.new.count ≡ self.old.count + 1) }
        ensures skew { OnOk result (self.new.skew ≡ max self.old.skew (apart pair.now)) }
    {
        self.count = one_more(self.count)?;
        self.skew = self.skew.max(pair.left.cycle.abs_diff(pair.right.cycle));
        Ok(())
    }
}

/// Appends an item, in place of the oldest one if the buffer is full.
pub fn push_last<T: Drop>(last: &mut HeapCircularBuffer<T>, item: T)
    ensures { last.new ≡ buffer
        (keep_last last.old.capacity (last.old.items ++ item ∷ [])) last.old.capacity }
{
    last.push_back(item);
}
