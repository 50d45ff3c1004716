//! The result of a comparison: what two runs have in common, where they diverge, and how their ends differ.
use crate::cells::CellPair;
use crate::cursor::{End, WriteDivergence};
use agc_trace::Entry;

/// The first boundary that differs.
#[derive(Clone, Copy, Debug, PartialEq, Eq)]
pub struct DivergencePoint {
    /// The number of the boundary in both runs, counted from 1.
    pub number: u64,
    pub left: Entry,
    pub right: Entry,
}

/// The comparison of two runs.
#[derive(Debug, Drop)]
pub struct Comparison {
    /// The number of boundaries from the start that are the same.
    pub boundaries: u64,
    /// The number of channel writes of these boundaries.
    pub writes: u64,
    /// The last of these boundaries, up to five.
    pub before: Vec<Entry>,
    /// The first boundary that differs, or `None` if all are the same.
    pub divergence: Option<DivergencePoint>,
    /// The first channel write that differs, or `None` if all are the same.
    pub write: Option<WriteDivergence>,
    pub left: End,
    pub right: End,
    /// The erasable cells that differ at the two stops, in order.
    pub cells: Vec<CellPair>,
}

impl Comparison {
    ghost use Rattle.std.specs.Prelude.{◌≡◌};
    ghost use Rattle.agc_diff.specs.Compare.{is_same};

    /// Returns whether the runs are the same: boundary by boundary up to the stop, and in all erasable cells there.
    pub fn is_same(&self) -> bool
        ensures { result ≡ is_same self.now }
    {
        self.divergence.is_none() && self.cells.is_empty()
    }
}
