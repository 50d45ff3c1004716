//! The result of a comparison by observations: what two runs have in common, and where they diverge.
use crate::observed::observation::Observation;
use agc_trace::DiffBy;

/// Two observations, one of each run, that are the same except for their cycles.
#[derive(Clone, Copy, Debug, PartialEq, Eq)]
pub struct Pair {
    pub left: Observation,
    pub right: Observation,
}

/// The first observation that differs; `None` for a run with no further observation.
#[derive(Clone, Copy, Debug, PartialEq, Eq)]
pub struct ObservedDivergence {
    /// The number of the observation in both runs, counted from 1.
    pub number: u64,
    pub left: Option<Observation>,
    pub right: Option<Observation>,
}

/// The comparison of two runs by their observations.
#[derive(Debug, Drop)]
pub struct ObservedComparison {
    /// What is compared.
    pub what: DiffBy,
    /// The number of observations from the start that are the same.
    pub count: u64,
    /// The largest difference between the cycles of a pair.
    pub skew: u64,
    /// The last of these pairs, up to five.
    pub before: Vec<Pair>,
    /// The first observation that differs, or `None` if all are the same.
    pub divergence: Option<ObservedDivergence>,
}

impl ObservedComparison {
    ghost use Rattle.std.specs.Prelude.{◌≡◌};
    ghost use Rattle.agc_diff.specs.ObservedCompared.{is_same};

    /// Returns whether all observations of the runs are the same.
    pub fn is_same(&self) -> bool
        ensures { result ≡ is_same self.now }
    {
        self.divergence.is_none()
    }
}
