//! Two runs side by side: where they diverge, boundary by boundary or by what an observer sees.
#![tactic(auto)]

mod cells;
mod common_prefix;
mod comparison;
mod cursor;
mod observed;
mod runs;
mod same;
mod turn;

pub use cells::CellPair;
pub use comparison::{Comparison, DivergencePoint};
pub use cursor::{End, WriteDivergence};
pub use observed::{
    Observation, Observed, ObservedComparison, ObservedDivergence, Pair, compare_shown, next_write,
    none_kept, one_more, push_last,
};
pub use runs::compare;
