//! Compares two runs by what can be observed: all channel writes, the words of one channel, or the panels, without
//! the cycles. Also steps a run from write to write.
mod common_prefix;
mod comparison;
mod count;
mod cursor;
mod next;
mod observation;
mod pairing;
mod runs;

pub use common_prefix::{none_kept, push_last};
pub use comparison::{ObservedComparison, ObservedDivergence, Pair};
pub use count::one_more;
pub use next::next_write;
pub use observation::{Observation, Observed};
pub use runs::compare_shown;
