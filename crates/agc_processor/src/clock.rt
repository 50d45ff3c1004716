//! The clock: how much of the counted time has passed at the start of a machine cycle, and which timer step is due.
mod due;
mod period;

pub use due::{due_from, scaler, step_is_due, time6_due_from, time6_periods};
pub use period::{TIME1_FIRST, TIME3_FIRST, TIME4_FIRST, TIME5_FIRST};
