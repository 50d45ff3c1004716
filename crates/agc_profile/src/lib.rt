//! Profiles: how often a run does what, and how many cycles that takes.
#![tactic(auto)]

mod context;
mod counting;
mod data;
pub mod laws;
mod number;
mod opcode;
mod profile;
mod routine;
mod step;
mod table;
mod tally;

pub use context::Context;
pub use counting::count;
pub use data::DataReads;
pub use number::{basic_number, extracode_number};
pub use opcode::Opcode;
pub use profile::Profile;
pub use routine::{MemoryKind, is_named, sum_routines};
pub use step::Step;
pub use table::Table;
pub use tally::Tally;
