//! Reports as text for a person: one file a report. They are safe, total and tested; no contract says what they read.
#![tactic(auto)]

mod bank_changes;
mod bank_list;
mod bank_patterns;
mod bank_sums;
mod comparison;
mod count;
mod observed;
mod patterns;
mod profile;
mod slips;
mod stuck_columns;

pub use bank_changes::push_bank_changes;
pub use comparison::{SideNames, push_comparison};
pub use observed::{push_brief, push_shown};
pub use patterns::{push_damage, push_patterns};
pub use profile::{ProfileForm, push_profile};
pub use slips::push_slips;
