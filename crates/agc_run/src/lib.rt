//! One run of `agc`: files, options and streams to the printed report, or one refusal.
#![tactic(auto)]

mod entry;
mod print;
mod progress_gate;
mod report;
mod run;
mod run_options;
mod text;

pub use agc_cli::{ArgsFault, Options, parse_args};
pub use entry::session;
pub use progress_gate::ProgressGate;
