//! The subcommands of `agc-study`: arguments and files to printed results and an exit status. Here are `list`, `weave`,
//! `compare --words`, `sample` and `trace --interpretive`, and what runs each subcommand; those about runs are in
//! `agc_run_commands`, those about ropes in `agc_rope_commands`.
#![tactic(auto)]

mod answers;
mod cmd_list;
mod cmd_operations;
mod cmd_sample;
mod cmd_weave;
mod cmd_words;
mod interpreter;
mod interpretive_list;
mod operation_names;
mod operations;
mod run_tables;
mod samples;

pub use agc_run_commands::{FAULTY, Streams, TraceError, status_of_trace_error};
pub use answers::{answer, last_cycle};
