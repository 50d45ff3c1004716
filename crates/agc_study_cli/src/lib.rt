//! The command line of `agc-study`: parses words into arguments.
#![tactic(auto)]

mod bank_list;
mod command_line;
mod jobs;
mod merge;
mod parameter;
mod profile;
mod restore;
mod restore_commands;
mod rope_commands;
mod run_commands;
mod runs;
mod sample;
mod shared;
mod shown;
mod telemetry;
mod values;
mod words;

pub use command_line::command;
pub use words::{parse, parse_env};
