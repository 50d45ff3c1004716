//! The console: reads commands, and answers each one.
#![tactic(auto)]

mod ahead;
mod answer;
mod commands;
mod conversation;
mod help;
mod lines;
mod output;
mod queries;
mod repl;
mod saver;
mod settings;
mod whereabouts;

pub use agc_command::{
    BackCall, Command, CommandFault, CommandName, FileName, Limits, Meant, Rewind, SaveFault,
    Search, StepCall, Steps, parse_command,
};
pub use answer::{
    CellStyle, push_cell_lines, push_channel_line, push_end_line, push_error_line, push_fault_line,
    push_hit_line, push_write_line, push_writes_line,
};
pub use conversation::{ReplFault, run_repl};
pub use help::push_help;
pub use saver::Saver;
pub use settings::Numbered;
