//! The commands of the console: their names, their parsing, and what is wrong with a line.
#![tactic(auto)]

mod calls;
mod command;
mod comparison;
mod condition_text;
mod edits;
mod fault;
mod fault_text;
mod file_name;
mod limits;
mod meant;
mod name;
mod number;
mod place;
mod request;
mod save_fault;
mod words;

pub use command::{BackCall, Command, Limits, Rewind, Search, StepCall, Steps};
pub use condition_text::push_breakpoint;
pub use fault::CommandFault;
pub use fault_text::push_fault_with;
pub use file_name::FileName;
pub use meant::Meant;
pub use name::CommandName;
pub use request::parse_command;
pub use save_fault::SaveFault;
