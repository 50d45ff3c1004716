//! Command lines: options that several programs share, their parsing, and the text of help and mistakes.
#![tactic(auto)]

mod args;
mod command;
mod exit;
mod fault;
mod mistakes;
mod parameters;
mod program_args;
mod session_options;
mod values;
mod version;
mod words;

pub use args::parse_args;
pub use exit::exit_usage;
pub use fault::ArgsFault;
pub use mistakes::{fault_of, mistaken_word};
pub use parameters::{
    FORMS, form_option, limit_option, names_option, rope_file, script_file, until_option,
    watch_option, with_parameter,
};
pub use program_args::{Args, mistake_of, not_text, parse_env};
pub use session_options::Options;
pub use values::{form_of, number_of, path_of, text_of};
pub use version::{VERSION, answer_version};
pub use words::{WordsFault, words_of};
