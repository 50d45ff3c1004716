//! Loads a run: files and options to a machine at its start, or the first refusal.
#![tactic(auto)]

mod fault;
mod files;
mod keys;
mod run_files;
mod start;

pub use fault::LoadFault;
pub use files::{read_keys, read_rope, read_script};
pub use keys::{is_white, named_keys};
pub use run_files::RunFiles;
pub use start::{Loaded, load};
