//! Reads a source with its includes: a line `$NAME` stands for the lines of the file NAME in the folder of the main file.
#![tactic(auto)]

mod expansion;
mod fault;
mod folder;

pub use expansion::{Expanded, Folder, expand, has_include};
pub use fault::{ExpandError, FaultyInclude, FaultyIncludes, IncludeFault, ReadFault};
pub use folder::{DiskFolder, name_of_path, path_beside};
