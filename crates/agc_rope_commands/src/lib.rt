//! The subcommands of `agc-study` about ropes: `check`, `convert`, `repair`, `patch`, `sums` and `merge`. Also what those about
//! sources share with them: ropes as text, sources assembled, their includes and their faults.
#![tactic(auto)]

mod checks;
mod cmd_check;
mod cmd_merge;
mod cmd_restore;
mod column_lines;
mod convert_fault;
mod full_list;
mod included;
mod rope_bytes;
mod rope_pages;
mod ropes;
mod source_faults;

pub use checks::{
    CheckedListing, check_files, check_key_file, check_listing_file, check_with, joined,
};
pub use cmd_check::{run_check, write_report};
pub use cmd_merge::run_merge;
pub use cmd_restore::{run_convert, run_patch, run_repair, run_sums};
pub use included::in_files;
pub use rope_bytes::{read_banks, special_list};
pub use ropes::{Woven, misnamed_line, text_of_rope, weave_text};
pub use source_faults::{push_line, write_expanded_faults, write_other_faults};
