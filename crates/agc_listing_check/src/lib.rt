//! Checks the text of a rope, and says what is wrong with it or in doubt: the faults of a source, its lines that skip an
//! order, its cells that lie over others, and a listing's mnemonics that are not their words'.
#![tactic(auto)]

mod erase_remark;
mod line_remark;
mod listing_doubt;
mod listing_report;
mod mnemonic_check;
mod source_remark;

pub use erase_remark::erase_remarks;
pub use line_remark::line_remarks;
pub use listing_report::{check_listing, is_same_fault};
pub use mnemonic_check::{Misnamed, Written, first_misnamed};
pub use source_remark::nearest_order;
