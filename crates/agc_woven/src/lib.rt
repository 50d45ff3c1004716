//! What `weave` writes beside the words of a source, the sums of the banks and a listing; and a rope's words as
//! interpretive code.
#![tactic(auto)]

mod followed_code;
mod interpretive_code;
mod source_listing;
mod sums;

pub use followed_code::followed_lines;
pub use interpretive_code::{OperationText, Operations, interpretive_lines, operations_at};
pub use source_listing::{ListingFault, listing_of};
pub use sums::{SummedRope, SumsFault, used_file, with_sums};
