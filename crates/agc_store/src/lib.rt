//! Memory: the rope file, and erasable and fixed memory behind one address.
#![tactic(auto)]

mod addr;
pub mod place;
mod rope;
mod rope_file;
mod store;

pub use addr::Addr;
pub use rope::Rope;
pub use rope_file::{RopeFault, RopeForm, index_in_file};
pub use store::Store;
