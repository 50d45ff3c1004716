//! Helpers shared by the test crates: ropes from listings, gates that count or delay, and recorded progress.
#![tactic(auto)]

mod counting;
mod fault;
mod file;
mod flag;
mod line;
mod programs;
mod recording_progress;
mod rendezvous;
mod slow;

pub use counting::Counting;
pub use fault::ListingFault;
pub use file::rope_file;
pub use flag::Flag;
pub use programs::{DIVISION, EDRUPT, IDLE, KEYED_WRITES, RELAY_WORD, WRITES};
pub use recording_progress::RecordingProgress;
pub use rendezvous::{KeyRendezvous, Rendezvous};
pub use slow::Slow;
