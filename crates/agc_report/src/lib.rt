//! The page that shows a rope, or two side by side, for whoever restores it: words for a person, safe, total and tested.
#![tactic(auto)]

mod apart;
mod bad_words;
mod escaped;
mod head;
mod lines;
mod map;
mod page;
mod rope_words;
mod section;
mod sums;

pub use page::{ShownRope, rope_page};
