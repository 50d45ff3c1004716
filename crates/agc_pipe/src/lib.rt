//! A run with its display: the machine on its own thread, the display on the caller's, and live keys.
#![tactic(auto)]

mod display;
mod feed;
mod keys;
mod live;
mod live_sending;
mod sending;
mod shown;
mod spacing;
mod threads;

pub use agc_ring::{Gate, Item, LinkFault, Open, Receiver, Rest, Sender, Slots, link, rejoin};
pub use display::{Display, Drained, drain};
pub use feed::{Feed, NoFeed};
pub use live::{Live, run_live, run_live_in};
pub use shown::{ShowFault, Shown, run_shown, run_shown_in};
pub use spacing::Spacing;
pub use threads::try_thread;
