//! The ring between machine and display: its two ends, blocks of items, and the gate that both threads call.
//!
//! Nothing about a gate is proved: no clause can describe what is behind a lock that another thread may change.
#![tactic(auto)]

mod block_sender;
mod gate;
mod item;
mod receiver;
mod rest;
mod ring;
mod sender;
mod slots;

pub use block_sender::BlockSender;
pub use gate::{Gate, Open};
pub use item::{BLOCK, Item};
pub use receiver::Receiver;
pub use rest::{Rest, rejoin};
pub use ring::{LinkFault, link, link_of};
pub use sender::Sender;
pub use slots::{MOST_SLOTS, Slots};
