//! The machine: a processor with its script, its limit and its stop, run boundary by boundary.
#![tactic(auto)]

mod answer;
mod engine;
mod event;
mod idle;
pub mod laws;
mod machine;
mod order_run;
mod quiet;
mod stop_address;
mod upcoming;

pub use agc_word::ChannelWrite;
pub use answer::{Next, Stepped, Stop};
pub use machine::{LimitFault, Machine, Refused};
pub use order_run::{OrderRun, Watch};
pub use stop_address::StopAddress;
pub use upcoming::{InHand, Upcoming, the_upcoming_comes};
