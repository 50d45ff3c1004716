//! The processor: what one order, one timer step and one interrupt do, as functions of processor and cycle.
#![tactic(auto)]

mod basic;
mod channel;
mod clock;
mod double;
mod effect;
mod extra;
mod idle;
mod interrupt;
pub mod laws;
mod logic;
mod processor;
mod signs;
mod start;
mod timer;

pub use clock::{
    TIME1_FIRST, TIME3_FIRST, TIME4_FIRST, TIME5_FIRST, due_from, scaler, step_is_due,
    time6_due_from, time6_periods,
};
pub use idle::Context;
pub use interrupt::{INTERRUPT_MCT, Rupt};
pub use processor::{Halt, Processor, Ran, Timers, WRITE_MCT};
pub use timer::Timer;
