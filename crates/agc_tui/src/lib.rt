//! The DSKY in a terminal: the drawn picture, the decoder of typed bytes, and the operator who presses keys.
#![tactic(auto)]

mod flash;
mod fold;
mod history;
mod input_event;
mod keyboard;
pub mod laws;
mod operator;
mod pacer;
mod search;
mod words;

pub use fold::Line;
pub use history::History;
pub use input_event::{Decoder, InputEvent};
pub use keyboard::Button;
pub use operator::Operator;
pub use pacer::{Pacer, Ratio, Speed, cycles_in, micros_of};
pub use search::{Search, Target, Way};
pub use words::{ColorMode, Size, View, push_inspector, push_tables, render};
