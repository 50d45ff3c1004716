//! Words: fifteen-bit ones' complement numbers with two zeros, their arithmetic and text, and the names of the
//! channels.
#![tactic(auto)]

mod angle;
mod arithmetic;
mod channel_write;
pub mod channels;
mod division;
mod edit;
mod logic;
mod narrow;
mod numeral;
mod pulse;
mod text;
mod wide;

pub use angle::modular_difference;
pub use arithmetic::{complement, dabs, sum};
pub use channel_write::ChannelWrite;
pub use channels::{FIRST_IO_CHANNEL, LAST_IO_CHANNEL};
pub use division::{product, quotient};
pub use edit::Edit;
pub use logic::{and, or, xor};
pub use narrow::Narrow;
pub use numeral::{read_decimal, read_octal};
pub use pulse::{Carry, Pulse};
pub use text::{next_line, next_word, without_return};
pub use wide::{Over, Wide, widen};
