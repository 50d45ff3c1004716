//! Ropes as texts of numbers: reads a text of octal or hexadecimal words, and writes one.
#![tactic(auto)]

mod dump_line;
mod fault;
mod line_words;
mod radix;
mod reader;
mod unit;
mod writer;

pub use fault::{DumpFault, DumpLineFault};
pub use radix::{Radix, looks_like_numbers};
pub use reader::words_of_text;
pub use writer::{DumpLayout, push_dump};
