//! The assembler: turns source text with names and orders into a rope file, and a rope back into source. Reports what is
//! wrong with a source, and writes its symbol file.
#![tactic(auto)]

mod assemble_source;
mod channel_names;
mod channels;
mod disassemble;
mod fault;
mod fault_place;
mod faulty;
mod laws;
mod listing_style;
mod pass1;
mod pass2;
mod source_lines;
mod symbol_file;

pub use agc_encode::{basic_word, extracode_word};
pub use agc_listing::Location;
pub use agc_vocabulary::{Names, SourceFault, is_order};
pub use assemble_source::assemble;
pub use channel_names::source_symbols;
pub use channels::note_channels;
pub use disassemble::rope_source;
pub use fault::{AssemblyFault, EarlierLine};
pub use fault_place::{Spot, has_letter, word_at_fault};
pub use faulty::{CountedFault, FaultyLine, counted_faults};
pub use laws::{a_listing_shows_the_orders_of_a_source, the_fault_reported_is_the_first};
pub use listing_style::yul_source;
pub use source_lines::{overlapped_line, word_lines};
pub use symbol_file::name_lines;
