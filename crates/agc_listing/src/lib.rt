//! Listings: places in memory, orders and ropes as text, and the rope that a listing describes. Also the type of reports,
//! and how they print lines and words of a file.
#![tactic(auto)]

mod build;
mod cell;
mod fault;
mod laws;
mod line;
mod listed;
mod location;
mod location_range;
mod number;
mod operand_location;
mod order;
mod place;
mod report;
mod rope_builder;
mod shown;
mod text;

pub use build::{file_of, read_text, weave, woven_bits};
pub use cell::{Cell, is_same_word, push_cell_word};
pub use fault::{LineFault, WeaveFault};
pub use laws::{files_say_rope_words, listings_say_their_words, words_listed_make_the_rope};
pub use line::{PlacedWord, first_comma, has_other_byte, is_no_text, read_line, read_place};
pub use listed::{
    is_in_selected_bank, leads_on, list, listed_address, push_rope_place, rope_place, starts_run,
};
pub use location::{
    Location, bank_word, cell_address, complete_address, is_addressable, location_at, location_in,
    location_named, location_of_pseudo_address,
};
pub use location_range::{LocationRange, RangeFault, one_place, only_cells, two_places};
pub use number::{
    Signed, count_named, decimal_word, octal_word, offset_named, offset_parsed, signed_number,
};
pub use operand_location::sure_location;
pub use order::{Operand, next_is_extracode, operand_in, push_operand, push_order};
pub use place::{Place, push_place};
pub use report::Report;
pub use rope_builder::RopeBuilder;
pub use shown::{
    SHOWN_BYTES, push_file_bytes, push_file_line, push_quoted, push_quoted_then, push_subject,
};
pub use text::{cut_label, is_listed, is_name, next_parsed, only_word, words_of};
