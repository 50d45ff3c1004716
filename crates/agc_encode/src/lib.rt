//! What a line of a source means: its parts, its order or directive, and the words that it writes: orders, data and the
//! interpretive language. Writes the lines of a rope's source. The passes over all lines are those of `agc_asm`.
#![tactic(auto)]

mod disassemble;
mod encode;
mod interpretive_word;
mod laws;
mod line_kind;
mod location_counter;
mod operand;
mod role;
mod row;
mod source_line;
mod unknown_operation;

pub use disassemble::{Read, push_source_lines, read_next};
pub use encode::{
    Banks, Pair, Site, banks_after, cell_in, encode_pair, encode_word, is_banked, leads_after,
    place_in, superbank,
};
pub use interpretive_word::spoken_meaning;
pub use laws::{
    a_minus_complements_the_words, aliases_are_the_words_of_their_table,
    an_offset_is_added_to_the_word,
};
pub use line_kind::{LineKind, counter_after, kind_of};
pub use location_counter::{At, LocationCounter};
pub use operand::{location_apart, location_beside, location_in};
pub use role::{Role, due_behind, role_of};
pub use row::{basic_word, extracode_word};
pub use source_line::{SourceLine, parse_lines};
