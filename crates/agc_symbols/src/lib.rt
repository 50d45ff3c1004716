//! Symbols: names of places, the file that holds them, the lookup in both directions, and the name most similar to an
//! unknown word.
#![tactic(auto)]

mod channel_table;
mod column;
mod fault;
mod index;
mod laws;
mod line;
mod listing;
mod location;
mod lookup;
mod names_file;
mod place_name;
mod ranges;
mod register;
mod similar;
mod symbol_table;
mod writing;

pub use channel_table::ChannelTable;
pub use column::{push_column, push_named, push_nearby};
pub use fault::{NameFault, SymbolTableFault};
pub use laws::{the_nearest_name_is_reported, written_names_are_read};
pub use listing::text_with_names;
pub use lookup::resolve;
pub use names_file::{SymbolFileFault, names_at, read_names};
pub use place_name::PlaceName;
pub use ranges::{resolve_cells, resolve_range};
pub use register::Register;
pub use similar::{most_similar_name, push_unknown_name};
pub use symbol_table::{Nearest, SymbolTable};
pub use writing::{push_channel_line, push_name_line};
