//! What a console adds to its answers, behind `#`: the source line and the name of a place, the operand of an order by its name,
//! what words are worth, and the display in words. Also the short forms of its commands. All of it is text for a person: no contract says what it is.
#![tactic(auto)]

mod amount;
mod cell_notes;
mod command_reader;
mod display;
mod fault;
mod note_writer;
mod notes;
mod nouns;
mod operand_notes;
mod values;

pub use command_reader::{CommandReader, QuantityCommands};
pub use fault::{NotesFault, NounFault};
pub use note_writer::NoteWriter;
pub use notes::{NoteFiles, Notes, RopeFile, read_notes};
