//! Traces: what each boundary of a run did, as values and as lines. Also what the other studies of a run take as options,
//! so that their arguments need none of their crates.
#![tactic(auto)]

mod change;
mod diff_by;
mod entry;
mod last;
pub mod laws;
mod layout;
mod line;
mod line_form;
mod named_line;
mod operand;
mod operand_line;
mod passing;
mod recorded;
mod selection;
mod service;
mod span;
mod state_lines;
mod touched;
mod tracing;

pub use change::Change;
pub use diff_by::DiffBy;
pub use entry::{Entry, Registers, next_entry, registers_in, write_shown};
pub use layout::Layout;
pub use line::{order_place, push_happening, push_line, push_registers};
pub use line_form::{LineForm, Notation};
pub use named_line::{push_line_with, push_named_happening};
pub use operand::{Addressed, HeldChannel, HeldWord, Operand};
pub use recorded::{Recorded, next_recorded};
pub use selection::{Only, Selection};
pub use service::Service;
pub use span::Span;
pub use state_lines::{push_next_line, push_next_line_with, push_registers_line};
pub use tracing::{TraceFault, trace};
