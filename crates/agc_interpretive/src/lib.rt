//! The interpretive language as values: its operations, the words that encode them with their operands, and a decoder.
#![tactic(auto)]

mod due;
mod fault;
mod form;
mod modifier;
mod operand;
mod operation;
mod pair;
mod pending;
mod store;
mod table;
mod words;

pub use due::{Due, Value, operand_word};
pub use fault::Fault;
pub use form::{Action, Form, Pops, ShiftKind, StoreKind, When};
pub use modifier::{shift_in, shift_word, switch_in, switch_word};
pub use operand::{Count, Index, OperandKind, Place, cut_index};
pub use operation::Operation;
pub use pair::{indexes, name_in, operations_are_decoded, pair_in, pair_word};
pub use pending::Pending;
pub use store::{Store, store_in, store_word};
pub use words::{
    address_in, address_word, branch_in, branch_word, cadr_in, cadr_word, cell_in, cell_word,
};
