//! The words of a source: operation codes, aliases, directives, numerals and names, and what is wrong with them.
#![tactic(auto)]

mod alias;
mod body;
mod laws;
mod mnemonic;
mod names;
mod numeral;
mod operation;
mod source_fault;

pub use alias::Alias;
pub use body::{
    code_of, cut_line, has_non_ascii_comment, is_include, is_operation, next_token, only_token,
    plain_line, without_minus,
};
pub use laws::a_fraction_is_the_nearest_number;
pub use mnemonic::{Directive, basic_named, extracode_named, is_order};
pub use names::Names;
pub use numeral::{is_numeral, is_scale, number_in, without_sign};
pub use operation::{Operation, operation_in};
pub use source_fault::SourceFault;
