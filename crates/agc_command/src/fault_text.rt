//! Formats a fault with the name that was probably meant.
ghost use Rattle.std.specs.Prelude.{◌≡◌, ◌++◌, Some, OnOk, string_bytes};
ghost use Rattle.agc_command.specs.Fault.{fault_text_with, name_meant, question};

use crate::fault::CommandFault;
use crate::meant::name_meant;
use agc_symbols::SymbolTable;
use std::alloc::AllocError;

/// Adds a fault, and the name that was probably meant if it is an unknown name.
#[tactic(auto, unfolding(crate::specs::Fault::fault_text_with))]
pub fn push_fault_with(
    text: &mut String,
    names: &Option<SymbolTable>,
    fault: CommandFault,
) -> Result<(), AllocError>
    ensures { OnOk result
        (string_bytes text.new ≡ string_bytes text.old ++ fault_text_with names.now fault) }
{
    write!(text, "{fault}")?;
    push_question(text, names, fault)
}

/// Adds the question whether a name was meant, if the fault is an unknown name.
fn push_question(
    text: &mut String,
    names: &Option<SymbolTable>,
    fault: CommandFault,
) -> Result<(), AllocError>
    ensures { OnOk result
        (string_bytes text.new ≡ string_bytes text.old ++ question (name_meant names.now fault)) }
{
    match name_meant(names, fault) {
        Some(name) => push_meant(text, name),
        None => Ok(()),
    }
}

/// Adds the question whether this name was meant.
fn push_meant(text: &mut String, name: &str) -> Result<(), AllocError>
    ensures { OnOk result
        (string_bytes text.new ≡ string_bytes text.old ++ question (Some name.now)) }
{
    write!(text, "; did you mean {name}?")
}
