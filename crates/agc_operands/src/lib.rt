//! Names the operand of an order by what is known of the banks. All of it is text for a person: no contract says what it is.
#![tactic(auto)]

mod known_banks;

pub use known_banks::{KnownBanks, OperandNames, operand_name, split_names};
