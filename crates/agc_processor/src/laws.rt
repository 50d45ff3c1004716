//! Laws of the orders and interrupts, stated independently of their definitions: each is the
//! contract of a function that does nothing.
pub mod interrupts;
pub mod orders;
