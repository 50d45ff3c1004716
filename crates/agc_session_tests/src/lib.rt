//! Tests of sessions, the console's language and the DSKY in a terminal, through public calls.
#![tactic(auto)]

#[cfg(test)]
mod tests;
