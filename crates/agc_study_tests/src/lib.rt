//! Tests of what `agc-study` does, through public calls.
#![tactic(auto)]

#[cfg(test)]
mod tests;
