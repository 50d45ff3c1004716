//! Tests of words, memory, scripts, processor and machine through their public calls.
#![tactic(auto)]

#[cfg(test)]
mod tests;
