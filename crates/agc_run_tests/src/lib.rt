//! Tests of the ring, the two threads and whole runs of `agc`, through their public calls.
#![tactic(auto)]

#[cfg(test)]
mod tests;
