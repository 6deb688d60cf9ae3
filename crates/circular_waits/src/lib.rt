//! Circular waits of blocked nets: actors below their rounds, each of which lacks tokens from the next, and the last from the first.
#![tactic(auto)]

pub mod laws;
mod waits;

pub use waits::circular_wait;
