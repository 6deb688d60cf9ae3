//! Runs the calls of the shelf and the sinks in memory. It has no calls of its own.
#![tactic(auto)]

#[cfg(test)]
mod memory_tests;
