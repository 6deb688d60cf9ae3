//! Runs lists of jobs side by side, and shows how their gate is entered. It has no calls of its own.
#![tactic(auto)]

#[cfg(test)]
mod all_tests;
#[cfg(test)]
mod gate_tests;
