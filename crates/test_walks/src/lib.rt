//! Runs the walks of `walks` on small lattices: where they end is worked out by hand. It has no calls of its own.
#![tactic(auto)]

#[cfg(test)]
mod fixtures;
#[cfg(test)]
mod walk_tests;
