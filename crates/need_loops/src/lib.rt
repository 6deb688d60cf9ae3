//! The loop of self-timed execution, found by the needs of its firings, without events.
#![tactic(auto)]

mod by_moments;
mod by_needs;
mod by_rounds;
mod feeds;
mod growth;
mod needs;
mod rows;
mod shown;
mod unlike;

pub use by_needs::loop_by_needs;
