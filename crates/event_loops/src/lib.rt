//! The loop of self-timed execution, found by the shapes at its events.
#![tactic(auto)]

mod beginning;
mod by_events;
mod collect;
mod entry;
mod fingerprints;
mod repeat;
mod search;
mod steps;
mod trace;

pub use beginning::starts_until;
pub use by_events::loop_by_events;
