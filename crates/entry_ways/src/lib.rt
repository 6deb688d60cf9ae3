//! The channels from which tokens are taken along longest ways of entries of a scenario's matrix.
#![tactic(auto)]

mod chains;
mod column;
mod firsts;
mod links;
mod marking;
mod producers;
mod way;

pub use marking::{EntryPlace, mark_ways};
