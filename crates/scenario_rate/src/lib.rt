//! The exact worst rate of a timed graph, with a cycle that shows it and the least of the potentials that fit it.
#![tactic(auto)]

mod answer;
mod by_node;
mod chosen;
mod distances;
mod laws;
mod levels;
mod passes;
mod repeat;
mod search;
mod tight;
mod trace;

pub use answer::Worst;
pub use laws::{files_are_sound, files_grow, products_are_searched};
pub use passes::worst;
