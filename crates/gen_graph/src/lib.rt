//! Graphs from a number, and graph tables written as graph files.
#![tactic(auto)]

mod direction;
mod made;
mod nodes;
mod rows;
mod written;

pub use made::make;
pub use written::write_graph;
