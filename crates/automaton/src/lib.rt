//! Timed graphs of scenarios that an automaton runs, and the law that reads the worst rate off them.
#![tactic(auto)]

mod edges;
mod graph;
mod keeping;
mod laws;
mod leading;
mod making;

pub use graph::{Edge, TimedGraph};
pub use keeping::{is_run, needed};
pub use laws::worst_is_shown;
pub use leading::leads_on;
pub use making::{GraphError, product};
