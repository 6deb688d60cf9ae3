//! The trade-off between the storage of the channels that scenarios share and the worst rate over all paths of their
//! automaton: the Pareto points of all storage distributions within a limit, by levels of equal storage.
#![tactic(auto)]

mod blocked;
mod error;
mod level;
mod members;
mod plan;
mod point;
mod rated;
mod rating;
mod rising;
mod scenario;
mod search;
mod shown;
mod task;

pub use error::ScenarioStorageError;
pub use point::{ScenarioLimits, ScenarioPoint};
pub use search::scenario_points;
