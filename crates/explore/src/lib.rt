//! The trade-off between storage and rate: the Pareto points of all storage distributions within a limit, by levels of
//! equal storage, whose distributions are evaluated side by side.
#![tactic(auto)]

mod error;
mod exploration;
mod hints;
pub mod laws;
mod level;
mod members;
mod search;

pub use error::ExploreError;
pub use evaluations::Shown;
pub use exploration::{Exploration, Member};
pub use search::explore;
