//! Need cycles: chains of firings, each needing the one before, that lead round to the same actor some
//! rounds later and so bound every rate of a net from above.
#![tactic(auto)]

mod closing;
mod cycle;
mod find;
pub mod laws;
mod marks;
mod pass;
mod spaces;
mod steps;
mod stretch;
mod tight;
mod unspaced;
mod walk;

pub use cycle::{CycleStep, FiringNo, NeedCycle};
pub use find::{critical_cycle, cycle_of};
pub use steps::CycleSteps;
pub use unspaced::cycle_without_spaces;
