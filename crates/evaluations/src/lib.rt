//! Evaluates storage distributions of a net side by side, whatever search they come from: the rate of each, what shows it, and the
//! channels on which more room could raise it.
#![tactic(auto)]

mod evaluating;
mod exploring;
mod rated;
mod shown;
mod starts;
mod task;
mod wirings;

pub use evaluating::{Answered, Visit, evaluate_all};
pub use exploring::Exploring;
pub use rated::Rated;
pub use shown::Shown;
pub use starts::Starts;
pub use wirings::wiring_of;
