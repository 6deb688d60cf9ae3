//! The steps of commands: each passes a value on or refuses the command, and executes nothing. The first ones open what words name
//! and test it, those after an execution tell what it came to, and the last ones put and send the answer. Each end of a run has its
//! status.
#![tactic(auto)]

mod actor_names;
mod answer;
pub mod asking;
pub mod balancing;
pub mod buffering;
mod certificate_reading;
pub mod certifying;
pub mod delivering;
mod file_kind;
pub mod finding;
pub mod judging;
pub mod nets;
pub mod opening;
pub mod ordering;
pub mod reading;
pub mod scenario_bounds;
pub mod scenario_steps;
mod status;
mod stop;
pub mod taking;

pub use answer::{Answer, Put};
pub use file_kind::FileKind;
pub use status::Status;
pub use stop::Stop;
