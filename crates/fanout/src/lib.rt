//! Runs a list of jobs side by side, each in its own place of the list.
#![tactic(auto)]

mod gate;
mod job;
mod parts;

pub use gate::{Gate, OpenGate};
pub use job::Job;
pub use parts::all;
