//! The rate of a storage distribution, and the channels on which more room could raise it.
#![tactic(auto)]

mod held_up;
pub mod laws;
mod rating;

pub use rating::{Evaluation, Outcome, Trial, evaluate};
