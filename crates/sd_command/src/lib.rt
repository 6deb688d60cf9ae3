//! The top call: one command from its words to the bytes that it sends. Its steps are those of `sd_steps`.
#![tactic(auto)]

mod commands;
mod requests;
mod run;

// The types that laws of the top call speak of.
pub use commands::wanted::{WantedPoints, WantedRate, WantedRounds};
pub use run::{analyse, exit_code};
pub use sd_steps::{Answer, FileKind, Put, Status};
