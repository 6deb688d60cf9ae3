//! Scenario files whose shared channels have capacities, and the laws on which a search for what storage each worst rate
//! costs rests.
#![tactic(auto)]

mod bounding;
mod copies;
pub mod laws;
mod merged;
mod naming;
mod shared_channel;

pub use bounding::bounded_file;
pub use shared_channel::{Corner, channel_steps, corner_of, looped_tokens};
