//! The search of storage distributions by levels of equal storage: each one that is visited leads on to those with a step
//! more room on some channels.
#![tactic(auto)]

mod channel;
mod error;
mod found;
mod head;
pub mod laws;
mod levels;
mod raising;
mod sets;

pub use channel::ChannelStep;
pub use error::LevelsError;
pub use found::{Found, Level};
pub use levels::{Bounds, Levels};
#[doc(hidden)]
pub use sets::Waiting;
