//! The Pareto points of storage and rate among distributions that are offered one by one.
#![tactic(auto)]

mod covers;
mod front;
mod point;

pub use front::Front;
pub use point::Point;
