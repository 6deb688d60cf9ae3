//! The Pareto points of all storage distributions within a limit, by bounds: what each evaluation shows is kept, and only what
//! nothing known covers is evaluated.
#![tactic(auto)]

mod ceiling;
mod evaluating;
mod first;
mod grid;
mod known;
mod learning;
mod point;
mod search;
mod searching;
mod stops;
mod unspaced;
mod waits;

pub use search::pareto_points;
