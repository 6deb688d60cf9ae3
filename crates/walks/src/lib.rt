//! Walks over the capacities of a lattice, by what evaluations of capacities told: from what was told, or from the corner,
//! towards a goal, always by a step on a channel that what is known shows, up to capacities of which nothing is known. So all
//! that such a search evaluates is what one along storage dependencies comes to (Stuijk, Geilen and Basten, 2008). It knows no
//! net.
#![tactic(auto)]

mod choosing;
mod ends;
mod holding;
mod starting;
mod telling;
mod walking;

pub use ends::Walk;
pub use holding::held_by;
pub use telling::Telling;
pub use walking::walk;
