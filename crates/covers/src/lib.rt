//! A search for the capacities that no known bound covers: what each evaluation shows is kept as a bound, and a branch and
//! bound over these asks for the least storage that none of them covers. It knows no net, and of rates only their order.
//!
//! Such a search by what earlier answers rule out is known as one by implicit hitting sets (Moreno-Centeno and Karp, 2013); the
//! bounds are to it what no-goods are to constraint search (Stallman and Sussman, 1977) and conflict clauses to satisfiability
//! solvers (Marques-Silva and Sakallah, 1999).
#![tactic(auto)]

mod acting;
mod bound;
mod lattice;
mod least;
mod looking;
mod node;
mod search;
mod split;
mod survey;
mod vectors;
mod ways;

pub use bound::{Bound, Cap};
pub use lattice::{Axis, Lattice};
pub use search::{Level, Order, Search};
pub use vectors::{capacity_at, set_capacity, storage_within};
