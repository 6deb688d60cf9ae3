//! What a search for the loop of self-timed execution comes to, and what rows of starts tell of a loop.
#![tactic(auto)]

mod alike;
mod error;
mod rows;
mod settled;
mod table;

pub use alike::{Pair, all_end_alike};
pub use error::RunError;
pub use rows::{empty_rows, room_for, starts_of_round};
pub use settled::{count_by, is_after, settled_from};
pub use table::loop_table;
