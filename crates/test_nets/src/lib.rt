//! Nets of synchronous graphs that are given as numbers: from a table, worked ones, and small ones drawn from a
//! seed. They are there for tests and benchmarks.
#![tactic(auto)]

mod checks;
mod drawn;
mod draws;
mod table;
mod worked;

pub use checks::{is_fed, is_joined};
pub use drawn::drawn_net;
pub use table::{Line, TableError, channel, is_lawful, table_net};
pub use worked::{
    blocked_pair, decoder, multi_rate_ring, ring_of_two, sample_rate_converter, three_at_once,
    token_ring,
};
