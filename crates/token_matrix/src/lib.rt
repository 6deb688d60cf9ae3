//! Stamps of the tokens that scenarios share, and max-plus matrices that carry them through a round.
#![tactic(auto)]

mod batch;
mod entries;
mod laws;
mod line;
mod making;
mod matrix;
mod round;

pub use entries::Entry;
pub use laws::{entries_are_longest_ways, matrices_are_one, matrices_have_a_row};
pub use making::{MatrixError, first_token, matrix_of};
pub use matrix::Matrix;
