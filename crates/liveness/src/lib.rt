//! Whether a round of a net can be completed: the order of a round, or the counts at which the net is blocked.
#![tactic(auto)]

mod ending;
mod flags;
mod note;
mod round;
mod run;
mod series;

pub use ending::{Ending, finish_round, moved_sum, no_counts, whole_counts};
pub use round::{Round, fire_round, one_round};
