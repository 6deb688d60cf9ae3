//! Periodic schedules: whether one holds on a net for ever, by finitely many tests, and what it shows of the rate.
#![tactic(auto)]

mod laws;
mod needs;
mod passes;
mod schedule;
mod turns;

pub use laws::{
    lines_decide, loop_schedules_hold, loops_have_one_schedule, schedules_bound_the_rate,
};
pub use schedule::{Periodic, from_loop};
