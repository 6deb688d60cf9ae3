//! The loop of self-timed execution, and with it the rate of a net: by needs where these show it, else by events.
#![tactic(auto)]

mod laws;
mod run;

pub use event_loops::starts_until;
pub use laws::{live_nets_have_loops, one_ending, starts_are_counted_to_the_first_repeat};
pub use loops::RunError;
pub use run::{find_loop, run_loop};
