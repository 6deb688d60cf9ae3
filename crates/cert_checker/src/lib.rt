//! The checker: whether a certificate is valid, or its first faulty line. It stands on the definitions alone, and uses no
//! execution of a net.
#![tactic(auto)]

mod best_rates;
mod blocking;
mod buffers;
mod certificates;
mod children;
mod cycles;
mod fault;
mod fits;
mod incident;
mod joins;
mod known;
mod laws;
mod links;
mod listed;
mod members;
mod points;
mod potentials;
mod rates;
mod reaching;
mod scenarios;
mod schedules;
mod shown;
mod sizes;
mod spaces;
mod trade_offs;
mod verdict;
mod walks;
mod weights;

pub use certificates::check;
pub use laws::{rate_is_shown, spelled_lines_fit, trade_off_is_shown};
pub use rates::check_rate;
pub use scenarios::check_scenario;
pub use trade_offs::check_storage;
pub use verdict::{Claim, Reason, Verdict};
