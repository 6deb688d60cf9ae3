//! The certificates of answers: what is put beside a rate, a trade-off or a worst rate, so that a checker that executes nothing
//! can accept it.
#![tactic(auto)]

pub mod laws;
mod links;
mod listing;
mod members;
mod points;
mod rates;
mod trade_offs;
mod worst_rates;

pub use rates::rate_certificate;
pub use trade_offs::storage_certificate;
pub use worst_rates::worst_certificate;
