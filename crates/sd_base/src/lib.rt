//! Graph tables, small list types and the plain nets of dataflow graphs, on which every other crate stands.
#![tactic(auto)]

mod counter;
pub mod futures;
pub mod laws;
pub mod limits;
mod memory;
mod numbers;
mod role;
mod rows;
mod tables;
mod text;

pub use counter::{Ledger, Steps};
pub use limits::{Limits, Quantity};
pub use memory::NoMemory;
pub use numbers::{Fraction, gcd, gcd_wide, lcm_within};
pub use role::Role;
pub use rows::Rows;
pub use tables::{
    ActorRow, ChannelRow, GraphFile, Kind, ScenarioFile, ScenarioRow, SharedRow, StateRow,
};
pub use text::{SHORT_TEXT, Text};
