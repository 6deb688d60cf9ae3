//! Dataflow nets as one trait with its laws, the nets of synchronous and of cyclo-static graphs, and needs between firings.
#![tactic(auto)]

mod csdf;
mod enabled;
mod graph_channels;
mod groups;
mod net;
mod phases;
mod sdf;
mod single;
mod sums;
mod table;
mod tokens;
mod wiring;

pub use csdf::CsdfNet;
pub use enabled::{can_fire, lacks};
pub use groups::Groups;
pub use net::{Firing, know_laws};
pub use phases::{PhaseRates, ones};
pub use sd_base::Role;
pub use sdf::SdfNet;
pub use single::{is_single_phase, single_phase_copy};
pub use sums::{Port, made_sum, need, port_phases, port_rate, taken_sum};
pub use table::LoopTable;
pub use tokens::{first_lack, initial_tokens, put_tokens, span_sum, take_tokens};
pub use wiring::{Wired, Wiring, ends};
