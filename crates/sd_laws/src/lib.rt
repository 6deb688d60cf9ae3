//! Laws of the top call: the words and files decide how a run ends, and what is put is valid.
#![tactic(auto)]

mod laws;

pub use laws::know_endings;
