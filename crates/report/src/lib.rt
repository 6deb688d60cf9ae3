//! The lines that the analyser prints: answers, and one line for each refusal.
#![tactic(auto)]

mod answers;
mod buffers;
mod claims;
mod completions;
mod cycles;
mod expansions;
mod fractions;
mod lacks;
mod links;
mod numbers;
mod points;
mod quantities;
mod reasons;
mod refusal;
mod refusals;
mod scenario_points;
mod schedules;
mod summaries;
mod walks;
mod worst_rates;

pub use answers::{rate_text, repetition_text};
pub use buffers::{buffers_text, shared_buffers_text};
pub use claims::{CertificateKind, ClaimLine, claim_text, converted_text};
pub use completions::complete_text;
pub use escapes::escaped;
pub use expansions::expand_text;
pub use lacks::lacks_text;
pub use points::{point_text, points_header, points_text};
pub use quantities::quantity_word;
pub use refusal::{Class, Refusal};
pub use refusals::{memory_text, refusal_line, refusal_text};
pub use scenario_points::scenario_points_text;
pub use summaries::summary_text;
pub use walks::walk_text;
pub use worst_rates::worst_text;
