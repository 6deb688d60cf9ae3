//! Certificates of rates, of trade-offs between storage and rate, and of worst-case rates of scenarios, as texts: written and
//! read, in both versions. A certificate has one spelling in each version.
#![tactic(auto)]

mod certificates;
mod error;
pub mod laws;
mod reading;
mod writing;

pub use certificates::{
    Certificate, LinkCycle, LinkStep, MemberLine, MemberShown, PointLine, RateCertificate,
    ScenarioCertificate, StorageCertificate,
};
pub use error::CertError;
pub use reading::read_certificate;
pub use writing::{write_certificate, write_within};
