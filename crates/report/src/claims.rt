ghost use Rattle.std.specs.Prelude.{◌≡◌, IfOk};
ghost use Rattle.std.specs.String.{string_bytes};
ghost use Rattle.report.specs.ClaimTexts.{accepted_points, accepted_rate, claim_line, converted_line, kind_word};

use crate::answers::bytes_of;
use sd_base::{Fraction, NoMemory, Rows};
use std::alloc::{AllocError, Global};

/// What an answer is that a certificate shows.
#[derive(Clone, Copy, Debug, PartialEq, Eq)]
pub enum CertificateKind {
    Throughput,
    Storage,
    Scenario,
}

impl CertificateKind {
    /// The word by which lines name it.
    #[tactic(auto, unfolding(crate::specs::ClaimTexts::kind_word))]
    fn word(&self) -> &'static str
        ensures { result.now ≡ kind_word self.now }
    {
        match self {
            CertificateKind::Throughput => "throughput",
            CertificateKind::Storage => "storage",
            CertificateKind::Scenario => "scenario",
        }
    }
}

/// What an accepted certificate shows.
#[derive(Clone, Copy, Debug, PartialEq, Eq)]
pub enum ClaimLine {
    /// The rate of a graph, in rounds per time unit.
    Rate(Fraction),
    /// So many Pareto points up to a limit of the storage.
    Points { number: u64, limit: u64 },
    /// The worst rate of scenarios, in rounds per time unit.
    Worst(Fraction),
}

/// The text of a certificate that is accepted: `accepted`, its kind, and what it shows.
#[tactic(auto, unfolding(crate::specs::ClaimTexts::claim_line))]
pub fn claim_text(alloc: Global, claim: &ClaimLine) -> Result<Rows<u8>, NoMemory>
    ensures { IfOk result (λ t. t ≡ claim_line claim.now) }
{
    let text = match claim {
        ClaimLine::Rate(rate) => accepted_rate(alloc, CertificateKind::Throughput, *rate)?,
        ClaimLine::Points { number, limit } => accepted_points(alloc, *number, *limit)?,
        ClaimLine::Worst(rate) => accepted_rate(alloc, CertificateKind::Scenario, *rate)?,
    };
    Ok(bytes_of(text))
}

#[tactic(auto, unfolding(crate::specs::ClaimTexts::accepted_rate))]
fn accepted_rate(alloc: Global, kind: CertificateKind, rate: Fraction) -> Result<String, AllocError>
    ensures { IfOk result (λ t. string_bytes t ≡ accepted_rate kind rate) }
{
    let kind = kind.word();
    let num = rate.num();
    let den = rate.den();
    format!(in alloc; "accepted {kind} {num}/{den}\n")
}

#[tactic(auto, unfolding(crate::specs::ClaimTexts::accepted_points))]
fn accepted_points(alloc: Global, number: u64, limit: u64) -> Result<String, AllocError>
    ensures { IfOk result (λ t. string_bytes t ≡ accepted_points number limit) }
{
    format!(in alloc; "accepted storage {number} points within {limit}\n")
}

/// The text of a certificate that is converted: `converted` and its kind.
#[tactic(auto, unfolding(crate::specs::ClaimTexts::converted_line))]
pub fn converted_text(alloc: Global, kind: CertificateKind) -> Result<Rows<u8>, NoMemory>
    ensures { IfOk result (λ t. t ≡ converted_line kind) }
{
    let kind = kind.word();
    let text = format!(in alloc; "converted {kind}\n")?;
    Ok(bytes_of(text))
}
