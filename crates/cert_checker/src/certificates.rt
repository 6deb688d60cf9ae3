//! Certificates of one graph.
ghost use Rattle.std.specs.Prelude.{◌≡◌, ◌≤◌, IfOk, length, sum};
ghost use Rattle.sd_base.specs.declared.limits.TheConstants.{ROUND};
ghost use Rattle.sd_base.specs.Connection.{AreConnected, graph_ends};
ghost use Rattle.sd_base.specs.Net.{IsRepetitionOf};
ghost use Rattle.sd_base.specs.Tables.{IsTimed, KeepsRules};
ghost use Rattle.cert_text.specs.Orderly.{IsOrderly};
ghost use Rattle.cert_text.specs.Spellable.{IsSpellable};
ghost use Rattle.cert_checker.specs.Certificates.{HasFewLines, IsCertificateClaim, IsCertificateFault, IsOfGraph};
ghost use Rattle.cert_checker.specs.Verdicts.{IsToldVerdict, IsVerdict};

use crate::rates::check_rate;
use crate::trade_offs::check_storage;
use crate::verdict::Verdict;
use cert_text::Certificate;
use sd_base::{GraphFile, NoMemory};
use std::alloc::Global;

/// Whether the certificate of a rate or of a trade-off, listed in a version, is valid for a connected graph with its
/// repetition vector. Cost: that of `check_rate` or `check_storage`.
pub fn check(
    alloc: Global,
    graph: &GraphFile,
    gamma: &[u64],
    certificate: &Certificate,
    version: u32,
) -> Result<Verdict, NoMemory>
    requires rules { KeepsRules graph.now }
    requires timed { IsTimed graph.now }
    requires connected { AreConnected (length graph.now.actors) (graph_ends graph.now) }
    requires gamma { IsRepetitionOf graph.now gamma.now }
    requires small { sum gamma.now ≤ ROUND }
    requires kind { IsOfGraph certificate.now }
    requires spellable { IsSpellable certificate.now }
    requires orderly { IsOrderly certificate.now }
    ensures told { IfOk result (IsToldVerdict (IsCertificateFault graph.now gamma.now version certificate.now) (IsCertificateClaim graph.now gamma.now certificate.now)) }
    ensures exact { HasFewLines version certificate.now → IfOk result (IsVerdict (IsCertificateFault graph.now gamma.now version certificate.now) (IsCertificateClaim graph.now gamma.now certificate.now)) }
{
    match certificate {
        Certificate::Rate(certificate) => check_rate(alloc, graph, gamma, certificate),
        Certificate::Storage(certificate) => {
            check_storage(alloc, graph, gamma, certificate, version)
        }
        Certificate::Scenario(_) => unreachable!(),
    }
}
