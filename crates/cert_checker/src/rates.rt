//! Certificates of rates.
ghost use Rattle.std.specs.Prelude.{◌≡◌, ◌≤◌, ◌^◌, ◌<◌, IfOk, length, sum};
ghost use Rattle.sd_base.specs.declared.limits.TheConstants.{ROUND};
ghost use Rattle.sd_base.specs.Net.{IsRepetitionOf};
ghost use Rattle.sd_base.specs.Tables.{IsTimed, KeepsRules};
ghost use Rattle.cert_text.specs.Spellable.{IsRateSpellable};
ghost use Rattle.cert_checker.specs.Verdicts.{IsVerdict};
ghost use Rattle.cert_checker.specs.RateCertificates.{IsLineFault, IsRateClaim, IsRateFault, net_by};

use crate::buffers::{are_buffers, distribution_of};
use crate::cycles::is_cycle_line;
use crate::joins::is_joined;
use crate::laws::rate_is_shown;
use crate::schedules::{first_faulty, is_rate_line, is_schedule_line};
use crate::verdict::{Claim, Reason, Verdict};
use cert_text::RateCertificate;
use firing::{CsdfNet, Firing, know_laws};
use sd_base::{Fraction, GraphFile, NoMemory};
use std::alloc::Global;
use storage::Bounded;

/// Whether the certificate of a rate is valid for a graph with its repetition vector: the buffers belong to channels; with
/// them the graph is connected; the schedule holds on the net and reaches the rate; and the need cycle bounds it. Cost: the
/// steps of the cycle times the channels, and the starts times the channels into their actors times the phases.
pub fn check_rate(
    alloc: Global,
    graph: &GraphFile,
    gamma: &[u64],
    certificate: &RateCertificate,
) -> Result<Verdict, NoMemory>
    requires rules { KeepsRules graph.now }
    requires timed { IsTimed graph.now }
    requires gamma { IsRepetitionOf graph.now gamma.now }
    requires small { sum gamma.now ≤ ROUND }
    requires spellable { IsRateSpellable certificate.now }
    ensures { IfOk result (IsVerdict (IsRateFault graph.now gamma.now certificate.now) (IsRateClaim (net_by graph.now gamma.now certificate.now) certificate.now)) }
{
    if !are_buffers(graph.channels.as_slice(), certificate.buffers.as_slice()) {
        return Ok(Verdict::Rejected {
            line: 4,
            reason: Reason::Buffers,
        });
    }
    let net = CsdfNet::new(alloc, graph, gamma, certificate.no_overlap)?;
    let distribution = distribution_of(
        alloc,
        graph.channels.len(),
        certificate.buffers.as_slice(),
    )?;
    let bounded = Bounded::new(alloc, &net, &distribution)?;
    check_lines(alloc, &bounded, certificate)
}

/// The verdict on a certificate whose buffers the net has.
fn check_lines<F: Firing>(
    alloc: Global,
    net: &F,
    certificate: &RateCertificate,
) -> Result<Verdict, NoMemory>
    requires spellable { IsRateSpellable certificate.now }
    ensures { IfOk result (IsVerdict (IsLineFault (F.net net.now) certificate.now) (IsRateClaim (F.net net.now) certificate.now)) }
{
    know_laws(net);
    rate_is_shown();
    if !is_joined(alloc, net)? {
        return Ok(Verdict::Rejected {
            line: 2,
            reason: Reason::Connection,
        });
    }
    if !is_rate_line(certificate.rate) {
        return Ok(Verdict::Rejected {
            line: 5,
            reason: Reason::Rate,
        });
    }
    if !is_schedule_line(net, certificate.rate, &certificate.schedule) {
        return Ok(Verdict::Rejected {
            line: 6,
            reason: Reason::Schedule,
        });
    }
    if let Some(actor) = first_faulty(net, &certificate.schedule) {
        let line = 7 + u64::from(actor);
        return Ok(Verdict::Rejected {
            line,
            reason: Reason::Schedule,
        });
    }
    if !is_cycle_line(alloc, net, certificate.rate, &certificate.cycle)? {
        let line = 7 + u64::from(net.actors());
        return Ok(Verdict::Rejected {
            line,
            reason: Reason::Cycle,
        });
    }
    let rate = Fraction::new(certificate.rate.0, certificate.rate.1);
    Ok(Verdict::Accepted(Claim::Rate(rate)))
}
