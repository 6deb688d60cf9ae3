//! Certificates of trade-offs between storage and rate.
ghost use Rattle.std.specs.Prelude.{◌≡◌, ◌↔◌, ◌≤◌, ◌<◌, ◌^◌, IfOk, IsTrue, length, sum};
ghost use Rattle.sd_base.specs.declared.limits.TheConstants.{ROUND, STORAGE};
ghost use Rattle.sd_base.specs.Connection.{AreConnected, graph_ends};
ghost use Rattle.sd_base.specs.FileNet.{net_of};
ghost use Rattle.sd_base.specs.Net.{IsRepetitionOf};
ghost use Rattle.sd_base.specs.Tables.{IsTimed, KeepsRules};
ghost use Rattle.storage.specs.Steps.{IsCorner};
ghost use Rattle.cert_text.specs.Orderly.{IsStorageOrderly, NameOnes};
ghost use Rattle.cert_text.specs.Spellable.{IsStorageSpellable};
ghost use Rattle.cert_checker.specs.StorageLines.{end_line, member_line, members_line, point_line, points_line};
ghost use Rattle.cert_checker.specs.StorageCertificates.{BeginsAtCorner, IsFileNet, IsFrontClaim};
ghost use Rattle.cert_checker.specs.StorageFaults.{IsStorageFault, IsTradeOffFault};
ghost use Rattle.cert_checker.specs.Verdicts.{IsToldVerdict, IsVerdict};
ghost use Rattle.cert_checker.specs.declared.verdict.Verdict.TheVariants.{Rejected};
ghost use Rattle.cert_checker.specs.inside.FirstFaults.{AreMembersRight, ArePointsRight, IsFaultOfMembers, IsFaultOfPoints, JudgesTold, kept_number};

use crate::fault::Fault;
use crate::incident::are_incident;
use crate::laws::trade_off_is_shown;
use crate::listed::listed_of;
use crate::members::member_fault;
use crate::points::{are_below, point_fault};
use crate::sizes::{cycles_size, member_size, point_size};
use crate::verdict::{Claim, Reason, Verdict};
use cert_text::StorageCertificate;
use firing::{CsdfNet, Firing, know_laws};
use sd_base::limits::STORAGE;
use sd_base::{GraphFile, NoMemory};
use std::alloc::Global;
use storage::{Distribution, corner};

/// Whether the certificate of a trade-off is valid for a connected graph with its repetition vector: the members begin at the
/// corner, are in order, and with each one those with a step more room on a channel that it shows are among them; a need cycle
/// or counts bound the rate of each; and the points are members whose schedules reach their rates, and cover the others. Cost:
/// for each member the channels and the steps of its cycle, times the logarithm of the members and the channels, and the
/// channels times those that it shows; the points with their starts.
pub fn check_storage(
    alloc: Global,
    graph: &GraphFile,
    gamma: &[u64],
    certificate: &StorageCertificate,
    version: u32,
) -> Result<Verdict, NoMemory>
    requires rules { KeepsRules graph.now }
    requires timed { IsTimed graph.now }
    requires connected { AreConnected (length graph.now.actors) (graph_ends graph.now) }
    requires gamma { IsRepetitionOf graph.now gamma.now }
    requires small { sum gamma.now ≤ ROUND }
    requires spellable { IsStorageSpellable certificate.now }
    requires orderly { IsStorageOrderly certificate.now }
    ensures told { IfOk result (IsToldVerdict (IsStorageFault graph.now gamma.now version certificate.now) (IsFrontClaim (net_of graph.now gamma.now certificate.now.no_overlap) certificate.now)) }
    ensures exact { end_line version certificate.now < 2 ^ 64 → IfOk result (IsVerdict (IsStorageFault graph.now gamma.now version certificate.now) (IsFrontClaim (net_of graph.now gamma.now certificate.now.no_overlap) certificate.now)) }
{
    let net = CsdfNet::new(alloc, graph, gamma, certificate.no_overlap)?;
    check_trade_off(alloc, &net, certificate, version)
}

/// The verdict on a certificate for the net of a graph.
fn check_trade_off<F: Firing>(
    alloc: Global,
    net: &F,
    certificate: &StorageCertificate,
    version: u32,
) -> Result<Verdict, NoMemory>
    requires file { IsFileNet (F.net net.now) }
    requires spellable { IsStorageSpellable certificate.now }
    requires orderly { NameOnes (length certificate.now.cycles) certificate.now.members }
    ensures { IfOk result (IsToldVerdict (IsTradeOffFault (F.net net.now) version certificate.now) (IsFrontClaim (F.net net.now) certificate.now)) }
{
    know_laws(net);
    trade_off_is_shown();
    if !are_incident(net) {
        return Ok(rejected(2, Reason::Connection));
    }
    if certificate.limit > STORAGE {
        return Ok(rejected(4, Reason::Limit));
    }
    let corner = corner(alloc, net)?;
    let line = members_line(version, certificate);
    if !begins_at(net, &corner, certificate) {
        return Ok(rejected(line, Reason::Member));
    }
    if let Some(fault) = members_fault(alloc, net, version, certificate, line.saturating_add(1))? {
        return Ok(rejected(fault.line, fault.reason));
    }
    let line = points_line(version, certificate, line);
    if !are_below(alloc, net, certificate)? {
        return Ok(rejected(line, Reason::Point));
    }
    if let Some(fault) = points_fault(alloc, net, version, certificate, line.saturating_add(1))? {
        return Ok(rejected(fault.line, fault.reason));
    }
    Ok(Verdict::Accepted(Claim::Points {
        number: certificate.points.len() as u64,
        limit: certificate.limit,
    }))
}

/// The line of the number of members.
fn members_line(version: u32, certificate: &StorageCertificate) -> u64
    ensures { result ≡ kept_number (members_line version certificate.now) }
{
    cycles_size(version, certificate.cycles.as_slice()).saturating_add(5)
}

fn rejected(line: u64, reason: Reason) -> Verdict
    ensures { result ≡ Rejected line reason }
{
    Verdict::Rejected { line, reason }
}

/// Whether there is no member where the corner needs more than the limit, and else it is the first one.
fn begins_at<F: Firing>(net: &F, corner: &Distribution, certificate: &StorageCertificate) -> bool
    requires corner { IsCorner (F.net net.now).channels corner.now.capacities }
    ensures { IsTrue result ↔ BeginsAtCorner (F.net net.now) certificate.now }
{
    let members = certificate.members.as_slice();
    match corner.total_within(net, certificate.limit) {
        Some(_) => !members.is_empty() && members[0].capacities == *corner,
        None => members.is_empty(),
    }
}

/// The first fault of the members, of which the first one stands at a line.
fn members_fault<F: Firing>(
    alloc: Global,
    net: &F,
    version: u32,
    certificate: &StorageCertificate,
    first_line: u64,
) -> Result<Option<Fault>, NoMemory>
    requires file { IsFileNet (F.net net.now) }
    requires limit { certificate.now.limit ≤ STORAGE }
    requires orderly { NameOnes (length certificate.now.cycles) certificate.now.members }
    requires first { first_line ≡ kept_number (member_line version certificate.now 0) }
    ensures { IfOk result (JudgesTold (IsFaultOfMembers (F.net net.now) version certificate.now) (AreMembersRight (F.net net.now) certificate.now)) }
{
    let listed = listed_of(alloc, net, certificate)?;
    let mut line = first_line;
    for number in 0..certificate.members.len() {
        if let Some(fault) = member_fault(alloc, net, version, certificate, &listed, number)? {
            return Ok(Some(Fault {
                line: line.saturating_add(fault.line),
                reason: fault.reason,
            }));
        }
        line = line.saturating_add(member_size(
            version,
            certificate.cycles.as_slice(),
            &certificate.members.as_slice()[number],
        ));
    }
    Ok(None)
}

/// The line of the number of points, by that of the number of members.
fn points_line(version: u32, certificate: &StorageCertificate, before: u64) -> u64
    requires { before ≡ kept_number (members_line version certificate.now) }
    ensures { result ≡ kept_number (points_line version certificate.now) }
{
    let mut line = before.saturating_add(1);
    for member in certificate.members.as_slice() {
        let size = member_size(version, certificate.cycles.as_slice(), member);
        line = line.saturating_add(size);
    }
    line
}

/// The first fault of the points, of which the first one stands at a line.
fn points_fault<F: Firing>(
    alloc: Global,
    net: &F,
    version: u32,
    certificate: &StorageCertificate,
    first_line: u64,
) -> Result<Option<Fault>, NoMemory>
    requires file { IsFileNet (F.net net.now) }
    requires limit { certificate.now.limit ≤ STORAGE }
    requires members { AreMembersRight (F.net net.now) certificate.now }
    requires spellable { IsStorageSpellable certificate.now }
    requires first { first_line ≡ kept_number (point_line version certificate.now 0) }
    ensures { IfOk result (JudgesTold (IsFaultOfPoints (F.net net.now) version certificate.now) (ArePointsRight (F.net net.now) certificate.now)) }
{
    let mut line = first_line;
    for number in 0..certificate.points.len() {
        if let Some(fault) = point_fault(alloc, net, certificate, number)? {
            return Ok(Some(Fault {
                line: line.saturating_add(fault.line),
                reason: fault.reason,
            }));
        }
        line = line.saturating_add(point_size(&certificate.points.as_slice()[number]));
    }
    Ok(None)
}
