//! The lines of members.
ghost use Rattle.std.specs.Prelude.{◌≡◌, ◌↔◌, ◌-◌, ◌≤◌, ◌<◌, IfOk, IsTrue, length};
ghost use Rattle.sd_base.specs.declared.limits.TheConstants.{STORAGE};
ghost use Rattle.storage.specs.StorageOrder.{IsBefore};
ghost use Rattle.cert_text.specs.Orderly.{NameOnes, NamesOneOf};
ghost use Rattle.cert_checker.specs.LinkCycles.{IsCycleLine};
ghost use Rattle.cert_checker.specs.Schedules.{IsRateLine};
ghost use Rattle.cert_checker.specs.ShownChannels.{IsWithin, capacities_at};
ghost use Rattle.cert_checker.specs.StorageCertificates.{AreBlocking, IsClosedAt, IsFileNet, IsInPlace, IsMemberRight, IsShownRight};
ghost use Rattle.cert_checker.specs.StorageFaults.{IsCountsFault, IsCycleFault, IsMemberFault, IsShownFault};
ghost use Rattle.cert_checker.specs.inside.FirstFaults.{Judges};
ghost use Rattle.cert_checker.specs.inside.KnownSets.{IsListing};

use crate::blocking::are_blocking;
use crate::children::child_on;
use crate::cycles::is_cycle_line;
use crate::fault::Fault;
use crate::fits::is_within;
use crate::listed::Listed;
use crate::schedules::is_rate_line;
use crate::verdict::Reason;
use cert_text::{LinkCycle, MemberShown, StorageCertificate};
use firing::Firing;
use sd_base::NoMemory;
use std::alloc::Global;
use storage::{Bounded, Distribution};

/// The first fault of a member, by how many lines it stands after the member's first one.
pub(crate) fn member_fault<F: Firing>(
    alloc: Global,
    net: &F,
    version: u32,
    certificate: &StorageCertificate,
    listed: &Listed,
    number: usize,
) -> Result<Option<Fault>, NoMemory>
    requires file { IsFileNet (F.net net.now) }
    requires limit { certificate.now.limit ≤ STORAGE }
    requires listing { IsListing (F.net net.now) certificate.now listed.now }
    requires orderly { NameOnes (length certificate.now.cycles) certificate.now.members }
    requires number { number < length certificate.now.members }
    requires before { 1 ≤ number → IsWithin (F.net net.now) certificate.now.limit (capacities_at certificate.now.members (number - 1)) }
    ensures { IfOk result (Judges (IsMemberFault (F.net net.now) version certificate.now number) (IsMemberRight (F.net net.now) certificate.now number)) }
{
    if !is_in_place(net, certificate, listed, number) {
        return Ok(Some(Fault {
            line: 0,
            reason: Reason::Member,
        }));
    }
    if !is_closed_at(alloc, net, certificate, listed, number)? {
        return Ok(Some(Fault {
            line: 0,
            reason: Reason::Closure,
        }));
    }
    let member = &certificate.members.as_slice()[number];
    let bounded = Bounded::new(alloc, net, &member.capacities)?;
    shown_fault(
        alloc,
        &bounded,
        version,
        certificate.cycles.as_slice(),
        &member.shown,
    )
}

/// Whether a member is a distribution within the limit, after the one before it, and has a step more room than another one
/// that shows the channel; the first member need not.
fn is_in_place<F: Firing>(
    net: &F,
    certificate: &StorageCertificate,
    listed: &Listed,
    number: usize,
) -> bool
    requires listing { IsListing (F.net net.now) certificate.now listed.now }
    requires number { number < length certificate.now.members }
    requires before { 1 ≤ number → IsWithin (F.net net.now) certificate.now.limit (capacities_at certificate.now.members (number - 1)) }
    ensures { IsTrue result ↔ IsInPlace (F.net net.now) certificate.now number }
{
    let members = certificate.members.as_slice();
    let capacities = &members[number].capacities;
    is_within(net, certificate.limit, capacities)
        && (number == 0
            || (is_before(
                net,
                certificate.limit,
                &members[number - 1].capacities,
                capacities,
            ) && listed.is_child(capacities)))
}

/// Whether the first of two distributions comes before the second one, both within a limit.
fn is_before<F: Firing>(net: &F, limit: u64, first: &Distribution, second: &Distribution) -> bool
    requires first { IsWithin (F.net net.now) limit first.now.capacities }
    requires second { IsWithin (F.net net.now) limit second.now.capacities }
    ensures { IsTrue result ↔ IsBefore (F.net net.now).channels first.now.capacities second.now.capacities }
{
    let before = first.total(net);
    let after = second.total(net);
    before < after || (before == after && !second.is_no_later(first))
}

/// Whether each distribution that has a step more room than a member on a channel that it shows is a member, if the limit
/// allows it.
fn is_closed_at<F: Firing>(
    alloc: Global,
    net: &F,
    certificate: &StorageCertificate,
    listed: &Listed,
    number: usize,
) -> Result<bool, NoMemory>
    requires listing { IsListing (F.net net.now) certificate.now listed.now }
    requires limit { certificate.now.limit ≤ STORAGE }
    requires number { number < length certificate.now.members }
    requires within { IsWithin (F.net net.now) certificate.now.limit (capacities_at certificate.now.members number) }
    ensures { IfOk result (λ b. IsTrue b ↔ IsClosedAt (F.net net.now) certificate.now number) }
{
    let member = &certificate.members.as_slice()[number];
    for channel in 0..net.channels() {
        match child_on(alloc, net, certificate, &listed.spaces, member, channel)? {
            Some(child) => {
                if listed.members.number_of(&child).is_none() {
                    return Ok(false);
                }
            }
            None => {}
        }
    }
    Ok(true)
}

/// The first fault of what a member shows of its bounded net.
fn shown_fault<F: Firing>(
    alloc: Global,
    net: &F,
    version: u32,
    cycles: &[LinkCycle],
    shown: &MemberShown,
) -> Result<Option<Fault>, NoMemory>
    requires named { NamesOneOf (length cycles.now) shown.now }
    ensures { IfOk result (Judges (IsShownFault (F.net net.now) version cycles.now shown.now) (IsShownRight (F.net net.now) cycles.now shown.now)) }
{
    match shown {
        MemberShown::Cycle { rate, cycle } => {
            cycle_fault(alloc, net, version, *rate, &cycles[*cycle as usize])
        }
        MemberShown::Blocked { counts } => Ok(counts_fault(net, counts.as_slice())),
    }
}

fn cycle_fault<F: Firing>(
    alloc: Global,
    net: &F,
    version: u32,
    rate: (u64, u64),
    cycle: &LinkCycle,
) -> Result<Option<Fault>, NoMemory>
    ensures { IfOk result (Judges (IsCycleFault (F.net net.now) version rate cycle.now) (IsRateLine rate × IsCycleLine (F.net net.now) rate cycle.now)) }
{
    if !is_rate_line(rate) {
        return Ok(Some(Fault {
            line: 1,
            reason: Reason::Rate,
        }));
    }
    if !is_cycle_line(alloc, net, rate, cycle)? {
        return Ok(Some(Fault {
            line: if version == 1 { 2 } else { 1 },
            reason: Reason::Cycle,
        }));
    }
    Ok(None)
}

fn counts_fault<F: Firing>(net: &F, counts: &[u64]) -> Option<Fault>
    ensures { Judges (IsCountsFault (F.net net.now) counts.now) (AreBlocking (F.net net.now) counts.now) result }
{
    if are_blocking(net, counts) {
        return None;
    }
    Some(Fault {
        line: 2,
        reason: Reason::Blocked,
    })
}
