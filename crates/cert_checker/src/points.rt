//! The lines of points.
ghost use Rattle.std.specs.Prelude.{◌≡◌, ◌↔◌, ℕ, ◌*◌, ◌≤◌, ◌<◌, All, List, IfOk, IsTrue, length};
ghost use Rattle.sd_base.specs.declared.limits.TheConstants.{STORAGE};
ghost use Rattle.storage.specs.Distributions.{storage_of};
ghost use Rattle.cert_text.specs.declared.certificates.PointLine.{PointLine};
ghost use Rattle.cert_text.specs.Spellable.{AreStarts};
ghost use Rattle.cert_checker.specs.ShownChannels.{IsWithin, capacities_at};
ghost use Rattle.cert_checker.specs.StorageCertificates.{AreBelow, HasRate, IsFileNet, IsPointOf, IsPointRight, IsScheduleRight, point_at};
ghost use Rattle.cert_checker.specs.StorageFaults.{IsPointFault, IsScheduleFault};
ghost use Rattle.cert_checker.specs.inside.BelowPoints.{IsMemberBelow};
ghost use Rattle.cert_checker.specs.inside.Bests.{AreBestRates};
ghost use Rattle.cert_checker.specs.inside.FirstFaults.{Judges};

use crate::best_rates::BestRates;
use crate::fault::Fault;
use crate::schedules::{first_faulty, is_schedule_line};
use crate::verdict::Reason;
use cert_text::{MemberLine, MemberShown, PointLine, StorageCertificate};
use firing::Firing;
use sd_base::NoMemory;
use std::alloc::Global;
use storage::Bounded;

/// Whether each member with a rate has a point of no more storage and no less rate. Cost: the points and the members, each
/// times the logarithm of the points.
pub(crate) fn are_below<F: Firing>(
    alloc: Global,
    net: &F,
    certificate: &StorageCertificate,
) -> Result<bool, NoMemory>
    requires limit { certificate.now.limit ≤ STORAGE }
    requires within { (i : ℕ) → i < length certificate.now.members → IsWithin (F.net net.now) certificate.now.limit (capacities_at certificate.now.members i) }
    ensures { IfOk result (λ b. IsTrue b ↔ AreBelow (F.net net.now) certificate.now) }
{
    let best = BestRates::of(alloc, certificate.points.as_slice())?;
    for member in certificate.members.as_slice() {
        if !is_member_below(net, certificate.limit, &best, member) {
            return Ok(false);
        }
    }
    Ok(true)
}

/// Whether a member has no rate, or a point of no more storage and no less rate.
fn is_member_below<F: Firing>(net: &F, limit: u64, best: &BestRates, member: &MemberLine) -> bool
    requires limit { limit ≤ STORAGE }
    requires within { IsWithin (F.net net.now) limit member.now.capacities.capacities }
    ensures { (points : List PointLine) → AreBestRates points best.now → IsTrue result ↔ IsMemberBelow (F.net net.now) points member.now }
{
    match &member.shown {
        MemberShown::Cycle { rate, .. } => best.has(member.capacities.total(net), *rate),
        MemberShown::Blocked { .. } => true,
    }
}

/// The first fault of a point, by how many lines it stands after the point's first one.
pub(crate) fn point_fault<F: Firing>(
    alloc: Global,
    net: &F,
    certificate: &StorageCertificate,
    number: usize,
) -> Result<Option<Fault>, NoMemory>
    requires file { IsFileNet (F.net net.now) }
    requires limit { certificate.now.limit ≤ STORAGE }
    requires within { (i : ℕ) → i < length certificate.now.members → IsWithin (F.net net.now) certificate.now.limit (capacities_at certificate.now.members i) }
    requires number { number < length certificate.now.points }
    requires early { All AreStarts (point_at certificate.now.points number).schedule.starts }
    ensures { IfOk result (Judges (IsPointFault (F.net net.now) certificate.now number) (IsPointRight (F.net net.now) certificate.now number)) }
{
    if !is_point(net, certificate, number) {
        return Ok(Some(Fault {
            line: 0,
            reason: Reason::Point,
        }));
    }
    let point = &certificate.points.as_slice()[number];
    let member = &certificate.members.as_slice()[point.member as usize];
    let bounded = Bounded::new(alloc, net, &member.capacities)?;
    Ok(schedule_fault(&bounded, point))
}

/// Whether a point has the storage and the rate of its member, both greater than those of the point before it.
fn is_point<F: Firing>(net: &F, certificate: &StorageCertificate, number: usize) -> bool
    requires limit { certificate.now.limit ≤ STORAGE }
    requires within { (i : ℕ) → i < length certificate.now.members → IsWithin (F.net net.now) certificate.now.limit (capacities_at certificate.now.members i) }
    requires number { number < length certificate.now.points }
    ensures { IsTrue result ↔ IsPointOf (F.net net.now) certificate.now number }
{
    let points = certificate.points.as_slice();
    let members = certificate.members.as_slice();
    let point = &points[number];
    if point.member >= members.len() as u64 {
        return false;
    }
    is_of_member(
        net,
        certificate.limit,
        &members[point.member as usize],
        point,
    ) && (number == 0 || is_greater(&points[number - 1], point))
}

/// Whether a point has the storage and the rate of a member.
fn is_of_member<F: Firing>(net: &F, limit: u64, member: &MemberLine, point: &PointLine) -> bool
    requires limit { limit ≤ STORAGE }
    requires within { IsWithin (F.net net.now) limit member.now.capacities.capacities }
    ensures { IsTrue result ↔ ((point.now.total ≡ storage_of (F.net net.now).channels member.now.capacities.capacities) × HasRate member.now.shown point.now.rate) }
{
    point.total == member.capacities.total(net) && has_rate(&member.shown, point.rate)
}

fn has_rate(shown: &MemberShown, other: (u64, u64)) -> bool
    ensures { IsTrue result ↔ HasRate shown.now other }
{
    match shown {
        MemberShown::Cycle { rate, .. } => rate.0 == other.0 && rate.1 == other.1,
        MemberShown::Blocked { .. } => false,
    }
}

/// Whether both the storage and the rate of a point are greater than those of another one.
fn is_greater(first: &PointLine, second: &PointLine) -> bool
    ensures { IsTrue result ↔ ((first.now.total < second.now.total) × (first.now.rate.0 * second.now.rate.1 < second.now.rate.0 * first.now.rate.1)) }
{
    first.total < second.total
        && (first.rate.0 as u128 * second.rate.1 as u128)
            < (second.rate.0 as u128 * first.rate.1 as u128)
}

/// The first fault of the schedule of a point on its bounded net.
fn schedule_fault<F: Firing>(net: &F, point: &PointLine) -> Option<Fault>
    requires early { All AreStarts point.now.schedule.starts }
    ensures { Judges (IsScheduleFault (F.net net.now) point.now) (IsScheduleRight (F.net net.now) point.now) result }
{
    if !is_schedule_line(net, point.rate, &point.schedule) {
        return Some(Fault {
            line: 1,
            reason: Reason::Schedule,
        });
    }
    match first_faulty(net, &point.schedule) {
        Some(actor) => Some(Fault {
            line: 2 + u64::from(actor),
            reason: Reason::Schedule,
        }),
        None => None,
    }
}
