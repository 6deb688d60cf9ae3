//! Members with a step more room than others.
ghost use Rattle.std.specs.Prelude.{◌≡◌, ◌↔◌, ◌⊎◌, ℕ, ◌≤◌, ◌<◌, true, List, Option, Some, IfOk, OnOk, MatchOption, length};
ghost use Rattle.sd_base.specs.declared.limits.TheConstants.{STORAGE};
ghost use Rattle.storage.specs.Distributions.{storage_of};
ghost use Rattle.storage.specs.StorageOrder.{stepped};
ghost use Rattle.cert_checker.specs.ShownChannels.{IsWithin, Shows};
ghost use Rattle.cert_checker.specs.inside.KnownSets.{AreChildren, AreMembers, IsChild, number_of};
ghost use Rattle.cert_checker.specs.inside.Marks.{mark_at};
ghost use Rattle.cert_checker.specs.inside.Spaces.{AreSpaces};

use crate::fits::is_within;
use crate::known::Known;
use crate::shown::is_shown;
use crate::spaces::Spaces;
use cert_text::{MemberLine, StorageCertificate};
use firing::{Firing, know_laws};
use sd_base::NoMemory;
use std::alloc::Global;
use storage::{Distribution, step};

/// By the number of a member whether its distribution has a step more room than some member on a channel that this shows. Of
/// members with one distribution that one is marked that is known by it. No distribution with more room is kept. Cost: for
/// each member the channels that it shows, times a search among the members.
pub(crate) fn children_of<F: Firing>(
    alloc: Global,
    net: &F,
    certificate: &StorageCertificate,
    spaces: &Spaces,
    members: &Known,
) -> Result<Vec<bool>, NoMemory>
    requires limit { certificate.now.limit ≤ STORAGE }
    requires spaces { AreSpaces certificate.now.cycles spaces.now }
    requires members { AreMembers certificate.now.members members.now }
    ensures { IfOk result (λ marks. AreChildren (F.net net.now) certificate.now members.now marks.items) }
{
    let mut marks = vec![in alloc; false; certificate.members.len()]?;
    for member in certificate.members.as_slice() {
        if is_within(net, certificate.limit, &member.capacities) {
            mark_children(alloc, net, certificate, spaces, member, members, &mut marks)?;
        }
    }
    Ok(marks)
}

/// Marks the members with a step more room than a member on a channel that it shows.
fn mark_children<F: Firing>(
    alloc: Global,
    net: &F,
    certificate: &StorageCertificate,
    spaces: &Spaces,
    member: &MemberLine,
    members: &Known,
    marks: &mut Vec<bool>,
) -> Result<(), NoMemory>
    requires limit { certificate.now.limit ≤ STORAGE }
    requires spaces { AreSpaces certificate.now.cycles spaces.now }
    requires members { AreMembers certificate.now.members members.now }
    requires size { length marks.old.items ≡ length certificate.now.members }
    requires within { IsWithin (F.net net.now) certificate.now.limit member.now.capacities.capacities }
    ensures size { length marks.new.items ≡ length certificate.now.members }
    ensures marked { OnOk result ((ds : List (Option ℕ)) (i : ℕ) → number_of members.now ds ≡ Some i →
        (mark_at marks.new.items i ≡ true) ↔ ((mark_at marks.old.items i ≡ true) ⊎ IsChild (F.net net.now) certificate.now member.now (length (F.net net.now).channels) ds)) }
{
    for channel in 0..net.channels() {
        if let Some(child) = child_on(alloc, net, certificate, spaces, member, channel)? {
            mark(members, &child, marks);
        }
    }
    Ok(())
}

/// Marks the member that is known by a distribution, if there is one.
fn mark(members: &Known, child: &Distribution, marks: &mut Vec<bool>)
    requires { (i : ℕ) → number_of members.now child.now.capacities ≡ Some i → i < length marks.old.items }
    ensures size { length marks.new.items ≡ length marks.old.items }
    ensures marked { (i : ℕ) → (mark_at marks.new.items i ≡ true) ↔ ((mark_at marks.old.items i ≡ true) ⊎ (number_of members.now child.now.capacities ≡ Some i)) }
{
    if let Some(number) = members.number_of(child) {
        marks[number] = true;
    }
}

/// A member with a step more room on a channel, if it shows that and the limit allows it.
pub(crate) fn child_on<F: Firing>(
    alloc: Global,
    net: &F,
    certificate: &StorageCertificate,
    spaces: &Spaces,
    member: &MemberLine,
    channel: u32,
) -> Result<Option<Distribution>, NoMemory>
    requires limit { certificate.now.limit ≤ STORAGE }
    requires spaces { AreSpaces certificate.now.cycles spaces.now }
    requires within { IsWithin (F.net net.now) certificate.now.limit member.now.capacities.capacities }
    requires channel { channel < length (F.net net.now).channels }
    ensures { IfOk result (λ o. MatchOption o (Shows (F.net net.now) certificate.now.limit certificate.now.cycles member.now channel → certificate.now.limit < storage_of (F.net net.now).channels (stepped (F.net net.now).channels member.now.capacities.capacities channel))
        (λ d. Shows (F.net net.now) certificate.now.limit certificate.now.cycles member.now channel × (d.capacities ≡ stepped (F.net net.now).channels member.now.capacities.capacities channel)
        × (storage_of (F.net net.now).channels (stepped (F.net net.now).channels member.now.capacities.capacities channel) ≤ certificate.now.limit))) }
{
    know_laws(net);
    if !is_shown(net, spaces, member, channel) {
        return Ok(None);
    }
    let child = member
        .capacities
        .enlarge(alloc, channel, step(net, channel))?;
    match child.total_within(net, certificate.limit) {
        Some(_) => Ok(Some(child)),
        None => Ok(None),
    }
}
