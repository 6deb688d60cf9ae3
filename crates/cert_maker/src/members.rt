//! The lines of members.
ghost use Rattle.std.specs.Prelude.{◌≡◌, ◌<◌, ◌≤◌, IfOk, OnOk, All, Some, length, slice_get};
ghost use Rattle.std.specs.List.{AllZip};
ghost use Rattle.sd_base.specs.declared.limits.TheConstants.{STORAGE};
ghost use Rattle.critical.specs.declared.cycle.CycleStep.{CycleStep as AStep};
ghost use Rattle.storage.specs.BoundedNets.{bound};
ghost use Rattle.storage.specs.Distributions.{IsDistribution, storage_of};
ghost use Rattle.explore.specs.Reachable.{IsExplorable};
ghost use Rattle.cert_text.specs.Orderly.{Differ, used_by};
ghost use Rattle.cert_text.specs.Spellable.{IsCycleText};
ghost use Rattle.cert_maker.specs.Links.{HasNoOrders, link_cycle};
ghost use Rattle.cert_maker.specs.StorageCertificates.{IsMemberLine, IsShownBy};
ghost use Rattle.cert_maker.specs.inside.Lines.{HasLine, HasText, AddsCycles};
ghost use Rattle.cert_maker.specs.inside.Listing.{IsEntered};

use crate::links::linked;
use crate::listing::Cycles;
use cert_text::{LinkCycle, MemberLine, MemberShown};
use critical::NeedCycle;
use explore::{Member, Shown};
use firing::{Firing, know_laws};
use sd_base::{Fraction, NoMemory};
use std::alloc::Global;
use storage::{Bounded, Distribution};

/// The lines of members, and the cycles that they show, each once.
pub(crate) struct Listed {
    pub(crate) cycles: Vec<LinkCycle>,
    pub(crate) lines: Vec<MemberLine>,
}

/// Lists members and their cycles.
pub(crate) fn list<F: Firing>(
    alloc: Global,
    net: &F,
    members: Vec<Member>,
) -> Result<Listed, NoMemory>
    requires net { IsExplorable (F.net net.now) }
    requires unordered { HasNoOrders (F.net net.now) }
    requires members { All (HasLine (F.net net.now)) members.items }
    ensures lines { IfOk result (λ l. AllZip (IsMemberLine (F.net net.now) l.cycles.items) members.items l.lines.items) }
    ensures differ { IfOk result (λ l. Differ l.cycles.items) }
    ensures used { IfOk result (λ l. used_by 0 l.lines.items ≡ Some (length l.cycles.items)) }
    ensures text { IfOk result (λ l. All IsCycleText l.cycles.items) }
{
    let mut cycles = Cycles::new(alloc);
    let mut lines = Vec::new(alloc);
    for member in members {
        lines.push(line_of(alloc, net, member, &mut cycles)?)?;
    }
    let cycles = cycles.into_vec(alloc)?;
    Ok(Listed { cycles, lines })
}

/// The line of a member, whose cycle is entered.
fn line_of<F: Firing>(
    alloc: Global,
    net: &F,
    member: Member,
    cycles: &mut Cycles,
) -> Result<MemberLine, NoMemory>
    requires net { IsExplorable (F.net net.now) }
    requires unordered { HasNoOrders (F.net net.now) }
    requires member { HasLine (F.net net.now) member }
    ensures line { IfOk result (IsMemberLine (F.net net.now) cycles.new member) }
    ensures next { IfOk result (λ line. AddsCycles cycles.old cycles.new line.shown) }
{
    let Member {
        capacities,
        rate,
        shown,
    } = member;
    let shown = shown_by(alloc, net, &capacities, rate, shown, cycles)?;
    Ok(MemberLine { capacities, shown })
}

/// What a line shows of a member.
fn shown_by<F: Firing>(
    alloc: Global,
    net: &F,
    capacities: &Distribution,
    rate: Fraction,
    shown: Shown,
    cycles: &mut Cycles,
) -> Result<MemberShown, NoMemory>
    requires net { IsExplorable (F.net net.now) }
    requires unordered { HasNoOrders (F.net net.now) }
    requires distribution { IsDistribution (F.net net.now).channels capacities.now.capacities }
    requires small { storage_of (F.net net.now).channels capacities.now.capacities ≤ STORAGE }
    requires text { HasText (bound (F.net net.now) capacities.now.capacities) shown }
    ensures shown { IfOk result (IsShownBy (bound (F.net net.now) capacities.now.capacities) cycles.new rate shown) }
    ensures next { IfOk result (AddsCycles cycles.old cycles.new) }
{
    match shown {
        Shown::Cycle(cycle) => {
            let number = number_of(alloc, net, capacities, &cycle, cycles)?;
            Ok(MemberShown::Cycle {
                rate: (rate.num(), rate.den()),
                cycle: number as u64,
            })
        }
        Shown::Blocked { counts } => Ok(MemberShown::Blocked { counts }),
    }
}

/// Enters a need cycle of a bounded net, and gives its number.
fn number_of<F: Firing>(
    alloc: Global,
    net: &F,
    capacities: &Distribution,
    cycle: &NeedCycle,
    cycles: &mut Cycles,
) -> Result<usize, NoMemory>
    requires net { IsExplorable (F.net net.now) }
    requires unordered { HasNoOrders (F.net net.now) }
    requires distribution { IsDistribution (F.net net.now).channels capacities.now.capacities }
    requires small { storage_of (F.net net.now).channels capacities.now.capacities ≤ STORAGE }
    requires channels { All (λ (s : AStep). s.channel < length (bound (F.net net.now) capacities.now.capacities).channels) cycle.now.steps }
    ensures there { IfOk result (λ i. slice_get cycles.new i ≡ Some (link_cycle (bound (F.net net.now) capacities.now.capacities) cycle.now)) }
    ensures once { IfOk result (λ i. IsEntered cycles.old (link_cycle (bound (F.net net.now) capacities.now.capacities) cycle.now) i cycles.new) }
    ensures text { OnOk result (IsCycleText (link_cycle (bound (F.net net.now) capacities.now.capacities) cycle.now)) }
{
    know_laws(net);
    let bounded = Bounded::new(alloc, net, capacities)?;
    let linked = linked(alloc, &bounded, cycle)?;
    cycles.enter(linked)
}
