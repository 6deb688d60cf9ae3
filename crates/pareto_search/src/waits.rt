//! The channels on which evaluations bound.
ghost use Rattle.std.specs.Prelude.{◌≡◌, ◌<◌, ℕ, All, Contains, IfOk, List, Ok, OnOk, Option, length, slice_index};
ghost use Rattle.sd_base.specs.declared.numbers.Fraction.{Fraction as AFraction};
ghost use Rattle.sd_base.specs.Untimed.{IsBlockedBy};
ghost use Rattle.storage.specs.BoundedNets.{bound};
ghost use Rattle.storage.specs.ShownSpaces.{ShowsSpace};
ghost use Rattle.circular_waits.specs.CircularWaits.{WaitsForSpace};
ghost use Rattle.guide.specs.Evaluations.{IsEvaluable};
ghost use Rattle.evaluations.specs.Evaluating.{IsEvaluation};
ghost use Rattle.covers.specs.Lattices.{IsAmong};
ghost use Rattle.pareto_search.specs.inside.Grounds.{IsGround};
ghost use Rattle.pareto_search.specs.inside.Knowledge.{BoundsOn};
ghost use Rattle.pareto_search.specs.inside.Vectors.{bounded_by, vector_of};
ghost use Rattle.pareto_search.specs.inside.Waits.{AddsSpace, StopsAll};

use crate::evaluating::Ground;
use circular_waits::circular_wait;
use circular_waits::laws::circular_waits_stop_all;
use evaluations::{Rated, Shown};
use firing::{Firing, Wired, know_laws};
use liveness::{Ending, finish_round};
use sd_base::{NoMemory, Role, Rows};
use std::alloc::Global;
use storage::{Bounded, Distribution};

/// Of the channels that an evaluation shows those on which it bounds: all where a need cycle shows them, and where counts do
/// that block the bounded net, those whose free space is on one circular wait. Cost: linear in the actors and channels.
pub(crate) fn bounding_of<F: Firing>(
    base: &Ground<F>,
    capacities: &Distribution,
    rated: &Rated,
) -> Result<Rows<u32>, NoMemory>
    requires stands { IsGround (F.net base.now.exploring.now.net.now) base.now.exploring.now.limits base.now.corner.now.capacities base.now.lattice.now }
    requires among { IsAmong base.now.lattice.now (vector_of capacities.now.capacities) }
    requires flat { bounded_by base.now.corner.now.capacities (vector_of capacities.now.capacities) ≡ capacities.now.capacities }
    requires evaluated { (best : AFraction) × IsEvaluation (F.net base.now.exploring.now.net.now) base.now.exploring.now.limits.states best capacities.now (Ok rated.now) }
    ensures shown { IfOk result (λ v. All (Contains rated.now.enlarge) v) }
    ensures bounds { IfOk result (λ v. BoundsOn (F.net base.now.exploring.now.net.now) base.now.corner.now.capacities base.now.lattice.now (vector_of capacities.now.capacities) rated.now.rate v) }
{
    match &rated.shown {
        Shown::Cycle(_) => copy_of(base.exploring.alloc, &rated.enlarge),
        Shown::Blocked { counts } => waiting_spaces(base, capacities, counts.as_slice()),
    }
}

/// The same channels. Cost: linear in them.
fn copy_of(alloc: Global, channels: &Rows<u32>) -> Result<Rows<u32>, NoMemory>
    ensures { IfOk result (λ v. v ≡ channels.now) }
{
    let copy = Vec::from_slice(alloc, channels.as_slice())?;
    Ok(Rows::from_vec(copy))
}

/// The channels whose free space is on a circular wait of the net that a distribution bounds, given counts that block it: no
/// distribution with no more room on these has a rate above 0. Cost: linear in the actors and channels.
fn waiting_spaces<F: Firing>(
    base: &Ground<F>,
    capacities: &Distribution,
    counts: &[u64],
) -> Result<Rows<u32>, NoMemory>
    requires fits { IsEvaluable (F.net base.now.exploring.now.net.now) capacities.now.capacities }
    requires blocked { (lacks : List (Option ℕ)) × IsBlockedBy (bound (F.net base.now.exploring.now.net.now) capacities.now.capacities) counts.now lacks }
    ensures shown { IfOk result (λ v. All (ShowsSpace (F.net base.now.exploring.now.net.now) capacities.now.capacities (slice_index counts.now)) v) }
    ensures stops { IfOk result (λ v. StopsAll (F.net base.now.exploring.now.net.now) capacities.now.capacities v) }
{
    circular_waits_stop_all();
    let alloc = base.exploring.alloc;
    let bounded = Bounded::new(alloc, base.exploring.net, capacities)?;
    know_laws(&bounded);
    let wired = Wired {
        net: &bounded,
        wiring: base.exploring.wiring,
    };
    match finish_round(alloc, &wired, counts)? {
        Ending::Whole => unreachable!(),
        Ending::Blocked {
            counts: ending,
            lacks,
        } => {
            let channels = circular_wait(alloc, &bounded, ending.as_slice(), lacks.as_slice())?;
            spaces_among(alloc, &bounded, channels.as_slice())
        }
    }
}

/// The channels of the file whose free spaces are among the channels of a net. Cost: linear in these.
fn spaces_among<F: Firing>(alloc: Global, net: &F, channels: &[u32]) -> Result<Rows<u32>, NoMemory>
    requires { (j : ℕ) → j < length channels.now → slice_index channels.now j < length (F.net net.now).channels }
    ensures each { IfOk result (λ v. All (WaitsForSpace (F.net net.now) channels.now) v) }
    ensures all { IfOk result (λ v. (c : ℕ) → WaitsForSpace (F.net net.now) channels.now c → Contains v c) }
{
    know_laws(net);
    let mut spaces = Rows::new(alloc);
    for channel in channels {
        add_space(&mut spaces, net.role(*channel))?;
    }
    Ok(spaces)
}

/// Puts the number of a free space at the end of a list, and nothing for another channel.
fn add_space(spaces: &mut Rows<u32>, role: Role) -> Result<(), NoMemory>
    ensures { OnOk result (AddsSpace spaces.old spaces.new role) }
{
    match role {
        Role::Space(channel) => {
            spaces.push(channel)?;
            Ok(())
        }
        Role::Token(_) | Role::Own(_) | Role::Order(_, _) => Ok(()),
    }
}
