//! The evaluation of what walks stopped at.
ghost use Rattle.std.specs.Prelude.{◌≡◌, ◌+◌, ◌<◌, ◌≤◌, ℕ, All, IfOk, IfSome, List, OnErr, length, map};
ghost use Rattle.fanout.specs.JobRuns.{EachEntered};
ghost use Rattle.evaluations.specs.Evaluating.{IsEvaluation, IsVisitable, least_loops, most_loops, sum_of};
ghost use Rattle.pareto_search.specs.inside.Grounds.{IsBase};
ghost use Rattle.pareto_search.specs.inside.Knowledge.{IsTold};
ghost use Rattle.pareto_search.specs.inside.Learning.{answered_of, counts_after, counts_by};
ghost use Rattle.pareto_search.specs.inside.Stops.{IsStop};
ghost use Rattle.pareto_search.specs.inside.Vectors.{bounded_by};

use crate::grid::distribution_of;
use crate::stops::Stop;
use covers::Lattice;
use evaluations::{Answered, Exploring, Starts, Visit, evaluate_all};
use fanout::Gate;
use firing::Firing;
use sd_base::{Fraction, Ledger, NoMemory, Steps};
use std::thread::Threads;
use storage::Distribution;
use walks::Telling;

/// What a search stands on: a net with what its evaluations begin from, its corner, and the lattice of its vectors.
#[derive(Drop)]
pub(crate) struct Ground<'a, F: Firing> {
    pub(crate) exploring: &'a Exploring<'a, F>,
    pub(crate) corner: &'a Distribution,
    pub(crate) lattice: &'a Lattice,
}

/// Evaluates what walks stopped at side by side, and answers in their order; the gate is entered with the level. Loops of rates
/// above `best` are kept.
pub(crate) fn evaluate_stops<R: Threads + Sync, F: Firing + Sync, G: Gate + Sync, L: Ledger + Send>(
    rt: &R,
    base: &Ground<F>,
    tellings: &[Telling],
    stops: &[Stop],
    level: u64,
    best: Fraction,
    gate: &G,
    steps: &mut Steps<L>,
) -> Result<Vec<Answered>, NoMemory>
    requires base { IsBase (F.net base.now.exploring.now.net.now) base.now.exploring.now.limits base.now.corner.now.capacities base.now.lattice.now base.now.exploring.now.starts.now }
    requires told { All (IsTold (F.net base.now.exploring.now.net.now) base.now.exploring.now.limits base.now.corner.now.capacities base.now.lattice.now) tellings.now }
    requires stops { (goals : List (List ℕ)) × All (IsStop (F.net base.now.exploring.now.net.now) base.now.exploring.now.limits base.now.corner.now.capacities base.now.lattice.now tellings.now goals) stops.now }
    ensures answers { IfOk result (λ v. All (λ a. IsEvaluation (F.net base.now.exploring.now.net.now) base.now.exploring.now.limits.states best a.capacities a.answer) v.items) }
    ensures order { IfOk result (λ v. answered_of v.items ≡ map (λ s. bounded_by base.now.corner.now.capacities s.capacities) stops.now) }
    ensures entered { IfOk result (λ v. EachEntered (G.entered gate.now level) v.items) }
    ensures least { IfOk result (λ v. steps.old.count + sum_of least_loops v.items ≤ steps.new.count) }
    ensures most { IfOk result (λ v. steps.new.count ≤ steps.old.count + sum_of most_loops v.items) }
    ensures err { OnErr result (steps.new ≡ steps.old) }
    ensures share { steps.new.share ≡ steps.old.share }
{
    let visits = visits_of(base, tellings, stops)?;
    evaluate_all(rt, base.exploring, level, best, visits, gate, steps)
}

/// The visits of stops, each with counts that its distribution reaches.
fn visits_of<'a, F: Firing>(
    base: &Ground<'a, F>,
    tellings: &'a [Telling],
    stops: &[Stop],
) -> Result<Vec<Visit<'a>>, NoMemory>
    requires base { IsBase (F.net base.now.exploring.now.net.now) base.now.exploring.now.limits base.now.corner.now.capacities base.now.lattice.now base.now.exploring.now.starts.now }
    requires told { All (IsTold (F.net base.now.exploring.now.net.now) base.now.exploring.now.limits base.now.corner.now.capacities base.now.lattice.now) tellings.now }
    requires stops { (goals : List (List ℕ)) × All (IsStop (F.net base.now.exploring.now.net.now) base.now.exploring.now.limits base.now.corner.now.capacities base.now.lattice.now tellings.now goals) stops.now }
    ensures visits { IfOk result (λ v. All (λ x. IsVisitable (F.net base.now.exploring.now.net.now) x.capacities x.counts.now) v.items) }
    ensures order { IfOk result (λ v. map (λ x. x.capacities.capacities) v.items ≡ map (λ s. bounded_by base.now.corner.now.capacities s.capacities) stops.now) }
{
    let alloc = base.exploring.alloc;
    let mut visits = Vec::with_capacity(alloc, stops.len())?;
    for stop in stops {
        let capacities = distribution_of(alloc, base.corner, stop.capacities.as_slice())?;
        let counts = counts_by(base.exploring.starts, tellings, stop.by);
        visits.push_reserved(Visit { capacities, counts });
    }
    Ok(visits)
}

/// The counts at which the telling at a place is blocked, or those of a whole round where it isn't; where no telling led on, none
/// has fired.
fn counts_by<'a>(starts: &'a Starts, tellings: &'a [Telling], by: Option<usize>) -> &'a [u64]
    requires { IfSome by (λ place. place < length tellings.now) }
    ensures { result.now ≡ counts_by starts.now tellings.now by }
{
    match by {
        None => starts.none.as_slice(),
        Some(place) => counts_after(starts, &tellings[place]),
    }
}

/// The counts at which a telling is blocked, or those of a whole round where it isn't.
fn counts_after<'a>(starts: &'a Starts, telling: &'a Telling) -> &'a [u64]
    ensures { result.now ≡ counts_after starts.now telling.now.blocked }
{
    match &telling.blocked {
        Some(counts) => counts.as_slice(),
        None => starts.whole.as_slice(),
    }
}
