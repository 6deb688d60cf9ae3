//! What evaluations tell is kept.
ghost use Rattle.std.specs.Prelude.{◌≡◌, ◌+◌, ◌<◌, ◌≤◌, ◌++◌, ℕ, All, IfErr, IfOk, Ok, OnOk, length};
ghost use Rattle.sd_base.specs.declared.limits.Limits.{Limits as SomeLimits};
ghost use Rattle.sd_base.specs.declared.numbers.Fraction.{Fraction as AFraction};
ghost use Rattle.sd_base.specs.Net.{Net};
ghost use Rattle.guide.specs.Evaluations.{IsRefused};
ghost use Rattle.evaluations.specs.Evaluating.{IsEvaluation};
ghost use Rattle.explore.specs.Explorations.{IsRefusal};
ghost use Rattle.explore.specs.Reachable.{IsReachable};
ghost use Rattle.pareto_search.specs.inside.Grounds.{IsGround};
ghost use Rattle.pareto_search.specs.inside.Knowledge.{IsKnown};
ghost use Rattle.pareto_search.specs.inside.Learning.{AddsTelling, AreLearned, AreNew, IsLearned, IsNew, answered_of, counts_of, loops_of};
ghost use Rattle.pareto_search.specs.inside.Turns.{IsBoundOf};

use crate::evaluating::Ground;
use crate::grid::vector_of;
use crate::known::{Known, Looped};
use crate::waits::bounding_of;
use covers::{Bound, Cap, capacity_at};
use evaluations::{Answered, Rated, Shown};
use explore::ExploreError;
use firing::{Firing, LoopTable};
use lasso::RunError;
use sd_base::{NoMemory, Rows};
use std::alloc::Global;
use storage::Distribution;
use walks::Telling;

/// Keeps what each answer tells, in their order; the first one without an evaluation ends the search.
pub(crate) fn learn_all<F: Firing>(
    base: &Ground<F>,
    answers: Vec<Answered>,
    known: &mut Known,
) -> Result<(), ExploreError>
    requires stands { IsGround (F.net base.now.exploring.now.net.now) base.now.exploring.now.limits base.now.corner.now.capacities base.now.lattice.now }
    requires new { AreNew (F.net base.now.exploring.now.net.now) base.now.exploring.now.limits base.now.corner.now.capacities base.now.lattice.now known.old.tellings.items (answered_of answers.items) }
    requires answers { (best : AFraction) × All (λ a. IsEvaluation (F.net base.now.exploring.now.net.now) base.now.exploring.now.limits.states best a.capacities a.answer) answers.items }
    requires few { length known.old.tellings.items + length answers.items ≤ base.now.exploring.now.limits.distributions }
    ensures learned { OnOk result (AreLearned answers.items known.old known.new) }
    ensures known { OnOk result ((best : AFraction) → All (λ a. IsEvaluation (F.net base.now.exploring.now.net.now) base.now.exploring.now.limits.states best a.capacities a.answer) answers.items →
        IsKnown (F.net base.now.exploring.now.net.now) base.now.exploring.now.limits base.now.corner.now.capacities base.now.lattice.now best known.old →
        IsKnown (F.net base.now.exploring.now.net.now) base.now.exploring.now.limits base.now.corner.now.capacities base.now.lattice.now best known.new) }
    ensures refused { IfErr result (IsRefusal (F.net base.now.exploring.now.net.now) base.now.exploring.now.limits) }
{
    for answered in answers {
        learn(base, answered, known)?;
    }
    Ok(())
}

/// Keeps what an answer tells.
fn learn<F: Firing>(
    base: &Ground<F>,
    answered: Answered,
    known: &mut Known,
) -> Result<(), ExploreError>
    requires stands { IsGround (F.net base.now.exploring.now.net.now) base.now.exploring.now.limits base.now.corner.now.capacities base.now.lattice.now }
    requires new { IsNew (F.net base.now.exploring.now.net.now) base.now.exploring.now.limits base.now.corner.now.capacities base.now.lattice.now known.old.tellings.items answered.capacities.capacities }
    requires answer { (best : AFraction) × IsEvaluation (F.net base.now.exploring.now.net.now) base.now.exploring.now.limits.states best answered.capacities answered.answer }
    requires few { length known.old.tellings.items < base.now.exploring.now.limits.distributions }
    ensures learned { OnOk result (IsLearned answered known.old known.new) }
    ensures known { OnOk result ((best : AFraction) → IsEvaluation (F.net base.now.exploring.now.net.now) base.now.exploring.now.limits.states best answered.capacities answered.answer →
        IsKnown (F.net base.now.exploring.now.net.now) base.now.exploring.now.limits base.now.corner.now.capacities base.now.lattice.now best known.old →
        IsKnown (F.net base.now.exploring.now.net.now) base.now.exploring.now.limits base.now.corner.now.capacities base.now.lattice.now best known.new) }
    ensures refused { IfErr result (IsRefusal (F.net base.now.exploring.now.net.now) base.now.exploring.now.limits) }
{
    let Answered { capacities, answer } = answered;
    match answer {
        Ok(rated) => {
            keep(base, &capacities, rated, known)?;
            Ok(())
        }
        Err(error) => Err(refusal(error, capacities)),
    }
}

/// Keeps what is rated, with the channels on which it bounds, and the loop if there is one. Cost: that of `bounding_of`.
fn keep<F: Firing>(
    base: &Ground<F>,
    capacities: &Distribution,
    rated: Rated,
    known: &mut Known,
) -> Result<(), NoMemory>
    requires stands { IsGround (F.net base.now.exploring.now.net.now) base.now.exploring.now.limits base.now.corner.now.capacities base.now.lattice.now }
    requires new { IsNew (F.net base.now.exploring.now.net.now) base.now.exploring.now.limits base.now.corner.now.capacities base.now.lattice.now known.old.tellings.items capacities.now.capacities }
    requires evaluated { (best : AFraction) × IsEvaluation (F.net base.now.exploring.now.net.now) base.now.exploring.now.limits.states best capacities.now (Ok rated) }
    ensures tellings { OnOk result (AddsTelling (F.net base.now.exploring.now.net.now) base.now.corner.now.capacities base.now.lattice.now capacities.now.capacities rated known.old known.new) }
    ensures loops { OnOk result (known.new.loops.items ≡ known.old.loops.items ++ loops_of (length known.old.tellings.items) rated.table) }
{
    let place = known.tellings.len();
    let vector = vector_of(base.exploring.alloc, capacities)?;
    let bounding = bounding_of(base, capacities, &rated)?;
    let Rated {
        rate,
        enlarge,
        shown,
        table,
    } = rated;
    known.tellings.push(Telling {
        capacities: vector,
        enlarge,
        bounding,
        rate,
        blocked: counts_of(shown),
    })?;
    keep_loop(place, table, &mut known.loops)?;
    Ok(())
}

/// Keeps the loop for the telling at a place, if there is one.
fn keep_loop(
    place: usize,
    table: Option<LoopTable>,
    loops: &mut Vec<Looped>,
) -> Result<(), NoMemory>
    ensures { OnOk result (loops.new.items ≡ loops.old.items ++ loops_of place table) }
{
    match table {
        Some(table) => {
            loops.push(Looped { place, table })?;
            Ok(())
        }
        None => Ok(()),
    }
}

/// The counts at which a distribution is blocked, if they show its rate.
fn counts_of(shown: Shown) -> Option<Rows<u64>>
    ensures { result ≡ counts_of shown }
{
    match shown {
        Shown::Cycle(_) => None,
        Shown::Blocked { counts } => Some(counts),
    }
}

/// Why a distribution ends the search.
fn refusal(error: RunError, at: Distribution) -> ExploreError
    ensures { (net : Net) (limits : SomeLimits) → IsReachable net limits.total at.capacities → IsRefused net at.capacities limits.states error → IsRefusal net limits result }
{
    match error {
        RunError::StatesSpent => ExploreError::StatesSpent { at },
        RunError::TooManyStarts => ExploreError::TooManyStarts { at },
        RunError::NoMemory => ExploreError::NoMemory,
    }
}

/// The bound that an evaluation shows: capacities that are at most its own on the channels on which it bounds have at most
/// its rate. Cost: linear in these channels.
pub(crate) fn bound_of(alloc: Global, telling: &Telling) -> Result<Bound, NoMemory>
    ensures { IfOk result (IsBoundOf telling.now) }
{
    let capacities = telling.capacities.as_slice();
    let mut caps = Rows::new(alloc);
    for channel in telling.bounding.as_slice() {
        caps.push(Cap {
            channel: *channel,
            capacity: capacity_at(capacities, *channel),
        })?;
    }
    Ok(Bound {
        caps,
        rate: telling.rate,
    })
}
