//! How the distributions of a level are evaluated.
ghost use Rattle.std.specs.Prelude.{◌≡◌, ◌+◌, ◌≤◌, [], All, IfOk, OnErr, map, vec_capacity, vec_len};
ghost use Rattle.sd_base.specs.declared.numbers.Fraction.{Fraction as AFraction};
ghost use Rattle.fanout.specs.JobRuns.{EachEntered};
ghost use Rattle.evaluations.specs.Evaluating.{IsEvaluation, IsVisitable, least_loops, most_loops, sum_of};
ghost use Rattle.evaluations.specs.Starts.{AreStarts};
ghost use Rattle.explore.specs.inside.Hints.{IsEvaluableFrom};
ghost use Rattle.explore.specs.inside.Members.{IsBestOf};
ghost use Rattle.explore.specs.inside.Searches.{IsExploring};

use crate::exploration::Member;
use crate::hints::led_to;
use crate::search::Search;
use evaluations::{Answered, Exploring, Visit, evaluate_all};
use fanout::Gate;
use firing::Firing;
use levels::{Found, Level};
use pareto_front::Point;
use sd_base::{Fraction, Ledger, NoMemory, Steps};
use std::thread::Threads;

/// Evaluates the distributions of a level side by side, and answers in their order.
pub(crate) fn run_level<R: Threads + Sync, F: Firing + Sync, G: Gate + Sync, L: Ledger + Send>(
    rt: &R,
    exploring: &Exploring<F>,
    search: &Search,
    level: Level<Option<usize>>,
    gate: &G,
    steps: &mut Steps<L>,
) -> Result<Vec<Answered>, NoMemory>
    requires exploring { IsExploring (F.net exploring.now.net.now) exploring.now.starts.now exploring.now.limits }
    requires fits { All (IsEvaluableFrom (F.net exploring.now.net.now) exploring.now.limits.states search.now.members.items) level.visits.items }
    ensures answers { IfOk result (λ v. (best : AFraction) × IsBestOf search.now.front best × All (λ a. IsEvaluation (F.net exploring.now.net.now) exploring.now.limits.states best a.capacities a.answer) v.items) }
    ensures order { IfOk result (λ v. map (λ a. a.capacities) v.items ≡ map (λ f. f.capacities) level.visits.items) }
    ensures entered { IfOk result (λ v. EachEntered (G.entered gate.now level.total) v.items) }
    ensures least { IfOk result (λ v. steps.old.count + sum_of least_loops v.items ≤ steps.new.count) }
    ensures most { IfOk result (λ v. steps.new.count ≤ steps.old.count + sum_of most_loops v.items) }
    ensures err { OnErr result (steps.new ≡ steps.old) }
    ensures share { steps.new.share ≡ steps.old.share }
{
    let Level {
        total,
        visits: taken,
    } = level;
    let mut visits = Vec::with_capacity(exploring.alloc, taken.len())?;
    fill(exploring, search.members.as_slice(), taken, &mut visits);
    let best = best_rate(search.front.points());
    let answers = evaluate_all(rt, exploring, total, best, visits, gate, steps)?;
    Ok(answers)
}

/// The rate of the last point, or 0 where there is none.
fn best_rate(points: &[Point]) -> Fraction
    ensures { IsBestOf points.now result }
{
    match points.last() {
        Some(point) => point.rate,
        None => Fraction::new(0, 1),
    }
}

/// Makes a visit of each distribution, with the counts that its hint gives.
fn fill<'a, F: Firing>(
    exploring: &Exploring<'a, F>,
    members: &'a [Member],
    taken: Vec<Found<Option<usize>>>,
    visits: &mut Vec<Visit<'a>>,
)
    requires starts { AreStarts (F.net exploring.now.net.now) exploring.now.starts.now }
    requires fits { All (IsEvaluableFrom (F.net exploring.now.net.now) exploring.now.limits.states members.now) taken.items }
    requires empty { visits.old.items ≡ [] }
    requires room { vec_len taken ≤ vec_capacity visits.old }
    ensures fits { All (λ v. IsVisitable (F.net exploring.now.net.now) v.capacities v.counts.now) visits.new.items }
    ensures order { map (λ v. v.capacities) visits.new.items ≡ map (λ f. f.capacities) taken.items }
{
    for found in taken {
        let counts = led_to(exploring.net, exploring.starts, members, &found);
        visits.push_reserved(Visit {
            capacities: found.into_capacities(),
            counts,
        });
    }
}
