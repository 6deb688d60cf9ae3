//! The two searches of the storage distributions of a net within limits: for its points alone, and for all that a certificate of them
//! lists.
ghost use Rattle.std.specs.Prelude.{◌≡◌, ◌+◌, ◌≤◌, ℕ, IfOk, length};
ghost use Rattle.sd_base.specs.Net.{Net as ANet};
ghost use Rattle.storage.specs.declared.distribution.Distribution.{Distribution as ADistribution};
ghost use Rattle.explore.specs.declared.error.ExploreError.TheVariants as causes;
ghost use Rattle.explore.specs.declared.exploration.Exploration.{Exploration as AnExploration};
ghost use Rattle.explore.specs.Reachable.{IsExplorable};
ghost use Rattle.explore.specs.Explorations.{CountsFew, CountsLive, IsExploration, IsRefusal, capacities_of, cycles_in};
ghost use Rattle.levels.specs.Entrances.{EnterByLevels};
ghost use Rattle.pareto_search.specs.Entrances.{IsEvaluating};
ghost use Rattle.pareto_search.specs.TradeOffs.{IsTradeOff};
ghost use Rattle.report.specs.LinkTexts.{IsNamed};
ghost use Rattle.sd_words.specs.Asked.{AreLimits};
ghost use Rattle.sd_steps.specs.Courses.{deciding};
ghost use Rattle.sd_steps.specs.Steps.{Does};
ghost use Rattle.sd_command.specs.commands.Points.{IsPointsEnd};

use crate::commands::parallel::Parallel;
use explore::{Exploration, ExploreError, explore};
use fanout::Gate;
use firing::{Firing, know_laws};
use pareto_front::Point;
use pareto_search::pareto_points;
use report::{Refusal, buffers_text};
use sd_base::{GraphFile, Ledger, Limits, NoMemory, Quantity, Steps};
use sd_steps::Stop;
use sd_steps::reading::above;
use std::alloc::Global;
use std::thread::Threads;

/// The points of a net, or the refusal of a search that passes a limit.
pub(crate) fn points_within<R: Threads + Sync, F: Firing + Sync, G: Gate + Sync, L: Ledger + Send>(
    parallel: &Parallel<'_, R, G>,
    alloc: Global,
    net: &F,
    graph: &GraphFile,
    limits: Limits,
    steps: &mut Steps<L>,
) -> Result<Vec<Point>, Stop>
    requires named { IsNamed graph.now (F.net net.now) }
    requires explorable { IsExplorable (F.net net.now) }
    requires limits { AreLimits limits }
    ensures does { Does (deciding (λ points. IsTradeOff (F.net net.now) limits points.items) (IsPointsEnd graph.now (F.net net.now) limits)) result }
    ensures live { IfOk result (λ _. (n : ℕ) → steps.new.count ≡ steps.old.count + n → CountsLive (F.net net.now) limits n) }
    ensures entered { IfOk result (λ _. (n : ℕ) → steps.new.count ≡ steps.old.count + n → IsEvaluating (F.net net.now) limits (G.entered parallel.now.gate.now) n) }
    ensures least { IfOk result (λ points. steps.old.count + length points.items ≤ steps.new.count) }
    ensures most { CountsFew (F.net net.now) limits steps.old.count steps.new.count }
    ensures rises { steps.old.count ≤ steps.new.count }
    ensures share { steps.new.share ≡ steps.old.share }
{
    know_laws(net);
    match pareto_points(parallel.rt, alloc, net, limits, parallel.gate, steps) {
        Ok(points) => Ok(points),
        Err(error) => Err(Stop::Refused(refusal_of(alloc, graph, limits, error)?)),
    }
}

/// The exploration of a net, or the refusal of one that passes a limit.
pub(crate) fn explored<R: Threads + Sync, F: Firing + Sync, G: Gate + Sync, L: Ledger + Send>(
    parallel: &Parallel<'_, R, G>,
    alloc: Global,
    net: &F,
    graph: &GraphFile,
    limits: Limits,
    steps: &mut Steps<L>,
) -> Result<Exploration, Stop>
    requires named { IsNamed graph.now (F.net net.now) }
    requires explorable { IsExplorable (F.net net.now) }
    requires limits { AreLimits limits }
    ensures does { Does (deciding (λ (e : AnExploration). IsExploration (F.net net.now) limits e.members.items e.points.items) (IsPointsEnd graph.now (F.net net.now) limits)) result }
    ensures counts { IfOk result (λ e. steps.new.count ≡ steps.old.count + cycles_in e.members.items) }
    ensures live { IfOk result (λ _. (n : ℕ) → steps.new.count ≡ steps.old.count + n → CountsLive (F.net net.now) limits n) }
    ensures entered { IfOk result (λ e. EnterByLevels (F.net net.now).channels (G.entered parallel.now.gate.now) (capacities_of e.members.items)) }
    ensures least { IfOk result (λ e. steps.old.count + length e.points.items ≤ steps.new.count) }
    ensures most { CountsFew (F.net net.now) limits steps.old.count steps.new.count }
    ensures rises { steps.old.count ≤ steps.new.count }
    ensures share { steps.new.share ≡ steps.old.share }
{
    know_laws(net);
    match explore(parallel.rt, alloc, net, limits, parallel.gate, steps) {
        Ok(exploration) => Ok(exploration),
        Err(error) => Err(Stop::Refused(refusal_of(alloc, graph, limits, error)?)),
    }
}

// The refusal of a search that passes a limit. Want of memory has none.
fn refusal_of(
    alloc: Global,
    graph: &GraphFile,
    limits: Limits,
    error: ExploreError,
) -> Result<Refusal, NoMemory>
    requires { (at : ADistribution) → error ≡ causes.StatesSpent at → length at.capacities ≤ length graph.now.channels }
    ensures { (net : ANet) → IsRefusal net limits error → IfOk result (IsPointsEnd graph.now net limits) }
{
    match error {
        ExploreError::StatesSpent { at } => Ok(Refusal::StatesSpent {
            states: limits.states,
            at: Some(buffers_text(alloc, graph, &at)?),
        }),
        ExploreError::TooManyStarts { .. } => above(alloc, Quantity::Starts),
        ExploreError::DistributionsSpent => Ok(Refusal::DistributionsSpent {
            number: limits.distributions,
        }),
        ExploreError::NoMemory => Err(NoMemory),
    }
}
