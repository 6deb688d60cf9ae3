ghost use Rattle.std.specs.Prelude.{◌≡◌, ◌+◌, ◌≤◌, ◌<◌, ◌++◌, ℕ, [], IfErr, IfOk, List, MatchOption, OnOk, Option};
ghost use Rattle.sd_base.specs.declared.limits.TheConstants.{DISTRIBUTIONS, LEAST_DISTRIBUTIONS, STORAGE};
ghost use Rattle.sd_base.specs.Scenarios.{FileKeepsRules};
ghost use Rattle.sd_base.specs.Tables.{KeepsRules};
ghost use Rattle.sd_base.specs.declared.tables.GraphFile.{GraphFile as AGraph};
ghost use Rattle.balance.specs.Repetition.{IsRefusal as IsBalanceRefusal, IsRound};
ghost use Rattle.storage.specs.Distributions.{storage_of};
ghost use Rattle.storage.specs.Steps.{IsCorner};
ghost use Rattle.bounded_scenarios.specs.Boundings.{CanBeBounded};
ghost use Rattle.bounded_scenarios.specs.SharedChannels.{shared_channels};
ghost use Rattle.levels.specs.Entrances.{EnterByLevels};
ghost use Rattle.levels.specs.Frontiers.{distributions_of};
ghost use Rattle.scenario_storage.specs.Entrances.{AreEntered};
ghost use Rattle.scenario_storage.specs.ScenarioPoints.{AreScenarioPoints, IsRefusal};
ghost use Rattle.scenario_storage.specs.inside.Levels.{AreRounds, HaveRounds, IsPlan};
ghost use Rattle.scenario_storage.specs.inside.Points.{IsBestOf};
ghost use Rattle.scenario_storage.specs.inside.Searches.{IsEndedWith, IsSearchOf, IsStanding, IsTurn, IsTurnAfter, taken_off};

use crate::blocked::Blocked;
use crate::error::ScenarioStorageError;
use crate::level::run_level;
use crate::members::take_in_all;
use crate::plan::Plan;
use crate::point::{ScenarioLimits, ScenarioPoint};
use balance::{BalanceError, one_answer, repetition};
use bounded_scenarios::{channel_steps, corner_of};
use fanout::Gate;
use levels::{Bounds, Level, Levels};
use sd_base::{Fraction, GraphFile, NoMemory, Rows, ScenarioFile};
use std::alloc::Global;
use std::thread::Threads;
use storage::Distribution;

/// Where the search stands: the distributions that wait, the points among those that were rated, the newest blocked ones that were
/// evaluated, and whether one of those that were rated has a rate that bounds those of all.
pub(crate) struct Search {
    pub(crate) levels: Levels<()>,
    pub(crate) points: Vec<ScenarioPoint>,
    pub(crate) blocked: Vec<Blocked>,
    pub(crate) topped: bool,
}

// By hand, so that what drops one calls this, and does not drop each of its parts.
impl Drop for Search {
    fn drop(self) {
        let Search {
            levels: _levels,
            points: _points,
            blocked: _blocked,
            topped: _,
        } = self;
    }
}

impl Search {
    /// The points.
    fn into_points(self) -> Vec<ScenarioPoint>
        ensures { result ≡ self.points }
    {
        let Search {
            levels: _levels,
            points,
            blocked: _blocked,
            topped: _,
        } = self;
        points
    }
}

/// The Pareto points of the storage of shared channels and the worst rate (Geilen 2010; Stuijk, Geilen and Basten 2008):
/// the corner is rated and, with each distribution, those that have a step more room on a shared channel which it shows.
/// The distributions of one storage are one level: the gate is entered with that storage, and they are rated side by side.
/// The search ends with the level of a rate that no distribution exceeds: one that runs and shows no shared channel.
/// Cost: for each distribution that of the matrices of its scenarios, of their timed graph's worst rate, and of a way for
/// each edge of a critical cycle; memory of the points with their graphs, of the distributions that wait, and of the
/// evaluations that run at one time.
pub fn scenario_points<R: Threads + Sync, G: Gate + Sync>(
    rt: &R,
    alloc: Global,
    file: &ScenarioFile,
    limits: ScenarioLimits,
    gate: &G,
) -> Result<Vec<ScenarioPoint>, ScenarioStorageError>
    requires bounded { CanBeBounded file.now limits.total }
    requires some { LEAST_DISTRIBUTIONS ≤ limits.distributions }
    requires few { limits.distributions ≤ DISTRIBUTIONS }
    requires total { limits.total ≤ STORAGE }
    ensures points { IfOk result (λ v. AreScenarioPoints file.now limits v.items) }
    ensures entered { IfOk result (λ v. AreEntered file.now limits (G.entered gate.now) v.items) }
    ensures refused { IfErr result (IsRefusal file.now limits) }
{
    let gammas = gammas_of(alloc, file)?;
    let plan = Plan {
        alloc,
        file,
        gammas: &gammas,
        limits,
    };
    let corner = corner_of(alloc, file)?;
    let mut search = begin(&plan, corner.capacities, corner.total)?;
    take_turns(rt, &plan, gate, &mut search)?;
    Ok(search.into_points())
}

/// By scenario its repetition vector. Cost: that of `repetition` for each.
fn gammas_of(alloc: Global, file: &ScenarioFile) -> Result<Rows<Rows<u64>>, NoMemory>
    requires rules { FileKeepsRules file.now }
    requires rounds { HaveRounds file.now }
    ensures { IfOk result (AreRounds file.now) }
{
    let mut gammas = Rows::new(alloc);
    for scenario in file.scenarios.as_slice() {
        gammas.push(gamma_of(alloc, &scenario.graph)?)?;
    }
    Ok(gammas)
}

/// The repetition vector of a graph that has one.
fn gamma_of(alloc: Global, graph: &GraphFile) -> Result<Rows<u64>, NoMemory>
    requires rules { KeepsRules graph.now }
    requires round { (gamma : List ℕ) × IsRound graph.now gamma }
    ensures { IfOk result (IsRound graph.now) }
{
    match repetition(alloc, graph) {
        Ok(gamma) => Ok(gamma),
        Err(error) => Err(lack_of(error)),
    }
}

/// The error of a graph that has a repetition vector: memory lacks.
fn lack_of(error: BalanceError) -> NoMemory
    requires { (graph : AGraph) × KeepsRules graph × ((gamma : List ℕ) × IsRound graph gamma) × IsBalanceRefusal graph error }
{
    one_answer();
    match error {
        BalanceError::NoMemory => NoMemory,
        _ => unreachable!(),
    }
}

/// The corner waits, if it is within the limit.
fn begin(plan: &Plan, corner: Distribution, total: u64) -> Result<Search, NoMemory>
    requires plan { IsPlan plan.now.file.now plan.now.gammas.now plan.now.limits }
    requires some { 1 ≤ plan.now.limits.distributions }
    requires corner { IsCorner (shared_channels plan.now.file.now) corner.capacities }
    requires total { total ≡ storage_of (shared_channels plan.now.file.now) corner.capacities }
    ensures { IfOk result (IsStanding plan.now.file.now plan.now.limits []) }
{
    let bounds = Bounds {
        total: plan.limits.total,
        distributions: plan.limits.distributions,
    };
    let channels = channel_steps(plan.alloc, plan.file)?;
    Ok(Search {
        levels: Levels::begin(plan.alloc, channels, bounds, corner, total, ())?,
        points: Vec::new(plan.alloc),
        blocked: Vec::new(plan.alloc),
        topped: false,
    })
}

/// Takes level after level in, until none waits or no greater rate is left.
fn take_turns<R: Threads + Sync, G: Gate + Sync>(
    rt: &R,
    plan: &Plan,
    gate: &G,
    search: &mut Search,
) -> Result<(), ScenarioStorageError>
    requires plan { IsPlan plan.now.file.now plan.now.gammas.now plan.now.limits }
    requires stands { IsStanding plan.now.file.now plan.now.limits [] search.old }
    ensures ended { OnOk result ((all : List (List (Option ℕ))) × IsEndedWith plan.now.file.now plan.now.limits all search.new.points.items × EnterByLevels (shared_channels plan.now.file.now) (G.entered gate.now) all) }
    ensures refused { IfErr result (IsRefusal plan.now.file.now plan.now.limits) }
{
    while let Some(level) = next_level(plan, search)? {
        take_turn(rt, plan, level, gate, search)?;
        let last = search.topped;
        if last {
            return Ok(());
        }
    }
    Ok(())
}

/// Takes the next level off those that wait, if one does.
fn next_level(plan: &Plan, search: &mut Search) -> Result<Option<Level<()>>, NoMemory>
    requires plan { IsPlan plan.now.file.now plan.now.gammas.now plan.now.limits }
    requires stands { (all : List (List (Option ℕ))) × IsStanding plan.now.file.now plan.now.limits all search.old }
    ensures level { IfOk result (λ found. (all : List (List (Option ℕ))) → IsStanding plan.now.file.now plan.now.limits all search.old → MatchOption found (IsEndedWith plan.now.file.now plan.now.limits all search.old.points.items)
        (λ level. IsTurnAfter plan.now.file.now plan.now.limits all level search.new)) }
    ensures points { search.new.points ≡ search.old.points }
    ensures off { IfOk result (λ found. MatchOption found Unit (λ _. taken_off search.old < taken_off search.new)) }
{
    let found = search.levels.next(plan.alloc)?;
    Ok(found)
}

/// Rates the distributions of a level and takes them in.
fn take_turn<R: Threads + Sync, G: Gate + Sync>(
    rt: &R,
    plan: &Plan,
    level: Level<()>,
    gate: &G,
    search: &mut Search,
) -> Result<(), ScenarioStorageError>
    requires plan { IsPlan plan.now.file.now plan.now.gammas.now plan.now.limits }
    requires turn { IsTurn plan.now.file.now plan.now.limits level search.old }
    ensures stands { OnOk result ((all : List (List (Option ℕ))) → IsTurnAfter plan.now.file.now plan.now.limits all level search.old →
        IsSearchOf plan.now.file.now plan.now.limits (level.total + 1) (all ++ distributions_of level.visits.items) [] search.new) }
    ensures entered { OnOk result ((all : List (List (Option ℕ))) → IsTurnAfter plan.now.file.now plan.now.limits all level search.old →
        EnterByLevels (shared_channels plan.now.file.now) (G.entered gate.now) all → EnterByLevels (shared_channels plan.now.file.now) (G.entered gate.now) (all ++ distributions_of level.visits.items)) }
    ensures off { OnOk result (taken_off search.new ≡ taken_off search.old) }
    ensures refused { IfErr result (IsRefusal plan.now.file.now plan.now.limits) }
{
    let total = level.total;
    let best = best_rate(search.points.as_slice());
    let answers = run_level(rt, plan, search.blocked.as_slice(), best, level, gate)?;
    take_in_all(plan, total, answers, search)?;
    Ok(())
}

/// The rate of the last point, or 0 where there is none.
fn best_rate(points: &[ScenarioPoint]) -> Fraction
    ensures { IsBestOf points.now result }
{
    match points.last() {
        Some(point) => point.rate,
        None => Fraction::new(0, 1),
    }
}
