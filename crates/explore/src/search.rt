ghost use Rattle.std.specs.Prelude.{◌≡◌, ◌+◌, ◌≤◌, ◌<◌, ℕ, [], IfErr, IfOk, MatchOption, OnOk, length, map};
ghost use Rattle.sd_base.specs.declared.limits.TheConstants.{DISTRIBUTIONS, LEAST_DISTRIBUTIONS, LEAST_STATES, STATES, STORAGE};
ghost use Rattle.storage.specs.Distributions.{storage_of};
ghost use Rattle.storage.specs.Steps.{IsCorner};
ghost use Rattle.levels.specs.Frontiers.{channel_step};
ghost use Rattle.levels.specs.Entrances.{EnterByLevels};
ghost use Rattle.explore.specs.Explorations.{CountsFew, CountsLive, IsExploration, IsRefusal, capacities_of, cycles_in};
ghost use Rattle.explore.specs.Reachable.{IsExplorable};
ghost use Rattle.explore.specs.inside.Searches.{EntersOn, IsEnded, IsExploring, IsSearch, IsStanding, IsTurn};

use crate::error::ExploreError;
use crate::exploration::{Exploration, Member};
use crate::level::run_level;
use crate::members::take_in_all;
use evaluations::{Exploring, Starts, wiring_of};
use fanout::Gate;
use firing::{Firing, know_laws};
use levels::{Bounds, ChannelStep, Level, Levels};
use pareto_front::Front;
use sd_base::{Ledger, Limits, NoMemory, Rows, Steps};
use std::alloc::Global;
use std::thread::Threads;
use storage::{Distribution, corner, step};

/// Where an exploration stands: the distributions that wait, each with the place of the member that led to it for a hint, the
/// members so far, and the points among them.
pub(crate) struct Search {
    pub(crate) levels: Levels<Option<usize>>,
    pub(crate) members: Vec<Member>,
    pub(crate) front: Front,
}

// By hand, so that what drops one calls this, and does not drop each of its parts.
impl Drop for Search {
    fn drop(self) {
        let Search {
            levels: _levels,
            members: _members,
            front: _front,
        } = self;
    }
}

impl Search {
    /// The members and the points.
    fn into_exploration(self) -> Exploration
        ensures members { result.members ≡ self.members }
        ensures points { result.points.items ≡ self.front }
    {
        let Search {
            levels: _levels,
            members,
            front,
        } = self;
        Exploration {
            members,
            points: front.into_points(),
        }
    }
}

/// The Pareto points of all storage distributions within a limit, and the members that show it: the corner, and with each
/// member those that have a step more room on a channel that the member shows (Stuijk, Geilen and Basten 2008, with one
/// need cycle in place of all storage dependencies). The members of one storage are one level: the gate is entered with
/// that storage, and they are evaluated side by side. A step is counted for each loop that is run. Cost: that of
/// `evaluate` for each member, a logarithm of the distributions that wait for each one found, and the points for each
/// member with a rate; memory linear in the members.
pub fn explore<R: Threads + Sync, F: Firing + Sync, G: Gate + Sync, L: Ledger + Send>(
    rt: &R,
    alloc: Global,
    net: &F,
    limits: Limits,
    gate: &G,
    steps: &mut Steps<L>,
) -> Result<Exploration, ExploreError>
    requires net { IsExplorable (F.net net.now) }
    requires total { limits.total ≤ STORAGE }
    requires some_states { LEAST_STATES ≤ limits.states }
    requires few_states { limits.states ≤ STATES }
    requires some { LEAST_DISTRIBUTIONS ≤ limits.distributions }
    requires few { limits.distributions ≤ DISTRIBUTIONS }
    ensures explored { IfOk result (λ e. IsExploration (F.net net.now) limits e.members.items e.points.items) }
    ensures refused { IfErr result (IsRefusal (F.net net.now) limits) }
    ensures entered { IfOk result (λ e. EnterByLevels (F.net net.now).channels (G.entered gate.now) (capacities_of e.members.items)) }
    ensures count { IfOk result (λ e. steps.new.count ≡ steps.old.count + cycles_in e.members.items) }
    ensures least { IfOk result (λ e. steps.old.count + length e.points.items ≤ steps.new.count) }
    ensures live { IfOk result (λ _. (n : ℕ) → steps.new.count ≡ steps.old.count + n → CountsLive (F.net net.now) limits n) }
    ensures most { CountsFew (F.net net.now) limits steps.old.count steps.new.count }
    ensures rises { steps.old.count ≤ steps.new.count }
    ensures share { steps.new.share ≡ steps.old.share }
{
    know_laws(net);
    let first = corner(alloc, net)?;
    let Some(total) = first.total_within(net, limits.total) else {
        return Ok(Exploration {
            members: Vec::new(alloc),
            points: Vec::new(alloc),
        });
    };
    let wiring = wiring_of(alloc, net, &first)?;
    let starts = Starts::of(alloc, net)?;
    let exploring = Exploring {
        alloc,
        net,
        wiring: &wiring,
        starts: &starts,
        limits,
    };
    let mut search = begin(&exploring, first, total)?;
    take_turns(rt, &exploring, gate, &mut search, steps)?;
    Ok(search.into_exploration())
}

/// Takes level after level in, until none waits.
fn take_turns<R: Threads + Sync, F: Firing + Sync, G: Gate + Sync, L: Ledger + Send>(
    rt: &R,
    exploring: &Exploring<F>,
    gate: &G,
    search: &mut Search,
    steps: &mut Steps<L>,
) -> Result<(), ExploreError>
    requires exploring { IsExploring (F.net exploring.now.net.now) exploring.now.starts.now exploring.now.limits }
    requires stands { IsStanding (F.net exploring.now.net.now) exploring.now.limits search.old }
    requires none { cycles_in search.old.members.items ≡ 0 }
    ensures ended { OnOk result (IsEnded (F.net exploring.now.net.now) exploring.now.limits search.new.members.items search.new.front) }
    ensures entered { OnOk result (EntersOn (F.net exploring.now.net.now) (G.entered gate.now) search.old.members.items search.new.members.items) }
    ensures count { OnOk result (steps.new.count ≡ steps.old.count + cycles_in search.new.members.items) }
    ensures refused { IfErr result (IsRefusal (F.net exploring.now.net.now) exploring.now.limits) }
    ensures most { CountsFew (F.net exploring.now.net.now) exploring.now.limits steps.old.count steps.new.count }
    ensures rises { steps.old.count ≤ steps.new.count }
    ensures share { steps.new.share ≡ steps.old.share }
{
    while let Some(level) = next_level(exploring, search)? {
        take_turn(rt, exploring, level, gate, search, steps)?;
    }
    Ok(())
}

/// Takes the next level off those that wait, if one does.
fn next_level<F: Firing>(
    exploring: &Exploring<F>,
    search: &mut Search,
) -> Result<Option<Level<Option<usize>>>, NoMemory>
    requires exploring { IsExploring (F.net exploring.now.net.now) exploring.now.starts.now exploring.now.limits }
    requires stands { IsStanding (F.net exploring.now.net.now) exploring.now.limits search.old }
    ensures level { IfOk result (λ found. MatchOption found (IsEnded (F.net exploring.now.net.now) exploring.now.limits search.old.members.items search.old.front)
        (λ level. IsTurn (F.net exploring.now.net.now) exploring.now.limits level search.new)) }
    ensures members { search.new.members ≡ search.old.members }
    ensures front { search.new.front ≡ search.old.front }
{
    know_laws(exploring.net);
    let found = search.levels.next(exploring.alloc)?;
    Ok(found)
}

/// Takes the distributions of a level in as members.
fn take_turn<R: Threads + Sync, F: Firing + Sync, G: Gate + Sync, L: Ledger + Send>(
    rt: &R,
    exploring: &Exploring<F>,
    level: Level<Option<usize>>,
    gate: &G,
    search: &mut Search,
    steps: &mut Steps<L>,
) -> Result<(), ExploreError>
    requires exploring { IsExploring (F.net exploring.now.net.now) exploring.now.starts.now exploring.now.limits }
    requires turn { IsTurn (F.net exploring.now.net.now) exploring.now.limits level search.old }
    ensures stands { OnOk result (IsStanding (F.net exploring.now.net.now) exploring.now.limits search.new) }
    ensures entered { OnOk result (EntersOn (F.net exploring.now.net.now) (G.entered gate.now) search.old.members.items search.new.members.items) }
    ensures more { OnOk result (length search.old.members.items < length search.new.members.items) }
    ensures few { OnOk result (length search.new.members.items ≤ exploring.now.limits.distributions) }
    ensures count { OnOk result (steps.new.count + cycles_in search.old.members.items ≡ steps.old.count + cycles_in search.new.members.items) }
    ensures refused { IfErr result (IsRefusal (F.net exploring.now.net.now) exploring.now.limits) }
    ensures most { IfErr result (λ e. (before : ℕ) → steps.old.count ≡ before + cycles_in search.old.members.items → CountsFew (F.net exploring.now.net.now) exploring.now.limits before steps.new.count) }
    ensures rises { steps.old.count ≤ steps.new.count }
    ensures share { steps.new.share ≡ steps.old.share }
{
    know_laws(exploring.net);
    let total = level.total;
    let answers = run_level(rt, exploring, search, level, gate, steps)?;
    take_in_all(exploring, total, answers, search)?;
    Ok(())
}

/// By channel the size of its tokens and its step. Cost: that of `step` for each channel.
fn steps_of<F: Firing>(alloc: Global, net: &F) -> Result<Rows<ChannelStep>, NoMemory>
    ensures { IfOk result (λ v. v ≡ map channel_step (F.net net.now).channels) }
{
    let mut steps = Vec::with_capacity(alloc, net.channels() as usize)?;
    for channel in 0..net.channels() {
        steps.push(ChannelStep {
            size: net.size(channel),
            step: step(net, channel),
        })?;
    }
    Ok(Rows::from_vec(steps))
}

/// The corner waits, to which no member led.
fn begin<F: Firing>(
    exploring: &Exploring<F>,
    capacities: Distribution,
    total: u64,
) -> Result<Search, NoMemory>
    requires net { IsExplorable (F.net exploring.now.net.now) }
    requires some { 1 ≤ exploring.now.limits.distributions }
    requires corner { IsCorner (F.net exploring.now.net.now).channels capacities.capacities }
    requires total { total ≡ storage_of (F.net exploring.now.net.now).channels capacities.capacities }
    ensures members { IfOk result (λ s. s.members.items ≡ []) }
    ensures search { IfOk result (IsSearch (F.net exploring.now.net.now) exploring.now.limits 0 []) }
{
    know_laws(exploring.net);
    let alloc = exploring.alloc;
    let bounds = Bounds {
        total: exploring.limits.total,
        distributions: exploring.limits.distributions,
    };
    let steps = steps_of(alloc, exploring.net)?;
    Ok(Search {
        levels: Levels::begin(alloc, steps, bounds, capacities, total, None)?,
        members: Vec::new(alloc),
        front: Front::new(alloc),
    })
}
