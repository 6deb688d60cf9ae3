ghost use Rattle.std.specs.Prelude.{◌≡◌, ◌≤◌, IfOk, length};
ghost use Rattle.sd_base.specs.declared.limits.TheConstants.{DISTRIBUTIONS, LEAST_DISTRIBUTIONS, LEAST_STATES, STATES, STORAGE};
ghost use Rattle.explore.specs.Reachable.{IsExplorable};

use crate::checks::require_searchable;
use explore::{Exploration, ExploreError, explore};
use fanout::{Gate, OpenGate};
use firing::Firing;
use pareto_front::Point;
use pareto_search::pareto_points;
use sd_base::{Ledger, Limits, Steps};
use std::alloc::Global;
use std::process::Abort;
use std::thread::Threads;

/// Loops that were run.
struct Loops;

impl Ledger for Loops {}

pub(crate) fn limits(total: u64, states: u64, distributions: u64) -> Limits {
    Limits {
        total,
        states,
        distributions,
    }
}

/// The points of a net by bounds.
pub(crate) fn searched<R: Threads + Abort + Sync, F: Firing + Sync, G: Gate + Sync>(
    rt: &R,
    alloc: Global,
    net: &F,
    limits: Limits,
    gate: &G,
) -> Result<Vec<Point>, ExploreError> {
    require_searchable(rt, net, limits);
    let mut steps = Steps::new(Loops);
    let found = counted(rt, alloc, net, limits, gate, &mut steps);
    let Loops = steps.finish();
    found
}

/// The points of a net by bounds. As many loops at least as there are points are counted.
fn counted<R: Threads + Sync, F: Firing + Sync, G: Gate + Sync>(
    rt: &R,
    alloc: Global,
    net: &F,
    limits: Limits,
    gate: &G,
    steps: &mut Steps<Loops>,
) -> Result<Vec<Point>, ExploreError>
    requires net { IsExplorable (F.net net.now) }
    requires total { limits.total ≤ STORAGE }
    requires some_states { LEAST_STATES ≤ limits.states }
    requires few_states { limits.states ≤ STATES }
    requires some { LEAST_DISTRIBUTIONS ≤ limits.distributions }
    requires few { limits.distributions ≤ DISTRIBUTIONS }
    ensures counts { IfOk result (λ v. length v.items ≤ steps.new.count) }
    ensures share { steps.new.share ≡ steps.old.share }
{
    pareto_points(rt, alloc, net, limits, gate, steps)
}

/// The points of a net by levels.
pub(crate) fn explored<R: Threads + Abort + Sync, F: Firing + Sync>(
    rt: &R,
    alloc: Global,
    net: &F,
    limits: Limits,
) -> Result<Vec<Point>, ExploreError> {
    require_searchable(rt, net, limits);
    let mut steps = Steps::new(Loops);
    let found = explore(rt, alloc, net, limits, &OpenGate, &mut steps);
    let Loops = steps.finish();
    let Exploration {
        members: _members,
        points,
    } = found?;
    Ok(points)
}
