ghost use Rattle.std.specs.Thread.{IsSend, IsSync};
ghost use Rattle.std.specs.Prelude.{◌≡◌};
ghost use Rattle.fanout.specs.JobRuns.{AreReadyOnceEntered, EachEntered, EachRan};
ghost use Rattle.fanout.specs.Parts.{IsPart, PartEntered};

use crate::gate::Gate;
use crate::job::Job;
use std::thread::{Threads, join_mut};

/// How often the list is halved, so that at most 32 parts run side by side.
const HALVINGS: u32 = 5;

/// Where a part of the jobs stands: the number of the list, how often the part may still be halved, and the number of
/// its first job.
#[derive(Clone, Copy, Debug)]
struct Place {
    level: u64,
    halvings: u32,
    first: usize,
}

/// Runs all jobs, by halves of the list side by side, down to parts of one job or to 32 parts, each of which runs its jobs
/// in turn. The gate is entered with each job before its run: a job may run only once its own number has
/// entered. Takes no memory of its own, and recurses at most five calls deep.
pub fn all<R: Threads + Sync, J: Job, G: Gate + Sync>(rt: &R, level: u64, jobs: &mut [J], gate: &G)
    requires { AreReadyOnceEntered J.ready (G.entered gate.now level) jobs.old }
    ensures ran { EachRan J.ran jobs.old jobs.new }
    ensures entered { EachEntered (G.entered gate.now level) jobs.old }
{
    let place = Place {
        level,
        halvings: HALVINGS,
        first: 0,
    };
    part(rt, gate, place, jobs);
}

/// Runs a part of the jobs, by halves while it may be halved.
#[cycle(halves)]
fn part<R: Threads + Sync, J: Job, G: Gate + Sync>(rt: &R, gate: &G, place: Place, jobs: &mut [J])
    requires { IsPart J.ready (G.entered gate.now place.level) place.first jobs.old }
    ensures ran { EachRan J.ran jobs.old jobs.new }
    ensures entered { PartEntered (G.entered gate.now place.level) place.first jobs.old }
{
    if place.halvings == 0 || jobs.len() < 2 {
        in_turn(gate, place, jobs);
        return;
    }
    let half = jobs.len() / 2;
    let halvings = place.halvings - 1;
    let front = Place {
        level: place.level,
        halvings,
        first: place.first,
    };
    let back = Place {
        level: place.level,
        halvings,
        first: place.first + half,
    };
    let (first, second) = jobs.split_at_mut(half);
    both_parts(rt, gate, front, back, first, second);
}

/// Runs two parts side by side.
#[cycle(halves)]
fn both_parts<R: Threads + Sync, J: Job, G: Gate + Sync>(
    rt: &R,
    gate: &G,
    place: Place,
    next: Place,
    front: &mut [J],
    back: &mut [J],
)
    requires halvings { place.halvings ≡ next.halvings }
    requires front { IsPart J.ready (G.entered gate.now place.level) place.first front.old }
    requires back { IsPart J.ready (G.entered gate.now next.level) next.first back.old }
    ensures front { EachRan J.ran front.old front.new }
    ensures back { EachRan J.ran back.old back.new }
    ensures front_entered { PartEntered (G.entered gate.now place.level) place.first front.old }
    ensures back_entered { PartEntered (G.entered gate.now next.level) next.first back.old }
{
    join_mut(
        rt,
        &mut ||
            requires { IsSync R.row × IsSync G.row × IsSend J.row × IsPart J.ready (G.entered gate.now place.level) place.first front.now }
            ensures ran { EachRan J.ran front.entry.now front.exit.now }
            ensures entered { PartEntered (G.entered gate.entry.now place.level) place.first front.entry.now }
        { part(rt, gate, place, front) },
        &mut ||
            requires { IsSync R.row × IsSync G.row × IsSend J.row × IsPart J.ready (G.entered gate.now next.level) next.first back.now }
            ensures ran { EachRan J.ran back.entry.now back.exit.now }
            ensures entered { PartEntered (G.entered gate.entry.now next.level) next.first back.entry.now }
        { part(rt, gate, next, back) },
    );
}

/// Runs the jobs one after another.
fn in_turn<J: Job, G: Gate>(gate: &G, place: Place, jobs: &mut [J])
    requires { IsPart J.ready (G.entered gate.now place.level) place.first jobs.old }
    ensures ran { EachRan J.ran jobs.old jobs.new }
    ensures entered { PartEntered (G.entered gate.now place.level) place.first jobs.old }
{
    for k in 0..jobs.len() {
        gate.enter(place.level, place.first + k);
        jobs[k].run();
    }
}
