use crate::drawn::drawn_net;
use crate::searches::{explored, limits, searched};
use fanout::OpenGate;
use pareto_front::Point;
use std::alloc::Global;
use std::process::Abort;
use std::test::Fail;
use std::thread::Threads;

const SEEDS: u64 = 48;

/// How many points the nets of all seeds have, counted by a plain program that draws the same nets.
const POINTS: usize = 189;

/// Asserts that a drawn net has the points of its exploration, and answers how many.
fn check<R: Threads + Abort + Sync>(rt: &R, alloc: Global, seed: u64) -> Result<usize, Fail> {
    let (net, total) = drawn_net(alloc, seed)?;
    let limits = limits(total, 20_000, 20_000);
    let found = searched(rt, alloc, &net, limits, &OpenGate)?;
    let wanted = explored(rt, alloc, &net, limits)?;
    check_points(rt, seed, found.as_slice(), wanted.as_slice());
    Ok(found.len())
}

/// Asserts that points are the same.
fn check_points(rt: &impl Abort, seed: u64, found: &[Point], wanted: &[Point]) {
    assert_eq!(rt; found.len(), wanted.len(), "seed {seed}");
    for (one, other) in found.iter().zip(wanted) {
        assert!(rt; is_same(one, other), "seed {seed}, storage {}", other.total);
    }
}

/// Whether two points have the same storage, rate, distribution and loop.
fn is_same(one: &Point, other: &Point) -> bool {
    one.total == other.total
        && one.rate == other.rate
        && one.capacities == other.capacities
        && one.table.entry == other.table.entry
        && one.table.period == other.table.period
        && one.table.rounds == other.table.rounds
        && one.table.before == other.table.before
        && one.table.starts == other.table.starts
}

#[test]
fn drawn_nets_have_the_points_of_their_explorations(rt: HostRuntime) -> Result<(), Fail> {
    let mut points = 0usize;
    for seed in 0..SEEDS {
        let more = check(&rt, rt.alloc(), seed)?;
        points = points.saturating_add(more);
    }
    assert_eq!(rt; points, POINTS);
    Ok(())
}
