use crate::nets::parallel_channels;
use crate::searches::{limits, searched};
use fanout::OpenGate;
use pareto_front::Point;
use std::process::Abort;
use std::test::Fail;

/// How many channels there are.
const CHANNELS: usize = 8;

/// The points: the storage, the capacity of each channel, and the period of one round.
const POINTS: [(u64, u64, u64); 3] = [(32, 4, 5), (40, 5, 4), (48, 6, 3)];

/// Asserts that a point needs the storage, that each channel has the capacity, and that a round takes the period.
fn check_point(rt: &impl Abort, point: &Point, wanted: (u64, u64, u64)) {
    let (total, capacity, period) = wanted;
    assert_eq!(rt; point.total, total);
    assert_eq!(rt; (point.rate.num, point.rate.den), (1, period));
    assert_eq!(rt; point.capacities.capacities.len(), CHANNELS);
    for room in point.capacities.capacities.as_slice() {
        assert_eq!(rt; *room, Some(capacity));
    }
}

// With three places each, a fires once, and then waits for a second place on all eight channels, and b for a third token. A circular
// wait goes through one channel, so each bound is on one. Were it on all eight, it would take 2^8 bounds to show that all eight need
// a fourth place. With 4 a round is a, a, b, a and b one after another; with 5 one firing of a is beside one of b; with 6 a is never
// idle, and its three firings are the round.
#[test]
fn one_circular_wait_bounds_parallel_channels(rt: HostRuntime) -> Result<(), Fail> {
    let net = parallel_channels(rt.alloc(), CHANNELS)?;
    let limits = limits(1_000_000_000, 1000, 100);
    let found = searched(&rt, rt.alloc(), &net, limits, &OpenGate)?;
    assert_eq!(&rt; found.len(), POINTS.len());
    for (point, wanted) in found.iter().zip(POINTS) {
        check_point(&rt, point, wanted);
    }
    Ok(())
}
