use crate::distribution_tests::distribution;
use firing::LoopTable;
use pareto_front::{Front, Point};
use sd_base::{Fraction, Rows};
use std::alloc::Global;
use std::process::Abort;
use std::test::Fail;

/// Offers a point of rate `1/period` with two capacities, whose sum is its storage.
fn offer(
    rt: &impl Abort,
    alloc: Global,
    front: &mut Front,
    period: u64,
    capacities: (u64, u64),
) -> Result<(), Fail> {
    assert!(rt; 1 <= period && capacities.0 < 100 && capacities.1 < 100);
    let rate = Fraction::new(1, period);
    assert!(rt; 1 <= rate.num);
    let point = Point {
        total: capacities.0 + capacities.1,
        rate,
        capacities: distribution(alloc, &[Some(capacities.0), Some(capacities.1)])?,
        table: LoopTable {
            entry: 0,
            period,
            rounds: 1,
            before: Rows::new(alloc),
            starts: Rows::new(alloc),
        },
    };
    Ok(front.offer(point)?)
}

/// The front of points that are offered one after another, each with its period and its capacities.
fn front_of(rt: &impl Abort, alloc: Global, offers: &[(u64, (u64, u64))]) -> Result<Front, Fail> {
    let mut front = Front::new(alloc);
    for (period, capacities) in offers {
        offer(rt, alloc, &mut front, *period, *capacities)?;
    }
    Ok(front)
}

/// Asserts that a point has rate `1/period` and these capacities, whose sum is its storage.
fn check(
    rt: &impl Abort,
    alloc: Global,
    point: &Point,
    period: u64,
    capacities: (u64, u64),
) -> Result<(), Fail> {
    assert!(rt; capacities.0 < 100 && capacities.1 < 100);
    let wanted = distribution(alloc, &[Some(capacities.0), Some(capacities.1)])?;
    assert_eq!(rt; point.capacities, wanted);
    assert_eq!(rt; point.total, capacities.0 + capacities.1);
    assert_eq!(rt; (point.rate.num, point.rate.den), (1, period));
    assert_eq!(rt; point.table.period, period);
    Ok(())
}

// (5, 2) has more storage than (4, 2) for the same rate; (6, 2) and (4, 4) tie with (5, 3), and (4, 4) comes first.
#[test]
fn of_a_tie_the_least_distribution_stays(rt: HostRuntime) -> Result<(), Fail> {
    let offers = [
        (6, (5, 3)),
        (7, (4, 2)),
        (7, (5, 2)),
        (5, (6, 3)),
        (6, (6, 2)),
        (6, (4, 4)),
    ];
    let front = front_of(&rt, rt.alloc(), &offers)?;
    let points = front.points();
    assert_eq!(rt; points.len(), 3);
    check(&rt, rt.alloc(), &points[0], 7, (4, 2))?;
    check(&rt, rt.alloc(), &points[1], 6, (4, 4))?;
    check(&rt, rt.alloc(), &points[2], 5, (6, 3))?;
    Ok(())
}

#[test]
fn a_new_front_has_no_point(rt: HostRuntime) -> Result<(), Fail> {
    let front = Front::new(rt.alloc());
    assert_eq!(rt; front.points().len(), 0);
    assert!(rt; front.best_within(100).is_none());
    Ok(())
}

// The last offer has no more storage than the two points before it that are slower, and takes the place of both.
#[test]
fn a_better_point_takes_the_place_of_all_that_it_covers(rt: HostRuntime) -> Result<(), Fail> {
    let offers = [
        (7, (4, 2)),
        (6, (5, 3)),
        (5, (6, 3)),
        (3, (7, 4)),
        (4, (5, 3)),
    ];
    let front = front_of(&rt, rt.alloc(), &offers)?;
    assert!(rt; front.best_within(5).is_none());
    for (total, period) in [(6, 7), (7, 7), (8, 4), (10, 4), (11, 3), (100, 3)] {
        let best = front.best_within(total).map(|point| point.table.period);
        assert_eq!(rt; best, Some(period), "{}", total);
    }
    let points = front.into_points();
    assert_eq!(rt; points.len(), 3);
    check(&rt, rt.alloc(), &points[1], 4, (5, 3))?;
    Ok(())
}
