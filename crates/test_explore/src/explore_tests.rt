use crate::checks::explored;
use crate::nets::{chain, twin_channels};
use explore::{Exploration, ExploreError, Shown};
use fanout::OpenGate;
use pareto_front::Point;
use sd_base::{Limits, Rows};
use std::alloc::{AllocError, Global};
use std::process::Abort;
use std::test::Fail;
use storage::Distribution;

pub(crate) fn limits(total: u64, states: u64, distributions: u64) -> Limits {
    Limits {
        total,
        states,
        distributions,
    }
}

/// The distribution with two capacities.
fn pair(alloc: Global, capacities: (u64, u64)) -> Result<Distribution, AllocError> {
    Ok(Distribution {
        capacities: Rows::from_vec(Vec::from_slice(
            alloc,
            &[Some(capacities.0), Some(capacities.1)],
        )?),
    })
}

/// Asserts that points have rates one by a period each, with these totals and capacities.
pub(crate) fn check_points(
    rt: &impl Abort,
    alloc: Global,
    points: &[Point],
    expected: &[(u64, u64, (u64, u64))],
) -> Result<(), Fail> {
    assert_eq!(rt; points.len(), expected.len());
    for (point, (total, period, capacities)) in points.iter().zip(expected) {
        assert_eq!(rt; point.total, *total);
        assert_eq!(rt; (point.rate.num, point.rate.den), (1, *period));
        assert_eq!(rt; point.capacities, pair(alloc, *capacities)?);
        assert_eq!(rt; point.table.period, *period);
    }
    Ok(())
}

/// Asserts that members have these capacities and rates one by a period each, or are blocked where it is 0.
fn check_members(
    rt: &impl Abort,
    alloc: Global,
    found: &Exploration,
    expected: &[(u64, (u64, u64))],
) -> Result<(), Fail> {
    assert_eq!(rt; found.members.len(), expected.len());
    for (member, (period, capacities)) in found.members.iter().zip(expected) {
        assert_eq!(rt; member.capacities, pair(alloc, *capacities)?);
        match &member.shown {
            Shown::Cycle(_) => assert_eq!(rt; (member.rate.num, member.rate.den), (1, *period)),
            Shown::Blocked { counts: _ } => assert_eq!(rt; (member.rate.num, *period), (0, 0)),
        }
    }
    Ok(())
}

pub(crate) const CHAIN_POINTS: [(u64, u64, (u64, u64)); 4] = [
    (6, 7, (4, 2)),
    (8, 6, (5, 3)),
    (9, 5, (6, 3)),
    (10, 4, (7, 3)),
];

// At the corner (3, 2) the first firing of a leaves room for one token, and it needs two. Total 7 gains nothing.
#[test]
fn a_chain_has_four_points(rt: HostRuntime) -> Result<(), Fail> {
    let net = chain(rt.alloc(), (1, 1))?;
    let found = explored(&rt, rt.alloc(), &net, limits(10, 1000, 1000), &OpenGate)?;
    check_points(&rt, rt.alloc(), found.points.as_slice(), &CHAIN_POINTS)?;
    let members = [
        (0, (3, 2)),
        (7, (4, 2)),
        (7, (5, 2)),
        (6, (5, 3)),
        (6, (6, 2)),
        (5, (6, 3)),
        (4, (7, 3)),
    ];
    check_members(&rt, rt.alloc(), &found, &members)?;
    let more = explored(&rt, rt.alloc(), &net, limits(12, 1000, 1000), &OpenGate)?;
    check_points(&rt, rt.alloc(), more.points.as_slice(), &CHAIN_POINTS)?;
    Ok(())
}

#[test]
fn below_the_first_live_distribution_there_is_no_point(rt: HostRuntime) -> Result<(), Fail> {
    let net = chain(rt.alloc(), (1, 1))?;
    let corner = explored(&rt, rt.alloc(), &net, limits(5, 1000, 1000), &OpenGate)?;
    check_points(&rt, rt.alloc(), corner.points.as_slice(), &[])?;
    check_members(&rt, rt.alloc(), &corner, &[(0, (3, 2))])?;
    let none = explored(&rt, rt.alloc(), &net, limits(4, 1000, 1000), &OpenGate)?;
    assert_eq!(rt; (none.points.len(), none.members.len()), (0, 0));
    Ok(())
}

// With tokens of size 4 on beta the distribution (5, 3) needs 17 and is beaten by (6, 2), which needs 14.
#[test]
fn sizes_of_tokens_count(rt: HostRuntime) -> Result<(), Fail> {
    let net = chain(rt.alloc(), (1, 4))?;
    let found = explored(&rt, rt.alloc(), &net, limits(19, 1000, 1000), &OpenGate)?;
    let points = [
        (12, 7, (4, 2)),
        (14, 6, (6, 2)),
        (18, 5, (6, 3)),
        (19, 4, (7, 3)),
    ];
    check_points(&rt, rt.alloc(), found.points.as_slice(), &points)?;
    let net = chain(rt.alloc(), (3, 1))?;
    let found = explored(&rt, rt.alloc(), &net, limits(24, 1000, 1000), &OpenGate)?;
    let points = [
        (14, 7, (4, 2)),
        (18, 6, (5, 3)),
        (21, 5, (6, 3)),
        (24, 4, (7, 3)),
    ];
    check_points(&rt, rt.alloc(), found.points.as_slice(), &points)?;
    Ok(())
}

// Of (1, 2) and (2, 1) one need cycle shows one alone, so three distributions are enough.
#[test]
fn one_need_cycle_shows_what_to_enlarge(rt: HostRuntime) -> Result<(), Fail> {
    let net = twin_channels(rt.alloc())?;
    let found = explored(&rt, rt.alloc(), &net, limits(4, 1000, 3), &OpenGate)?;
    check_points(
        &rt,
        rt.alloc(),
        found.points.as_slice(),
        &[(2, 2, (1, 1)), (4, 1, (2, 2))],
    )?;
    assert_eq!(rt; found.members.len(), 3);
    Ok(())
}

#[test]
fn what_is_spent_is_told(rt: HostRuntime) -> Result<(), Fail> {
    let net = chain(rt.alloc(), (1, 1))?;
    match explored(&rt, rt.alloc(), &net, limits(10, 1000, 2), &OpenGate) {
        Err(ExploreError::DistributionsSpent) => {}
        _ => panic!(&rt; "more than two distributions are reachable"),
    }
    match explored(&rt, rt.alloc(), &net, limits(10, 3, 1000), &OpenGate) {
        Err(ExploreError::StatesSpent { at }) => {
            assert_eq!(rt; at, pair(rt.alloc(), (4, 2))?);
        }
        _ => panic!(&rt; "three shapes of (4, 2) are different"),
    }
    Ok(())
}
