use crate::nets::{chain, twin_channels};
use crate::noting::Noting;
use crate::searches::{limits, searched};
use explore::ExploreError;
use fanout::OpenGate;
use pareto_front::Point;
use sd_base::Rows;
use std::alloc::{AllocError, Global};
use std::process::Abort;
use std::test::Fail;
use storage::Distribution;

/// What a point has to be: its storage, the period of one round, and two capacities.
type Wanted = (u64, u64, (u64, u64));

/// The points of the chain.
const CHAIN_POINTS: [Wanted; 4] = [
    (6, 7, (4, 2)),
    (8, 6, (5, 3)),
    (9, 5, (6, 3)),
    (10, 4, (7, 3)),
];

/// The distribution with two capacities.
fn pair(alloc: Global, capacities: (u64, u64)) -> Result<Distribution, AllocError> {
    Ok(Distribution {
        capacities: Rows::from_vec(Vec::from_slice(
            alloc,
            &[Some(capacities.0), Some(capacities.1)],
        )?),
    })
}

fn check_points(
    rt: &impl Abort,
    alloc: Global,
    points: &[Point],
    wanted: &[Wanted],
) -> Result<(), AllocError> {
    assert_eq!(rt; points.len(), wanted.len());
    for (point, (total, period, capacities)) in points.iter().zip(wanted) {
        assert_eq!(rt; point.total, *total);
        assert_eq!(rt; (point.rate.num, point.rate.den), (1, *period));
        assert_eq!(rt; point.capacities, pair(alloc, *capacities)?);
        assert_eq!(rt; point.table.period, *period);
    }
    Ok(())
}

// With (7, 3) b is never idle, so no storage buys more. With tokens of size 4 on beta the distribution (5, 3) needs 17 and is beaten by
// (6, 2), which needs 14. At 5 there is the corner (3, 2) alone, which is blocked, since the first firing of a leaves room for one
// token, and it needs two; at 4 there is nothing.
#[test]
fn a_chain_has_its_points(rt: HostRuntime) -> Result<(), Fail> {
    let cases: [((u64, u64), u64, &[Wanted]); 7] = [
        ((1, 1), 10, &CHAIN_POINTS),
        ((1, 1), 1_000_000_000, &CHAIN_POINTS),
        ((1, 1), 9, &CHAIN_POINTS[..3]),
        ((1, 1), 5, &[]),
        ((1, 1), 4, &[]),
        (
            (1, 4),
            19,
            &[
                (12, 7, (4, 2)),
                (14, 6, (6, 2)),
                (18, 5, (6, 3)),
                (19, 4, (7, 3)),
            ],
        ),
        (
            (3, 1),
            24,
            &[
                (14, 7, (4, 2)),
                (18, 6, (5, 3)),
                (21, 5, (6, 3)),
                (24, 4, (7, 3)),
            ],
        ),
    ];
    for (sizes, total, wanted) in cases {
        let net = chain(rt.alloc(), sizes)?;
        let found = searched(&rt, rt.alloc(), &net, limits(total, 1000, 1000), &OpenGate)?;
        check_points(&rt, rt.alloc(), found.as_slice(), wanted)?;
    }
    Ok(())
}

// Of (1, 2) and (2, 1) the need cycle of (1, 1) shows one alone, so three distributions are enough.
#[test]
fn one_need_cycle_shows_what_to_enlarge(rt: HostRuntime) -> Result<(), Fail> {
    let net = twin_channels(rt.alloc())?;
    let found = searched(&rt, rt.alloc(), &net, limits(4, 1000, 3), &OpenGate)?;
    let wanted = [(2, 2, (1, 1)), (4, 1, (2, 2))];
    check_points(&rt, rt.alloc(), found.as_slice(), &wanted)?;
    Ok(())
}

// Evaluated are (3, 2), (4, 2), (5, 2), then side by side (5, 3) and (6, 2), of which the one shows alpha and the other beta, and
// (6, 3) and (7, 3). Up to 5 there is one distribution, and up to 4 none.
#[test]
fn the_gate_is_entered_with_the_storage(rt: HostRuntime) -> Result<(), Fail> {
    let net = chain(rt.alloc(), (1, 1))?;
    for (total, wanted) in [(10u64, 11_211_100_000u64), (5, 100_000), (4, 0)] {
        let gate = Noting::new();
        searched(&rt, rt.alloc(), &net, limits(total, 1000, 1000), &gate)?;
        assert_eq!(rt; gate.entered(), wanted);
    }
    Ok(())
}

#[test]
fn what_is_spent_is_told(rt: HostRuntime) -> Result<(), Fail> {
    let net = chain(rt.alloc(), (1, 1))?;
    match searched(&rt, rt.alloc(), &net, limits(10, 1000, 1), &OpenGate) {
        Err(ExploreError::DistributionsSpent) => {}
        _ => panic!(&rt; "more than one distribution is reachable"),
    }
    match searched(&rt, rt.alloc(), &net, limits(10, 3, 1000), &OpenGate) {
        Err(ExploreError::StatesSpent { at }) => {
            assert_eq!(rt; at, pair(rt.alloc(), (4, 2))?);
        }
        _ => panic!(&rt; "three shapes of (4, 2) are different"),
    }
    Ok(())
}
