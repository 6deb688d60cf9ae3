use crate::boundable::points_of;
use crate::outline::{Outline, Scenario};
use fanout::OpenGate;
use scenario_storage::{ScenarioLimits, ScenarioPoint, ScenarioStorageError};
use std::alloc::{AllocError, Global};
use std::process::Abort;
use std::test::Fail;
use std::thread::Threads;
use test_nets::{Line, channel};

/// A point: its storage and rate, by shared channel its capacity, how many shared channels the bounded file has, and the critical
/// cycle by its nodes with its time.
#[derive(Clone, Copy)]
pub(crate) struct Row<'a> {
    pub(crate) total: u64,
    pub(crate) rate: (u64, u64),
    pub(crate) capacities: &'a [Option<u64>],
    pub(crate) shared: usize,
    pub(crate) cycle: &'a [u32],
    pub(crate) time: u64,
}

pub(crate) fn limits(total: u64, distributions: u64) -> ScenarioLimits {
    ScenarioLimits {
        total,
        distributions,
    }
}

/// Asserts that points are these.
pub(crate) fn check_points(
    rt: &impl Abort,
    alloc: Global,
    points: &[ScenarioPoint],
    rows: &[Row],
) -> Result<(), Fail> {
    assert_eq!(rt; points.len(), rows.len());
    for (point, row) in points.iter().zip(rows) {
        check_point(rt, alloc, point, row)?;
    }
    Ok(())
}

fn check_point(
    rt: &impl Abort,
    alloc: Global,
    point: &ScenarioPoint,
    row: &Row,
) -> Result<(), Fail> {
    assert_eq!(rt; point.total, row.total);
    assert_eq!(rt; (point.rate.num, point.rate.den), row.rate);
    assert_eq!(rt; point.capacities.capacities.as_slice(), row.capacities);
    assert_eq!(rt; point.shared.len(), row.shared);
    let (nodes, time) = cycle_of(alloc, point)?;
    assert_eq!(rt; nodes.as_slice(), row.cycle);
    assert_eq!(rt; time, row.time);
    Ok(())
}

/// The nodes of a point's critical cycle, and its time.
fn cycle_of(alloc: Global, point: &ScenarioPoint) -> Result<(Vec<u32>, u64), AllocError> {
    let mut nodes = Vec::new(alloc);
    let mut time: u64 = 0;
    for place in point.worst.cycle.as_slice() {
        if let Some(edge) = point.graph.edges.as_slice().get(*place as usize) {
            nodes.push(edge.from)?;
            time = time.saturating_add(edge.weight);
        }
    }
    Ok((nodes, time))
}

/// Actor 0 of 1 time unit sends to actor 1 of 2, one token ahead; each has a token of its own.
pub(crate) fn sending() -> [(&'static str, Line); 3] {
    [
        ("o", channel(0, 1, 1, 0, 1)),
        ("p", channel(1, 1, 1, 1, 1)),
        ("s", channel(0, 1, 1, 1, 1)),
    ]
}

/// The channel s as a self-loop of actor 0, and t by which it sends.
fn turned() -> [(&'static str, Line); 2] {
    [("s", channel(0, 1, 1, 0, 1)), ("t", channel(0, 1, 1, 1, 1))]
}

/// The points of actors that send so: in a space of one token one waits for the other, in two actor 1 is busy all along.
const SENDING_POINTS: [Row<'static>; 2] = [
    Row {
        total: 1,
        rate: (1, 3),
        capacities: &[None, None, Some(1)],
        shared: 3,
        cycle: &[2],
        time: 3,
    },
    Row {
        total: 2,
        rate: (1, 2),
        capacities: &[None, None, Some(2)],
        shared: 4,
        cycle: &[1],
        time: 2,
    },
];

/// The points of actors of times 5 and 9 that send so.
const SLOWER_POINTS: [Row<'static>; 2] = [
    Row {
        total: 1,
        rate: (1, 14),
        capacities: &[None, None, Some(1)],
        shared: 3,
        cycle: &[5],
        time: 14,
    },
    Row {
        total: 2,
        rate: (1, 9),
        capacities: &[None, None, Some(2)],
        shared: 4,
        cycle: &[5],
        time: 9,
    },
];

/// The outline of one scenario, round after round.
pub(crate) fn alone<'a>(scenarios: &'a [Scenario<'a>]) -> Outline<'a> {
    Outline {
        scenarios,
        states: &[(0, &[0])],
    }
}

/// Asserts the points of a file within a limit.
fn check<R: Threads + Abort + Sync>(
    rt: &R,
    alloc: Global,
    file: &Outline,
    total: u64,
    rows: &[Row],
) -> Result<(), Fail> {
    let points = points_of(rt, alloc, file, limits(total, 1000), &OpenGate)?;
    check_points(rt, alloc, points.as_slice(), rows)
}

// The first point has no free space at the start, and so no shared row for it.
#[test]
fn one_scenario_has_two_points(rt: HostRuntime) -> Result<(), Fail> {
    let sending = Scenario {
        times: &[1, 2],
        channels: &sending(),
    };
    let scenarios = [sending];
    let file = alone(&scenarios);
    check(&rt, rt.alloc(), &file, 3, &SENDING_POINTS)?;
    check(&rt, rt.alloc(), &file, 0, &[])?;
    match points_of(&rt, rt.alloc(), &file, limits(3, 1), &OpenGate) {
        Err(ScenarioStorageError::DistributionsSpent) => Ok(()),
        _ => panic!(&rt; "two distributions are more than one"),
    }
}

// The second scenario takes 14 time units in a space of one token, and 9 in two: where a state runs it that is reached.
#[test]
fn a_state_that_is_not_reached_does_not_count(rt: HostRuntime) -> Result<(), Fail> {
    let scenarios = [
        Scenario {
            times: &[1, 2],
            channels: &sending(),
        },
        Scenario {
            times: &[5, 9],
            channels: &sending(),
        },
    ];
    let apart = Outline {
        scenarios: &scenarios,
        states: &[(0, &[0]), (1, &[0, 1])],
    };
    check(&rt, rt.alloc(), &apart, 3, &SENDING_POINTS)?;
    let not_run = Outline {
        scenarios: &scenarios,
        states: &[(0, &[0])],
    };
    check(&rt, rt.alloc(), &not_run, 3, &SENDING_POINTS)?;
    let joined = Outline {
        scenarios: &scenarios,
        states: &[(0, &[0, 1]), (1, &[0, 1])],
    };
    check(&rt, rt.alloc(), &joined, 3, &SLOWER_POINTS)
}

// In the second scenario s is a self-loop, so it has no capacity in either.
#[test]
fn a_self_loop_in_one_scenario_alone_has_no_capacity(rt: HostRuntime) -> Result<(), Fail> {
    let [o, p, s] = sending();
    let [looped, t] = turned();
    let first = [o, p, s, t];
    let second = [o, p, looped, t];
    let scenarios = [
        Scenario {
            times: &[1, 2],
            channels: &first,
        },
        Scenario {
            times: &[2, 2],
            channels: &second,
        },
    ];
    let file = Outline {
        scenarios: &scenarios,
        states: &[(0, &[1]), (1, &[0])],
    };
    let slow = Row {
        total: 1,
        rate: (2, 7),
        capacities: &[None, None, None, Some(1)],
        shared: 4,
        cycle: &[2, 7],
        time: 7,
    };
    let fast = Row {
        total: 2,
        rate: (1, 2),
        capacities: &[None, None, None, Some(2)],
        shared: 5,
        cycle: &[1, 6],
        time: 4,
    };
    check(&rt, rt.alloc(), &file, 3, &[slow, fast])
}

// Steps are of two tokens, the greatest common divisor of the rates 2, 2, 4 and 2.
#[test]
fn rates_may_differ_between_scenarios(rt: HostRuntime) -> Result<(), Fail> {
    let [o, p, _] = sending();
    let first = [o, p, ("s", channel(0, 2, 2, 1, 2))];
    let second = [o, p, ("s", channel(0, 4, 2, 1, 2))];
    let scenarios = [
        Scenario {
            times: &[1, 2],
            channels: &first,
        },
        Scenario {
            times: &[3, 1],
            channels: &second,
        },
    ];
    let file = Outline {
        scenarios: &scenarios,
        states: &[(0, &[1]), (1, &[0, 1])],
    };
    let rows = [(4, 5, 7), (6, 4, 14), (8, 3, 10)];
    let points = points_of(&rt, rt.alloc(), &file, limits(9, 1000), &OpenGate)?;
    assert_eq!(rt; points.len(), rows.len());
    for (point, (total, period, node)) in points.iter().zip(rows) {
        let row = Row {
            total,
            rate: (1, period),
            capacities: &[None, None, Some(total)],
            shared: 4,
            cycle: &[node],
            time: period,
        };
        check_point(&rt, rt.alloc(), point, &row)?;
    }
    Ok(())
}

// Actor 0 sends to actor 1 on s, which answers on u, and to actor 2 on v, which answers on w. With one place each all wait for
// space. With two on u alone actor 1 fires, then actor 0 waits for v and actor 2 for w; so they do with two on s as well, since
// this distribution has no more room on v and w. It is the same with the pairs in each other's places. The other four of storage 6
// take turns. Eleven are found to there: the corner, four of storage 5, and six.
#[test]
fn what_a_blocked_distribution_holds_back_is_blocked_too(rt: HostRuntime) -> Result<(), Fail> {
    let channels = [
        ("s", channel(0, 1, 1, 1, 1)),
        ("u", channel(1, 1, 1, 0, 1)),
        ("v", channel(0, 1, 1, 2, 1)),
        ("w", channel(2, 1, 1, 0, 1)),
    ];
    let scenarios = [Scenario {
        times: &[1, 1, 1],
        channels: &channels,
    }];
    let file = alone(&scenarios);
    let in_turn = Row {
        total: 6,
        rate: (1, 2),
        capacities: &[Some(1), Some(2), Some(1), Some(2)],
        shared: 6,
        cycle: &[0],
        time: 2,
    };
    let all_at_once = Row {
        total: 8,
        rate: (1, 1),
        capacities: &[Some(2), Some(2), Some(2), Some(2)],
        shared: 8,
        cycle: &[0, 1],
        time: 2,
    };
    check(&rt, rt.alloc(), &file, 8, &[in_turn, all_at_once])?;
    let points = points_of(&rt, rt.alloc(), &file, limits(6, 11), &OpenGate)?;
    check_points(&rt, rt.alloc(), points.as_slice(), &[in_turn])?;
    match points_of(&rt, rt.alloc(), &file, limits(6, 10), &OpenGate) {
        Err(ScenarioStorageError::DistributionsSpent) => Ok(()),
        _ => panic!(&rt; "eleven distributions are more than ten"),
    }
}
