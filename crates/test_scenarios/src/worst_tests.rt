use crate::timed::{timed, worst_of};
use automaton::TimedGraph;
use scenario_rate::Worst;
use std::alloc::Global;
use std::process::Abort;
use std::test::Fail;

/// Asserts the rate of a timed graph, its critical cycle by the numbers of edges, and its potentials by node.
fn check(
    rt: &impl Abort,
    alloc: Global,
    graph: TimedGraph,
    rate: (u64, u64),
    cycle: &[u32],
    potentials: &[Option<i128>],
) -> Result<(), Fail> {
    let found = worst_of(rt, alloc, &graph)?;
    check_found(rt, &found, rate, cycle, potentials);
    Ok(())
}

fn check_found(
    rt: &impl Abort,
    found: &Worst,
    rate: (u64, u64),
    cycle: &[u32],
    potentials: &[Option<i128>],
) {
    assert!(rt; (found.rate.num(), found.rate.den()) == rate);
    assert!(rt; found.cycle.as_slice() == cycle);
    assert!(rt; found.potentials.as_slice() == potentials);
}

// States of 2, 4 and 9 time units with one token: the second may follow itself, and the third can't be reached.
#[test]
fn a_slow_state_that_is_not_reached_does_not_count(rt: HostRuntime) -> Result<(), Fail> {
    let edges = [(0, 1, 2), (1, 0, 4), (1, 1, 4), (2, 0, 9), (2, 2, 9)];
    let graph = timed(rt.alloc(), 1, 3, 0, &edges)?;
    check(
        &rt,
        rt.alloc(),
        graph,
        (1, 4),
        &[2],
        &[Some(0), Some(-2), None],
    )?;
    let graph = timed(rt.alloc(), 1, 3, 2, &edges)?;
    check(
        &rt,
        rt.alloc(),
        graph,
        (1, 9),
        &[4],
        &[Some(0), Some(-7), Some(0)],
    )
}

// x takes 3 time units and y 2, each with a token of its own, and y waits for x: rounds overlap, so x alone counts.
#[test]
fn rounds_overlap(rt: HostRuntime) -> Result<(), Fail> {
    let graph = timed(rt.alloc(), 2, 1, 0, &[(0, 0, 3), (0, 1, 5), (1, 1, 2)])?;
    check(&rt, rt.alloc(), graph, (1, 3), &[0], &[Some(0), Some(2)])
}

// All three cycles take 3 time units a round. The one at node 3 has fewer edges, but node 0 comes first; and there the cycle
// by node 1 has the lesser list of nodes than that by node 2, whose edge comes first.
#[test]
fn the_least_of_several_critical_cycles_is_chosen(rt: HostRuntime) -> Result<(), Fail> {
    let edges = [
        (0, 2, 2),
        (0, 1, 3),
        (1, 0, 3),
        (2, 0, 4),
        (2, 3, 1),
        (3, 3, 3),
    ];
    let graph = timed(rt.alloc(), 1, 4, 0, &edges)?;
    let potentials = [Some(0), Some(0), Some(-1), Some(-3)];
    check(&rt, rt.alloc(), graph, (1, 3), &[1, 2], &potentials)
}

// Two rounds in 5 time units: potentials count halves of a time unit.
#[test]
fn a_rate_of_two_rounds(rt: HostRuntime) -> Result<(), Fail> {
    let graph = timed(rt.alloc(), 1, 2, 0, &[(0, 1, 2), (1, 0, 3)])?;
    check(
        &rt,
        rt.alloc(),
        graph,
        (2, 5),
        &[0, 1],
        &[Some(0), Some(-1)],
    )
}

// Token 0 becomes what token 1 was, at once, so two rounds take 7 time units.
#[test]
fn an_edge_may_take_no_time(rt: HostRuntime) -> Result<(), Fail> {
    let graph = timed(
        rt.alloc(),
        2,
        1,
        0,
        &[(1, 0, 0), (0, 0, 1), (0, 1, 7), (1, 1, 1)],
    )?;
    check(&rt, rt.alloc(), graph, (2, 7), &[2, 0], &[Some(0), Some(7)])
}
