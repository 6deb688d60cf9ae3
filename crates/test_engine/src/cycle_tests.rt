use critical::{CycleStep, CycleSteps, FiringNo, NeedCycle};
use firing::SdfNet;
use sd_base::NoMemory;
use std::alloc::Global;
use std::process::Abort;
use std::test::Fail;
use test_nets::ring_of_two;

/// Firing `number` of x, which is actor 0.
fn x(number: u64) -> FiringNo {
    FiringNo { actor: 0, number }
}

/// Firing `number` of y, which is actor 1.
fn y(number: u64) -> FiringNo {
    FiringNo { actor: 1, number }
}

/// A step along a channel to a firing.
fn along(channel: u32, to: FiringNo) -> CycleStep {
    CycleStep { channel, to }
}

/// Steps one after another.
fn in_order(alloc: Global, steps: &[CycleStep]) -> Result<CycleSteps, NoMemory> {
    let mut listed = CycleSteps::new(alloc);
    for step in steps {
        listed.push(*step)?;
    }
    Ok(listed)
}

/// The channels of the ring of two: from x to y, and from y to x.
const XY: u32 = 0;

const YX: u32 = 1;

/// From firing 0 of x: firing 0 of y needs it, and firing 1 of x needs that.
fn once_round() -> [CycleStep; 2] {
    [along(XY, y(0)), along(YX, x(1))]
}

fn cycle(
    alloc: Global,
    first: FiringNo,
    steps: &[CycleStep],
    time: u64,
    rounds: u64,
) -> Result<NeedCycle, NoMemory> {
    Ok(NeedCycle {
        time,
        rounds,
        first,
        steps: in_order(alloc, steps)?,
    })
}

/// Whether the steps from a firing are a need cycle.
fn leads_round(
    alloc: Global,
    net: &SdfNet,
    first: FiringNo,
    steps: &[CycleStep],
    time: u64,
    rounds: u64,
) -> Result<bool, NoMemory> {
    let cycle = cycle(alloc, first, steps, time, rounds)?;
    Ok(cycle.holds(net))
}

/// Firing k of y needs firing k of x, of time 2, and firing k + 1 of x needs firing k of y, of time 3.
#[test]
fn ring_of_two_has_its_need_cycle(rt: HostRuntime) -> Result<(), Fail> {
    let net = ring_of_two(rt.alloc())?;
    check_right(&rt, rt.alloc(), &net)
}

fn check_right(rt: &impl Abort, alloc: Global, net: &SdfNet) -> Result<(), Fail> {
    assert!(rt; leads_round(alloc, net, x(0), &once_round(), 5, 1)?);
    let twice = [
        along(XY, y(0)),
        along(YX, x(1)),
        along(XY, y(1)),
        along(YX, x(2)),
    ];
    assert!(rt; leads_round(alloc, net, x(0), &twice, 10, 2)?);
    let later = [along(XY, y(7)), along(YX, x(8))];
    assert!(rt; leads_round(alloc, net, x(7), &later, 5, 1)?);
    let from_y = [along(YX, x(1)), along(XY, y(1))];
    assert!(rt; leads_round(alloc, net, y(0), &from_y, 5, 1)?);
    Ok(())
}

#[test]
fn ring_of_two_has_no_other_need_cycle(rt: HostRuntime) -> Result<(), Fail> {
    let net = ring_of_two(rt.alloc())?;
    check_wrong(&rt, rt.alloc(), &net)
}

fn check_wrong(rt: &impl Abort, alloc: Global, net: &SdfNet) -> Result<(), Fail> {
    let wrong = [
        // The time and the rounds are others.
        (once_round(), 4, 1),
        (once_round(), 6, 1),
        (once_round(), 5, 0),
        (once_round(), 5, 2),
        // A channel is another one, or none of the net.
        ([along(YX, y(0)), along(YX, x(1))], 5, 1),
        ([along(XY, y(0)), along(XY, x(1))], 5, 1),
        ([along(XY, y(0)), along(2, x(1))], 5, 1),
        // A firing is needed, but isn't the last one that is.
        ([along(XY, y(1)), along(YX, x(2))], 5, 2),
        ([along(XY, y(0)), along(YX, x(2))], 5, 2),
    ];
    for (steps, time, rounds) in &wrong {
        let holds = leads_round(alloc, net, x(0), steps, *time, *rounds)?;
        assert!(rt; !holds);
    }
    assert!(rt;
        !leads_round(alloc, net, x(0), &[along(XY, y(0))], 2, 1)?,
        "to y"
    );
    assert!(rt; !leads_round(alloc, net, x(0), &[], 0, 1)?, "nowhere");
    Ok(())
}

#[test]
fn bounds_are_rounds_by_time_in_lowest_terms(rt: HostRuntime) -> Result<(), Fail> {
    for (rounds, time, num, den) in [(1, 5, 1, 5), (2, 10, 1, 5), (3, 7, 3, 7)] {
        let cycle = cycle(rt.alloc(), x(0), &[], time, rounds)?;
        assert!(rt; 1 <= cycle.time);
        let bound = cycle.bound();
        assert!(rt; (bound.num(), bound.den()) == (num, den));
    }
    Ok(())
}
