ghost use Rattle.std.specs.Prelude.{ℕ, ◌≤◌, ◌^◌};
ghost use Rattle.sd_base.specs.Schedules.{start_of};

use crate::checks::{found_loop, is_live};
use crate::phase_net::two_phases;
use critical::{NeedCycle, cycle_of};
use firing::{Firing, LoopTable, SdfNet};
use periodic::{Periodic, from_loop};
use sd_base::Fraction;
use std::alloc::Global;
use std::process::Abort;
use std::test::Fail;
use test_nets::drawn_net;

/// What comes of the loop of a net.
#[derive(Drop)]
struct Answer {
    table: LoopTable,
    schedule: Periodic,
    cycle: NeedCycle,
    ghost small: { (a k : ℕ) → start_of schedule.starts a k ≤ 2 ^ 100 },
}

fn find_answer<F: Firing>(rt: &impl Abort, alloc: Global, net: &F) -> Result<Answer, Fail> {
    let table = found_loop(rt, alloc, net)?;
    let schedule = from_loop(alloc, net, &table)?;
    let cycle = cycle_of(alloc, net, &table)?;
    Ok(Answer {
        table,
        schedule,
        cycle,
    })
}

/// Asserts that what comes of a loop has its rate, and holds, and that what is faster or longer doesn't.
fn check_answer<F: Firing>(rt: &impl Abort, net: &F, answer: &mut Answer) {
    let rate = (answer.table.rounds, answer.table.period);
    assert!(rt; (answer.schedule.rounds, answer.schedule.period) == rate);
    assert!(rt; answer.schedule.holds(net));
    assert!(rt; answer.cycle.holds(net));
    assert!(rt; 1 <= rate.1 && 1 <= answer.cycle.time && answer.cycle.time < 1_000_000);
    assert!(rt; answer.cycle.bound() == Fraction::new(rate.0, rate.1));
    answer.schedule.period -= 1;
    assert!(rt; !answer.schedule.holds(net));
    answer.cycle.time += 1;
    assert!(rt; !answer.cycle.holds(net));
}

fn check_net<F: Firing>(rt: &impl Abort, alloc: Global, net: &F) -> Result<(), Fail> {
    let mut answer = find_answer(rt, alloc, net)?;
    check_answer(rt, net, &mut answer);
    Ok(())
}

/// Checks a net where a round of it can be completed, and tells whether that is so.
fn is_live_and_meets(rt: &impl Abort, alloc: Global, net: SdfNet) -> Result<bool, Fail> {
    let is_live = is_live(alloc, &net)?;
    if is_live {
        check_net(rt, alloc, &net)?;
    }
    Ok(is_live)
}

/// A rate is at least that of each schedule that holds, and at most that of each need cycle.
#[test]
fn schedules_and_cycles_of_drawn_nets_meet(rt: HostRuntime) -> Result<(), Fail> {
    let alloc = rt.alloc();
    let mut live = 0u32;
    for seed in 0..60 {
        let net = drawn_net(alloc, seed)?;
        if is_live_and_meets(&rt, alloc, net)? {
            live = live.saturating_add(1);
        }
    }
    assert!(rt; (15..=45).contains(&live), "live: {live}");
    Ok(())
}

#[test]
fn schedule_and_cycle_of_phases_meet(rt: HostRuntime) -> Result<(), Fail> {
    let net = two_phases(rt.alloc())?;
    check_net(&rt, rt.alloc(), &net)
}
