ghost use Rattle.std.specs.Prelude.{ℕ, ◌≤◌, ◌^◌, IfOk, slice_index};
ghost use Rattle.sd_base.specs.Schedules.{start_of};

use firing::SdfNet;
use periodic::Periodic;
use sd_base::{NoMemory, Rows};
use std::alloc::Global;
use std::process::Abort;
use std::test::Fail;
use test_nets::{ring_of_two, three_at_once};

/// A periodic schedule: its period and rounds, and by actor the starts.
#[derive(Clone, Copy)]
struct Given<'a> {
    period: u64,
    rounds: u64,
    starts: &'a [&'a [u64]],
}

fn every<'a>(period: u64, rounds: u64, starts: &'a [&'a [u64]]) -> Given<'a> {
    Given {
        period,
        rounds,
        starts,
    }
}

fn rows(alloc: Global, starts: &[&[u64]]) -> Result<Rows<Rows<u128>>, NoMemory>
    ensures { IfOk result (λ rows. (a k : ℕ) → start_of rows a k ≤ 2 ^ 100) }
{
    let mut rows = Rows::new(alloc);
    for of_actor in starts {
        rows.push(row(alloc, of_actor)?)?;
    }
    Ok(rows)
}

fn row(alloc: Global, starts: &[u64]) -> Result<Rows<u128>, NoMemory>
    ensures { IfOk result (λ row. (k : ℕ) → slice_index row k ≤ 2 ^ 100) }
{
    let mut row = Rows::new(alloc);
    for start in starts {
        row.push(*start as u128)?;
    }
    Ok(row)
}

/// Asserts of each schedule whether it holds on a net.
fn check(
    rt: &impl Abort,
    alloc: Global,
    net: &SdfNet,
    schedules: &[Given],
    wanted: bool,
) -> Result<(), Fail> {
    for schedule in schedules {
        let periodic = Periodic {
            period: schedule.period,
            rounds: schedule.rounds,
            starts: rows(alloc, schedule.starts)?,
        };
        assert!(rt; periodic.holds(net) == wanted);
    }
    Ok(())
}

/// Firing k of y needs firing k of x, of time 2, and firing k + 1 of x needs firing k of y, of time 3.
#[test]
fn ring_of_two_keeps_its_schedule(rt: HostRuntime) -> Result<(), Fail> {
    let net = ring_of_two(rt.alloc())?;
    let right = [
        every(5, 1, &[&[0], &[2]]),
        every(6, 1, &[&[0], &[3]]),
        every(10, 2, &[&[0, 5], &[2, 7]]),
    ];
    check(&rt, rt.alloc(), &net, &right, true)
}

#[test]
fn ring_of_two_keeps_no_other_schedule(rt: HostRuntime) -> Result<(), Fail> {
    let net = ring_of_two(rt.alloc())?;
    let wrong = [
        // y starts before x ends.
        every(5, 1, &[&[0], &[1]]),
        // x starts again before y ends.
        every(5, 1, &[&[0], &[3]]),
        every(4, 1, &[&[0], &[2]]),
        every(0, 1, &[&[0], &[2]]),
        every(9, 2, &[&[0, 5], &[2, 7]]),
        // The starts are those of another number of rounds.
        every(5, 2, &[&[0], &[2]]),
        every(5, 0, &[&[0], &[2]]),
        every(5, 0, &[&[], &[]]),
        every(5, 1, &[&[0, 5], &[2]]),
        // The rows are those of other actors.
        every(5, 1, &[&[0]]),
        every(5, 1, &[&[0], &[2], &[0]]),
    ];
    check(&rt, rt.alloc(), &net, &wrong, false)
}

/// A firing needs the one three before it, of time 7. So with three rounds in 7 each is fed, whenever it starts.
#[test]
fn starts_of_a_schedule_rise(rt: HostRuntime) -> Result<(), Fail> {
    let net = three_at_once(rt.alloc())?;
    let rising = [every(7, 3, &[&[0, 0, 0]]), every(7, 3, &[&[0, 1, 7]])];
    check(&rt, rt.alloc(), &net, &rising, true)?;
    let falling = [every(7, 3, &[&[0, 2, 1]]), every(7, 3, &[&[0, 1, 8]])];
    check(&rt, rt.alloc(), &net, &falling, false)
}
