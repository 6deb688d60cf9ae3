use crate::checks::run_net;
use firing::{LoopTable, SdfNet};
use std::alloc::Global;
use std::process::Abort;
use std::test::Fail;
use test_nets::{channel, multi_rate_ring, ring_of_two, table_net, three_at_once};

// What throughput shows of a loop, and how it is refused, stands among the cases of the top call.

/// Asserts the moment at which the loop of a net is entered, its period and its rounds.
fn check(rt: &impl Abort, alloc: Global, net: SdfNet, wanted: (u64, u64, u64)) -> Result<(), Fail> {
    let table = run_net(rt, alloc, &net, 200_000)??;
    assert!(rt; (table.entry, table.period, table.rounds) == wanted);
    Ok(())
}

// As in the traces of engines. The multi-rate ring with 8,000 tokens on `q` enters its loop late.
#[test]
fn loops_are_entered_where_shapes_come_again(rt: HostRuntime) -> Result<(), Fail> {
    let alloc = rt.alloc();
    check(&rt, alloc, ring_of_two(alloc)?, (0, 5, 1))?;
    check(&rt, alloc, three_at_once(alloc)?, (0, 7, 3))?;
    let lines = [
        channel(0, 2, 1, 1, 0),
        channel(1, 1, 2, 0, 8_000),
        channel(0, 1, 1, 0, 1),
        channel(1, 1, 1, 1, 1),
    ];
    let late = table_net(alloc, &[4, 5], &lines, false)?;
    check(&rt, alloc, late, (26_664, 10, 1))
}

// By hand: y fires without a pause from 4 on; x fires at 0, 4, 8, 12 and 16, and then waits for each second end of y.
#[test]
fn a_table_has_the_firings_of_its_loop(rt: HostRuntime) -> Result<(), Fail> {
    let net = multi_rate_ring(rt.alloc())?;
    let table = run_net(&rt, rt.alloc(), &net, 20_000)??;
    check_table(&rt, &table);
    Ok(())
}

fn check_table(rt: &impl Abort, table: &LoopTable) {
    assert!(rt; (table.entry, table.period, table.rounds) == (24, 10, 1));
    assert!(rt; table.before.as_slice() == [6, 5].as_slice());
    assert!(rt; table.starts.len() == 2);
    assert!(rt; table.starts.as_slice()[0].as_slice() == [34].as_slice());
    assert!(rt; table.starts.as_slice()[1].as_slice() == [29, 34].as_slice());
}
