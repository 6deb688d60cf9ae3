use circular_waits::circular_wait;
use firing::SdfNet;
use liveness::{Round, one_round};
use std::alloc::Global;
use std::process::Abort;
use std::test::Fail;
use test_nets::{Line, blocked_pair, channel, table_net};

/// Tests the channels of the circular wait that is found in a net.
fn check_wait(rt: &impl Abort, alloc: Global, net: &SdfNet, want: &[u32]) -> Result<(), Fail> {
    let Round::Blocked { counts, lacks } = one_round(alloc, net)? else {
        panic!(rt; "live");
    };
    let channels = circular_wait(alloc, net, counts.as_slice(), lacks.as_slice())?;
    assert!(rt; channels.as_slice() == want);
    Ok(())
}

/// Tests it in a net whose actors have the time 1, by the table of its channels.
fn check_lines(
    rt: &impl Abort,
    alloc: Global,
    times: &[u64],
    lines: &[Line],
    want: &[u32],
) -> Result<(), Fail> {
    let net = table_net(alloc, times, lines, false)?;
    check_wait(rt, alloc, &net, want)
}

#[test]
fn two_actors_wait_for_each_other(rt: HostRuntime) -> Result<(), Fail> {
    let alloc = rt.alloc();
    // Both channels are empty.
    check_wait(&rt, alloc, &blocked_pair(alloc)?, &[1, 0])?;
    // The first actor has filled a channel with room for three by 2 tokens, and the second one takes 3.
    let full = [channel(0, 2, 3, 1, 0), channel(1, 3, 2, 0, 3)];
    check_lines(&rt, alloc, &[1, 1], &full, &[1, 0])?;
    Ok(())
}

#[test]
fn an_actor_waits_for_itself(rt: HostRuntime) -> Result<(), Fail> {
    let alloc = rt.alloc();
    check_lines(&rt, alloc, &[1], &[channel(0, 2, 2, 0, 1)], &[0])
}

#[test]
fn the_way_to_a_ring_of_three_is_left_out(rt: HostRuntime) -> Result<(), Fail> {
    let alloc = rt.alloc();
    // Actor 0 waits for 1, 1 for 2, 2 for 3, and 3 for 1.
    let ring = [
        channel(1, 1, 1, 0, 0),
        channel(2, 1, 1, 1, 0),
        channel(3, 1, 1, 2, 0),
        channel(1, 1, 1, 3, 0),
    ];
    check_lines(&rt, alloc, &[1, 1, 1, 1], &ring, &[1, 2, 3])
}

#[test]
fn of_two_it_is_that_to_which_first_channels_lead(rt: HostRuntime) -> Result<(), Fail> {
    let alloc = rt.alloc();
    // Actor 0 lacks tokens from 2 and from 1; 1 waits for 0, and 2 and 3 for each other.
    let first = [
        channel(2, 1, 1, 0, 0),
        channel(1, 1, 1, 0, 0),
        channel(0, 1, 1, 1, 0),
        channel(2, 1, 1, 3, 0),
        channel(3, 1, 1, 2, 0),
    ];
    check_lines(&rt, alloc, &[1, 1, 1, 1], &first, &[3, 4])?;
    // The same with the first two channels exchanged.
    let other = [
        channel(1, 1, 1, 0, 0),
        channel(2, 1, 1, 0, 0),
        channel(0, 1, 1, 1, 0),
        channel(2, 1, 1, 3, 0),
        channel(3, 1, 1, 2, 0),
    ];
    check_lines(&rt, alloc, &[1, 1, 1, 1], &other, &[0, 2])
}
