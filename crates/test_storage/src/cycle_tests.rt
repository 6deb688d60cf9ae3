use crate::checks::bounded;
use crate::distribution_tests::distribution;
use critical::{CycleStep, CycleSteps, FiringNo, NeedCycle};
use firing::Firing;
use sd_base::{NoMemory, Rows};
use std::alloc::Global;
use std::process::Abort;
use std::test::Fail;
use test_nets::{channel, ring_of_two, table_net};

/// A step along a channel to a firing of an actor.
fn along(channel: u32, actor: u32, number: u64) -> CycleStep {
    CycleStep {
        channel,
        to: FiringNo { actor, number },
    }
}

/// The cycle of these steps from firing 0 of actor 0.
fn cycle(
    alloc: Global,
    steps: &[CycleStep],
    time: u64,
    rounds: u64,
) -> Result<NeedCycle, NoMemory> {
    let mut listed = CycleSteps::new(alloc);
    for step in steps {
        listed.push(*step)?;
    }
    let first = FiringNo {
        actor: 0,
        number: 0,
    };
    Ok(NeedCycle {
        time,
        rounds,
        first,
        steps: listed,
    })
}

/// The storage channels of a cycle that holds on a net.
fn storage_of<F: Firing>(
    rt: &impl Abort,
    alloc: Global,
    net: &F,
    cycle: &NeedCycle,
) -> Result<Rows<u32>, Fail> {
    assert!(rt; cycle.holds(net));
    Ok(cycle.storage_channels(alloc, net)?)
}

/// Asserts the storage channels of a cycle that holds on a net.
fn check<F: Firing>(
    rt: &impl Abort,
    alloc: Global,
    net: &F,
    cycle: &NeedCycle,
    channels: &[u32],
) -> Result<(), Fail> {
    let storage = storage_of(rt, alloc, net, cycle)?;
    assert_eq!(rt; storage.as_slice(), channels);
    Ok(())
}

// Two channels side by side have room for one token each: actor 1 waits for actor 0 on channels 0 and 1, and actor 0 for
// actor 1 on their spaces, which are channels 2 and 3.
#[test]
fn spaces_on_a_cycle_are_its_storage(rt: HostRuntime) -> Result<(), Fail> {
    let alloc = rt.alloc();
    let net = table_net(alloc, &[1, 1], &[channel(0, 1, 1, 1, 0); 2], false)?;
    let capacities = distribution(alloc, &[Some(1), Some(1)])?;
    let with_room = bounded(&rt, alloc, &net, &capacities)?;
    let steps = [
        along(0, 1, 0),
        along(3, 0, 1),
        along(1, 1, 1),
        along(2, 0, 2),
    ];
    let both = cycle(alloc, &steps, 4, 2)?;
    check(&rt, alloc, &with_room, &both, &[0, 1])?;
    let one = cycle(alloc, &[along(1, 1, 0), along(3, 0, 1)], 2, 1)?;
    check(&rt, alloc, &with_room, &one, &[1])
}

// In the ring the second channel is one of the file.
#[test]
fn tokens_of_a_file_are_no_storage(rt: HostRuntime) -> Result<(), Fail> {
    let alloc = rt.alloc();
    let round = cycle(alloc, &[along(0, 1, 0), along(1, 0, 1)], 5, 1)?;
    assert!(rt; storage_of(&rt, alloc, &ring_of_two(alloc)?, &round)?.is_empty());
    Ok(())
}
