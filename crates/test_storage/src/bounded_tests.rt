use crate::checks::bounded;
use crate::distribution_tests::distribution;
use crate::nets::{chain, even_rates};
use firing::{Firing, Port, port_phases};
use sd_base::Role;
use std::process::Abort;
use std::test::Fail;

/// A channel of a net of one phase an actor: the ends with their rates, tokens, size and role.
#[derive(Clone, Copy, Debug, PartialEq)]
struct Row {
    source: u32,
    made: u64,
    taken: u64,
    target: u32,
    tokens: u64,
    size: u64,
    role: Role,
}

fn channel_row<F: Firing>(rt: &impl Abort, net: &F, channel: u32) -> Row {
    assert!(rt; channel < net.channels());
    let phases = (
        port_phases(net, channel, Port::Made),
        port_phases(net, channel, Port::Taken),
    );
    assert_eq!(rt; phases, (1, 1));
    Row {
        source: net.source(channel),
        made: net.made(channel, 0),
        taken: net.taken(channel, 0),
        target: net.target(channel),
        tokens: net.tokens(channel),
        size: net.size(channel),
        role: net.role(channel),
    }
}

/// The time of an actor of one phase, and its firings in a round.
fn actor_row<F: Firing>(rt: &impl Abort, net: &F, actor: u32) -> (u64, u64) {
    assert!(rt; actor < net.actors());
    assert!(rt; net.phases(actor) == 1);
    (net.time(actor, 0), net.round(actor))
}

// A firing of a takes the room of its 2 tokens at its start, and one of b gives back that of its 3 at its end.
#[test]
fn a_bounded_chain_has_a_space_channel_for_each_capacity(rt: HostRuntime) -> Result<(), Fail> {
    let net = chain(rt.alloc())?;
    let capacities = distribution(rt.alloc(), &[Some(4), Some(2)])?;
    let with_room = bounded(&rt, rt.alloc(), &net, &capacities)?;
    assert_eq!(rt; (with_room.actors(), with_room.channels()), (3, 7));
    for actor in 0..3 {
        let seen = actor_row(&rt, &with_room, actor);
        assert_eq!(rt; seen, actor_row(&rt, &net, actor));
    }
    assert_eq!(rt; actor_row(&rt, &with_room, 0), (1, 3));
    for channel in 0..5 {
        assert_eq!(rt;
            channel_row(&rt, &with_room, channel),
            channel_row(&rt, &net, channel)
        );
    }
    let alpha = Row {
        source: 1,
        made: 3,
        taken: 2,
        target: 0,
        tokens: 4,
        size: 1,
        role: Role::Space(0),
    };
    let beta = Row {
        source: 2,
        made: 2,
        taken: 1,
        target: 1,
        tokens: 2,
        size: 1,
        role: Role::Space(1),
    };
    assert_eq!(rt; channel_row(&rt, &with_room, 5), alpha);
    assert_eq!(rt; channel_row(&rt, &with_room, 6), beta);
    Ok(())
}

// Of 9 tokens of room one is taken at the start.
#[test]
fn tokens_take_room_from_the_start(rt: HostRuntime) -> Result<(), Fail> {
    let net = even_rates(rt.alloc())?;
    let capacities = distribution(rt.alloc(), &[Some(9), None])?;
    let with_room = bounded(&rt, rt.alloc(), &net, &capacities)?;
    let space = Row {
        source: 1,
        made: 6,
        taken: 4,
        target: 0,
        tokens: 8,
        size: 5,
        role: Role::Space(0),
    };
    assert_eq!(rt; with_room.channels(), 3);
    assert_eq!(rt; channel_row(&rt, &with_room, 2), space);
    Ok(())
}
