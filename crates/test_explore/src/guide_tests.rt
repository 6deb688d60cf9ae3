use crate::evaluable::evaluated;
use crate::nets::chain;
use firing::LoopTable;
use guide::{Evaluation, Outcome};
use sd_base::Rows;
use std::alloc::{AllocError, Global};
use std::process::Abort;
use std::test::Fail;
use storage::Distribution;

/// How many passes a firing is read later, so that none is read before the loop.
const PASSES: u64 = 1000;

/// A channel `source made -> taken target` without tokens, from one actor of one phase to another. Its target takes `time`
/// time units.
struct Link {
    source: usize,
    made: u64,
    taken: u64,
    target: usize,
    time: u64,
}

/// The channels of the chain.
const ALPHA: Link = Link {
    source: 0,
    made: 2,
    taken: 3,
    target: 1,
    time: 2,
};

const BETA: Link = Link {
    source: 1,
    made: 1,
    taken: 2,
    target: 2,
    time: 2,
};

/// The start of a firing, so many passes later.
fn start(table: &LoopTable, actor: usize, firing: u64) -> Option<u64> {
    let starts = table.starts.as_slice().get(actor)?;
    let before = table.before.as_slice().get(actor)?;
    let pass = starts.len() as u64;
    let place = firing
        .saturating_add(PASSES.saturating_mul(pass))
        .saturating_sub(*before);
    let first = starts.as_slice().get(place.checked_rem(pass)? as usize)?;
    let later = place.checked_div(pass)?.saturating_mul(table.period);
    Some(first.saturating_add(later))
}

/// Whether a firing of the second pass of a channel's source starts just when the firing of its target ends that frees the
/// last space which it needs.
fn holds_up(table: &LoopTable, link: &Link, room: u64) -> bool {
    let (Some(starts), Some(before)) = (
        table.starts.as_slice().get(link.source),
        table.before.as_slice().get(link.source),
    ) else {
        return false;
    };
    let pass = starts.len() as u64;
    for place in 0..pass {
        let firing = before.saturating_add(pass).saturating_add(place);
        let claimed = firing.saturating_add(1).saturating_mul(link.made);
        let lacking = claimed.saturating_sub(room);
        if lacking > 0 {
            let freeing = lacking
                .saturating_sub(1)
                .checked_div(link.taken)
                .unwrap_or(0);
            let freed = start(table, link.target, freeing);
            let starts = start(table, link.source, firing);
            if freed.map(|moment| moment.saturating_add(link.time)) == starts {
                return true;
            }
        }
    }
    false
}

/// The guide of a live distribution of the chain: the channels that hold up a firing.
fn guide(alloc: Global, table: &LoopTable, rooms: (u64, u64)) -> Result<Vec<u32>, AllocError> {
    let mut channels = Vec::new(alloc);
    if holds_up(table, &ALPHA, rooms.0) {
        channels.push(0)?;
    }
    if holds_up(table, &BETA, rooms.1) {
        channels.push(1)?;
    }
    Ok(channels)
}

/// How often each actor of the chain fires in a round.
const ROUND: [u64; 3] = [3, 2, 1];

/// The guide of counts that block the chain: the channels on which an actor short of its round, with the tokens for one more
/// firing, lacks space for it. No channel leads to the first actor.
fn blocked_guide(alloc: Global, counts: &[u64], rooms: (u64, u64)) -> Result<Vec<u32>, AllocError> {
    let mut channels = Vec::new(alloc);
    let [a, b, c] = counts else {
        return Ok(channels);
    };
    if *a < ROUND[0] && lacks_space(&ALPHA, *a, *b, rooms.0) {
        channels.push(0)?;
    }
    if *b < ROUND[1] && has_tokens(&ALPHA, *a, *b) && lacks_space(&BETA, *b, *c, rooms.1) {
        channels.push(1)?;
    }
    Ok(channels)
}

/// Whether a channel lacks space for one more firing of its source, after so many firings of its ends.
fn lacks_space(link: &Link, made: u64, taken: u64, room: u64) -> bool {
    let claimed = made.saturating_add(1).saturating_mul(link.made);
    room.saturating_add(taken.saturating_mul(link.taken)) < claimed
}

/// Whether a channel has the tokens for one more firing of its target, after so many firings of its ends.
fn has_tokens(link: &Link, made: u64, taken: u64) -> bool {
    let wanted = taken.saturating_add(1).saturating_mul(link.taken);
    wanted <= made.saturating_mul(link.made)
}

/// What is wanted of a distribution of the chain: of a live one the entry and the period of its loop, which is a round long, the
/// channels to enlarge, and the guide.
#[derive(Clone, Copy)]
struct Wanted<'a> {
    rooms: (u64, u64),
    looped: Option<(u64, u64)>,
    enlarge: &'a [u32],
    guide: &'a [u32],
}

/// What is evaluated of a distribution of the chain.
fn evaluation(rt: &impl Abort, alloc: Global, rooms: (u64, u64)) -> Result<Evaluation, Fail> {
    let net = chain(alloc, (1, 1))?;
    let capacities = Distribution {
        capacities: Rows::from_vec(Vec::from_slice(alloc, &[Some(rooms.0), Some(rooms.1)])?),
    };
    Ok(evaluated(rt, alloc, &net, &capacities)?)
}

/// Asserts that a distribution is evaluated as wanted.
fn check(rt: &impl Abort, alloc: Global, wanted: &Wanted<'_>) -> Result<(), Fail> {
    let found = evaluation(rt, alloc, wanted.rooms)?;
    compare(rt, alloc, &found, wanted)
}

fn compare(
    rt: &impl Abort,
    alloc: Global,
    found: &Evaluation,
    wanted: &Wanted<'_>,
) -> Result<(), Fail> {
    assert!(rt; found.enlarge.as_slice() == wanted.enlarge);
    let rate = (found.rate.num(), found.rate.den());
    let guide = match (&found.outcome, wanted.looped) {
        (Outcome::Live { table, cycle: _ }, Some(looped)) => {
            assert!(rt; (table.entry, table.period) == looped);
            assert!(rt; rate == (1, looped.1));
            guide(alloc, table, wanted.rooms)?
        }
        (Outcome::Blocked { counts, lacks: _ }, None) => {
            assert!(rt; rate == (0, 1));
            assert!(rt; counts.as_slice() == [1, 0, 0].as_slice());
            blocked_guide(alloc, counts.as_slice(), wanted.rooms)?
        }
        _ => panic!(rt; "one is live and the other blocked"),
    };
    assert!(rt; guide.as_slice() == wanted.guide);
    Ok(())
}

// At (3, 2) the first firing of a leaves room for one token, and it needs two.
#[test]
fn counts_show_the_guide_of_a_blocked_distribution(rt: HostRuntime) -> Result<(), Fail> {
    let wanted = Wanted {
        rooms: (3, 2),
        looped: None,
        enlarge: &[0],
        guide: &[0],
    };
    check(&rt, rt.alloc(), &wanted)
}

// With any of these capacities a fires at 0 and 1, and its third firing waits until b ends at 4; so shapes come again from 2 on.
#[test]
fn a_cycle_shows_channels_of_the_guide(rt: HostRuntime) -> Result<(), Fail> {
    let cases: [((u64, u64), &[u32], &[u32]); 3] = [
        ((4, 2), &[0], &[0, 1]),
        ((5, 2), &[0, 1], &[0, 1]),
        ((4, 3), &[0], &[0]),
    ];
    for (rooms, enlarge, guide) in cases {
        let wanted = Wanted {
            rooms,
            looped: Some((2, 7)),
            enlarge,
            guide,
        };
        check(&rt, rt.alloc(), &wanted)?;
    }
    Ok(())
}
