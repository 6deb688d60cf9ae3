ghost use Rattle.std.specs.Prelude.{◌^◌, ◌≤◌};

use firing::{Firing, SdfNet, Wired, Wiring};
use liveness::{Round, one_round};
use sd_base::NoMemory;
use selftimed::{Engine, Move, Shape, Stage};
use std::alloc::Global;
use std::process::Abort;
use std::test::Fail;
use test_nets::{blocked_pair, channel, multi_rate_ring, ring_of_two, table_net, three_at_once};

/// What stands at an event after its starts: by actor how many firings have started, by channel the tokens, by actor the
/// times that its running firings have left, and by actor the phase of its next firing, if any isn't the first one.
#[derive(Clone, Copy)]
pub(crate) struct Event<'a> {
    pub(crate) moment: u64,
    pub(crate) started: &'a [u64],
    pub(crate) tokens: &'a [u128],
    pub(crate) left: &'a [&'a [u64]],
    pub(crate) phases: &'a [u32],
}

/// An event of a net whose actors have one phase.
fn at<'a>(moment: u64, started: &'a [u64], tokens: &'a [u128], left: &'a [&'a [u64]]) -> Event<'a> {
    Event {
        moment,
        started,
        tokens,
        left,
        phases: &[],
    }
}

/// Steps an engine through events.
pub(crate) fn follow<F: Firing>(
    rt: &impl Abort,
    alloc: Global,
    net: &F,
    events: &[Event],
) -> Result<(), Fail> {
    let wiring = Wiring::new(alloc, net)?;
    let wired = Wired {
        net,
        wiring: &wiring,
    };
    let mut engine = Engine::of_wired(alloc, &wired, 1000)?;
    follow_on(rt, alloc, &mut engine, events)
}

/// Steps an engine that stands before the first of some events through these.
fn follow_on<F: Firing>(
    rt: &impl Abort,
    alloc: Global,
    engine: &mut Engine<'_, F>,
    events: &[Event],
) -> Result<(), Fail> {
    for event in events {
        let step = engine.advance()?;
        assert!(rt; step == Move::Stepped);
        assert!(rt; engine.moment() == event.moment);
        check_starts(rt, engine, event);
        check_shape(rt, alloc, engine, event)?;
    }
    Ok(())
}

fn check_starts<F: Firing>(rt: &impl Abort, engine: &Engine<'_, F>, event: &Event) {
    assert!(rt; event.started.len() == engine.net.actors() as usize);
    for (actor, started) in event.started.iter().enumerate() {
        assert!(rt; engine.started(actor as u32) == *started);
    }
}

fn check_shape<F: Firing>(
    rt: &impl Abort,
    alloc: Global,
    engine: &Engine<'_, F>,
    event: &Event,
) -> Result<(), Fail> {
    assert!(rt; engine.stage == Stage::Running);
    let shape = engine.shape(alloc)?;
    check_lists(rt, &shape, event);
    assert!(rt; engine.same_shape(&shape));
    Ok(())
}

fn check_lists(rt: &impl Abort, shape: &Shape, event: &Event) {
    assert!(rt; shape.tokens.as_slice() == event.tokens);
    check_phases(rt, shape.phases.as_slice(), event.phases);
    let left = shape.remaining.as_slice();
    assert!(rt; left.len() == event.left.len());
    for (actor, times) in event.left.iter().enumerate() {
        assert!(rt; left[actor].as_slice() == *times);
    }
}

fn check_phases(rt: &impl Abort, phases: &[u32], wanted: &[u32]) {
    if wanted.is_empty() {
        assert!(rt; phases.iter().all(|phase| *phase == 0));
    } else {
        assert!(rt; phases == wanted);
    }
}

// By hand. Before the first event the one token of the ring lies on the channel back, and nothing has started; the first event
// takes it. What stands first isn't what stands after it.
#[test]
fn an_engine_has_a_shape_before_its_first_event(rt: HostRuntime) -> Result<(), Fail> {
    let net = ring_of_two(rt.alloc())?;
    let mut engine = Engine::new(rt.alloc(), &net, 1000)?;
    step_from_first(&rt, rt.alloc(), &mut engine)
}

fn step_from_first(
    rt: &impl Abort,
    alloc: Global,
    engine: &mut Engine<'_, SdfNet>,
) -> Result<(), Fail> {
    assert!(rt; engine.stage == Stage::Fresh);
    let first = engine.shape(alloc)?;
    check_first(rt, &first);
    assert!(rt; engine.same_shape(&first));
    let step = engine.advance()?;
    assert!(rt; step == Move::Stepped);
    assert!(rt; engine.stage == Stage::Running);
    assert!(rt; !engine.same_shape(&first));
    Ok(())
}

fn check_first(rt: &impl Abort, shape: &Shape) {
    assert!(rt; shape.tokens.as_slice() == [0, 1].as_slice());
    assert!(rt; shape.phases.as_slice() == [0, 0].as_slice());
    assert!(rt; shape.remaining.len() == 2);
    assert!(rt; shape.remaining.as_slice().iter().all(|row| row.is_empty()));
}

// By hand. In the ring x starts at 0 with the one token, ends at 2 and lets y start, which ends at 5 and lets x start. Three
// tokens let three firings start at 0; they end at 7, and three more start.
#[test]
fn small_nets_fire_in_turn(rt: HostRuntime) -> Result<(), Fail> {
    let alloc = rt.alloc();
    let ring = [
        at(0, &[1, 0], &[0, 0], &[&[2], &[]]),
        at(2, &[1, 1], &[0, 0], &[&[], &[3]]),
        at(5, &[2, 1], &[0, 0], &[&[2], &[]]),
        at(7, &[2, 2], &[0, 0], &[&[], &[3]]),
    ];
    follow(&rt, alloc, &ring_of_two(alloc)?, &ring)?;
    let three = [
        at(0, &[3], &[0], &[&[7, 7, 7]]),
        at(7, &[6], &[0], &[&[7, 7, 7]]),
    ];
    follow(&rt, alloc, &three_at_once(alloc)?, &three)
}

/// The tokens are those of p, q, sx and sy. Up to 16 actor x starts at each of its ends, with 8 tokens on q for four
/// firings and one more from the tokens that y gives back at 9 and 14; from 20 on it waits for two ends of y. At 34
/// all stands as at 24.
#[test]
fn multi_rate_ring_enters_its_loop_at_24(rt: HostRuntime) -> Result<(), Fail> {
    let net = multi_rate_ring(rt.alloc())?;
    let events = [
        at(0, &[1, 0], &[0, 6, 0, 1], &[&[4], &[]]),
        at(4, &[2, 1], &[1, 4, 0, 0], &[&[4], &[5]]),
        at(8, &[3, 1], &[3, 2, 0, 0], &[&[4], &[1]]),
        at(9, &[3, 2], &[2, 3, 0, 0], &[&[3], &[5]]),
        at(12, &[4, 2], &[4, 1, 0, 0], &[&[4], &[2]]),
        at(14, &[4, 3], &[3, 2, 0, 0], &[&[2], &[5]]),
        at(16, &[5, 3], &[5, 0, 0, 0], &[&[4], &[3]]),
        at(19, &[5, 4], &[4, 1, 0, 0], &[&[1], &[5]]),
        at(20, &[5, 4], &[6, 1, 1, 0], &[&[], &[4]]),
        at(24, &[6, 5], &[5, 0, 0, 0], &[&[4], &[5]]),
        at(28, &[6, 5], &[7, 0, 1, 0], &[&[], &[1]]),
        at(29, &[6, 6], &[6, 1, 1, 0], &[&[], &[5]]),
        at(34, &[7, 7], &[5, 0, 0, 0], &[&[4], &[5]]),
    ];
    follow(&rt, rt.alloc(), &net, &events)
}

/// Three actors with rounds of 1, 2 and 1 firings. The second fires once with the token that is there; then the first
/// lacks tokens on channels 1 and 2, and the second on channel 0. The third has fired its round.
pub(crate) fn half_blocked(alloc: Global) -> Result<SdfNet, test_nets::TableError> {
    let lines = [
        channel(0, 2, 1, 1, 1),
        channel(1, 1, 2, 0, 0),
        channel(0, 1, 1, 0, 0),
        channel(2, 1, 1, 0, 0),
        channel(0, 1, 1, 2, 1),
    ];
    table_net(alloc, &[1, 1, 1], &lines, false)
}

/// Steps an engine of a net as often as there are moves, which these steps have to be. Tells where it then stands.
fn moves(
    rt: &impl Abort,
    alloc: Global,
    net: SdfNet,
    wanted: &[Move],
) -> Result<(u64, Stage), Fail> {
    let mut engine = Engine::new(alloc, &net, 1000)?;
    move_on(rt, &mut engine, wanted)?;
    Ok((engine.moment(), engine.stage))
}

fn move_on(rt: &impl Abort, engine: &mut Engine<'_, SdfNet>, wanted: &[Move]) -> Result<(), Fail> {
    for want in wanted {
        let step = engine.advance()?;
        assert!(rt; step == *want);
    }
    Ok(())
}

#[test]
fn what_cannot_start_is_stuck(rt: HostRuntime) -> Result<(), Fail> {
    for calls in 1..3 {
        let stuck = [Move::Stuck, Move::Stuck];
        let pair = blocked_pair(rt.alloc())?;
        let (_, stage) = moves(&rt, rt.alloc(), pair, &stuck[..calls])?;
        assert!(rt; stage == Stage::Fresh);
    }
    // The second and the third actor start at 0 and end at 1.
    let half = half_blocked(rt.alloc())?;
    let steps = [Move::Stepped, Move::Stepped, Move::Stuck, Move::Stuck];
    let (moment, _) = moves(&rt, rt.alloc(), half, &steps)?;
    assert!(rt; moment == 1);
    Ok(())
}

/// Whether an engine of at most `most` starts steps so often, and is spent from then on.
fn is_spent_after(alloc: Global, net: SdfNet, most: u64, steps: u32) -> Result<bool, Fail>
    requires { most ≤ 2 ^ 32 }
{
    let mut engine = Engine::new(alloc, &net, most)?;
    Ok(goes_on(&mut engine, steps, Move::Stepped)? && goes_on(&mut engine, 3, Move::Spent)?)
}

/// Whether so many steps of an engine are the same move.
fn goes_on(engine: &mut Engine<'_, SdfNet>, steps: u32, same: Move) -> Result<bool, Fail> {
    for _step in 0..steps {
        if engine.advance()? != same {
            return Ok(false);
        }
    }
    Ok(true)
}

#[test]
fn too_many_starts_spend_an_engine(rt: HostRuntime) -> Result<(), Fail> {
    let alloc = rt.alloc();
    assert!(rt; is_spent_after(alloc, ring_of_two(alloc)?, 0, 0)?);
    assert!(rt;
        is_spent_after(alloc, ring_of_two(alloc)?, 2, 2)?,
        "starts at 0, 2 and 5"
    );
    assert!(rt; is_spent_after(alloc, three_at_once(alloc)?, 2, 0)?);
    assert!(rt; is_spent_after(alloc, three_at_once(alloc)?, 5, 1)?);
    let no_input = table_net(alloc, &[1, 1], &[channel(0, 1, 1, 1, 0)], false)?;
    assert!(rt; is_spent_after(alloc, no_input, 1000, 0)?);
    Ok(())
}

/// Whether a round of a net is completed by firings of these actors, one after another.
pub(crate) fn fires<F: Firing>(alloc: Global, net: &F, wanted: &[u32]) -> Result<bool, NoMemory> {
    let round = one_round(alloc, net)?;
    Ok(match &round {
        Round::Live { order } => order.as_slice() == wanted,
        Round::Blocked { .. } => false,
    })
}

/// Whether a round of a net is blocked after so many firings of each actor, which then lacks tokens on these channels.
fn is_blocked(
    alloc: Global,
    net: &SdfNet,
    wanted: &[u64],
    lacking: &[Option<u32>],
) -> Result<bool, NoMemory> {
    let round = one_round(alloc, net)?;
    Ok(match &round {
        Round::Live { .. } => false,
        Round::Blocked { counts, lacks } => {
            counts.as_slice() == wanted && lacks.as_slice() == lacking
        }
    })
}

fn check_order(rt: &impl Abort, alloc: Global, net: SdfNet, wanted: &[u32]) -> Result<(), Fail> {
    let fires = fires(alloc, &net, wanted)?;
    assert!(rt; fires);
    Ok(())
}

fn check_block(
    rt: &impl Abort,
    alloc: Global,
    net: SdfNet,
    wanted: &[u64],
    lacking: &[Option<u32>],
) -> Result<(), Fail> {
    let is_blocked = is_blocked(alloc, &net, wanted, lacking)?;
    assert!(rt; is_blocked);
    Ok(())
}

#[test]
fn one_round_fires_each_actor_as_often_as_its_round(rt: HostRuntime) -> Result<(), Fail> {
    let alloc = rt.alloc();
    check_order(&rt, alloc, ring_of_two(alloc)?, &[0, 1])?;
    check_order(&rt, alloc, three_at_once(alloc)?, &[0])?;
    check_order(&rt, alloc, multi_rate_ring(alloc)?, &[0, 1, 1])
}

#[test]
fn blocked_rounds_name_the_first_channels_that_lack(rt: HostRuntime) -> Result<(), Fail> {
    let alloc = rt.alloc();
    let pair = blocked_pair(alloc)?;
    check_block(&rt, alloc, pair, &[0, 0], &[Some(1), Some(0)])?;
    let half = half_blocked(alloc)?;
    check_block(&rt, alloc, half, &[0, 1, 1], &[Some(1), Some(0), None])
}
