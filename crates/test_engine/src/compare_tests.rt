ghost use Rattle.std.specs.Prelude.{◌≤◌, ◌^◌, ◌<◌};

use crate::checks::is_live;
use crate::engine_tests::half_blocked;
use crate::run::{PlainRun, run_until};
use firing::{Firing, SdfNet, Wired, Wiring};
use selftimed::{Engine, Move, Shape, Stage};
use std::alloc::Global;
use std::process::Abort;
use std::test::Fail;
use test_nets::{
    TableError, blocked_pair, channel, drawn_net, multi_rate_ring, ring_of_two, table_net,
    three_at_once,
};

/// Steps an engine up to a moment, and compares each event with the plain run. Tells whether the execution goes on.
pub(crate) fn compare<F: Firing>(
    rt: &impl Abort,
    alloc: Global,
    net: &F,
    last: u64,
) -> Result<bool, Fail>
    requires { last < 2 ^ 62 }
{
    let Some(plain) = run_until(alloc, net, last)? else {
        panic!(rt; "too many starts");
    };
    compare_with(rt, alloc, net, &plain, last)
}

/// Steps an engine of a net up to a moment, and compares each event with a plain run of the net.
fn compare_with<F: Firing>(
    rt: &impl Abort,
    alloc: Global,
    net: &F,
    plain: &PlainRun,
    last: u64,
) -> Result<bool, Fail>
    requires { last < 2 ^ 62 }
{
    let wiring = Wiring::new(alloc, net)?;
    let wired = Wired {
        net,
        wiring: &wiring,
    };
    let mut engine = Engine::of_wired(alloc, &wired, 1_000_000)?;
    compare_on(rt, alloc, &mut engine, plain, last)
}

/// Compares an engine of a net with the plain run up to moment 60. Tells whether the execution goes on.
fn goes_on(rt: &impl Abort, alloc: Global, net: SdfNet) -> Result<bool, Fail> {
    compare(rt, alloc, &net, 60)
}

/// Steps an engine that stands before its first event, and compares each with the plain run.
fn compare_on<F: Firing>(
    rt: &impl Abort,
    alloc: Global,
    engine: &mut Engine<'_, F>,
    plain: &PlainRun,
    last: u64,
) -> Result<bool, Fail>
    requires { last < 2 ^ 62 }
{
    let mut next = plain.first_event();
    for _event in 0..last + 2 {
        let step = engine.advance()?;
        let Some(event) = next else {
            assert!(rt; step == Move::Stuck);
            return Ok(false);
        };
        if event > last {
            return Ok(true);
        }
        assert!(rt; step == Move::Stepped);
        assert!(rt; engine.moment() == event);
        compare_event(rt, alloc, engine, plain, event)?;
        next = plain.next_end(event);
    }
    panic!(rt; "more events than moments")
}

fn compare_event<F: Firing>(
    rt: &impl Abort,
    alloc: Global,
    engine: &Engine<'_, F>,
    plain: &PlainRun,
    event: u64,
) -> Result<(), Fail> {
    compare_starts(rt, engine, plain, event);
    let shape = plain.shape_at(alloc, engine.net, event)?;
    compare_shapes(rt, alloc, engine, &shape)
}

fn compare_starts<F: Firing>(rt: &impl Abort, engine: &Engine<'_, F>, plain: &PlainRun, now: u64) {
    for actor in 0..engine.net.actors() {
        let started = engine.started(actor);
        assert!(rt; started == plain.started_by(actor, now) as u64);
    }
}

fn compare_shapes<F: Firing>(
    rt: &impl Abort,
    alloc: Global,
    engine: &Engine<'_, F>,
    want: &Shape,
) -> Result<(), Fail> {
    assert!(rt; engine.stage == Stage::Running);
    assert!(rt; engine.same_shape(want));
    let shape = engine.shape(alloc)?;
    compare_lists(rt, &shape, want);
    Ok(())
}

fn compare_lists(rt: &impl Abort, shape: &Shape, want: &Shape) {
    assert!(rt; shape.tokens.as_slice() == want.tokens.as_slice());
    assert!(rt; shape.phases.as_slice() == want.phases.as_slice());
    let left = shape.remaining.as_slice();
    assert!(rt; left.len() == want.remaining.len());
    for (actor, times) in want.remaining.as_slice().iter().enumerate() {
        assert!(rt; left[actor].as_slice() == times.as_slice());
    }
}

#[test]
fn the_engine_runs_as_the_plain_program(rt: HostRuntime) -> Result<(), Fail> {
    let alloc = rt.alloc();
    assert!(rt; goes_on(&rt, alloc, ring_of_two(alloc)?)?);
    assert!(rt; goes_on(&rt, alloc, three_at_once(alloc)?)?);
    assert!(rt; goes_on(&rt, alloc, multi_rate_ring(alloc)?)?);
    assert!(rt; !goes_on(&rt, alloc, blocked_pair(alloc)?)?);
    assert!(rt; !goes_on(&rt, alloc, half_blocked(alloc)?)?);
    Ok(())
}

/// A first actor with three channels to itself, of rates 1, 2 and 1, and a second one with one of rates 1.
fn three_self_loops(alloc: Global, tokens: [u64; 3]) -> Result<SdfNet, TableError> {
    let lines = [
        channel(0, 1, 1, 0, tokens[0]),
        channel(0, 2, 2, 0, tokens[1]),
        channel(0, 2, 1, 1, 0),
        channel(0, 1, 1, 0, tokens[2]),
        channel(1, 1, 1, 1, 2),
        channel(1, 1, 2, 0, 7),
    ];
    table_net(alloc, &[3, 2], &lines, false)
}

/// The first actor can fire exactly where each of its channels to itself has the tokens for a firing.
#[test]
fn channels_of_an_actor_to_itself_run_as_the_plain_program(rt: HostRuntime) -> Result<(), Fail> {
    let alloc = rt.alloc();
    let cases = [
        ([1, 2, 1], true),
        ([2, 6, 3], true),
        ([3, 4, 1], true),
        ([3, 3, 2], true),
        ([0, 2, 1], false),
        ([1, 1, 1], false),
        ([1, 2, 0], false),
    ];
    for (tokens, fires) in cases {
        let net = three_self_loops(alloc, tokens)?;
        let goes_on = goes_on(&rt, alloc, net)?;
        assert!(rt; goes_on == fires);
    }
    Ok(())
}

/// Compares an engine of a net with the plain run. Tells whether the execution goes on, which it does exactly where a round of
/// the net can be completed.
fn is_live_and_goes_on(rt: &impl Abort, alloc: Global, net: SdfNet) -> Result<bool, Fail> {
    let is_live = is_live(alloc, &net)?;
    let goes_on = compare(rt, alloc, &net, 60)?;
    assert!(rt; goes_on == is_live);
    Ok(is_live)
}

#[test]
fn drawn_nets_run_as_the_plain_program(rt: HostRuntime) -> Result<(), Fail> {
    let alloc = rt.alloc();
    let mut live = 0u32;
    for seed in 0..60 {
        let net = drawn_net(alloc, seed)?;
        if is_live_and_goes_on(&rt, alloc, net)? {
            live = live.saturating_add(1);
        }
    }
    assert!(rt; (15..=45).contains(&live), "live: {live}");
    Ok(())
}
