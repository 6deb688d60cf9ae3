//! Loops against a body that keeps every shape.
ghost use Rattle.selftimed.specs.declared.engine.Stage.{Stage};
ghost use Rattle.selftimed.specs.declared.engine.Stage.TheVariants.{Running};
ghost use Rattle.std.specs.Prelude.{◌≡◌};

use crate::checks::{run_by_events, run_net};
use firing::{Firing, LoopTable, SdfNet, Wired, Wiring};
use lasso::RunError;
use sd_base::NoMemory;
use selftimed::{Engine, Move, Shape, Stage};
use std::alloc::Global;
use std::process::Abort;
use std::test::Fail;
use test_nets::{multi_rate_ring, ring_of_two};

/// An event: its moment, what stands then, and by actor how many firings have started.
#[derive(Drop)]
struct Seen {
    moment: u64,
    shape: Shape,
    counts: Vec<u64>,
}

/// Steps through the first `states` events and keeps them all, up to and with the first whose shape came before. Tells
/// the place of that earlier one.
fn keep_all(
    rt: &impl Abort,
    alloc: Global,
    net: &SdfNet,
    states: u64,
) -> Result<(Vec<Seen>, Option<usize>), Fail> {
    let wiring = Wiring::new(alloc, net)?;
    let wired = Wired {
        net,
        wiring: &wiring,
    };
    let mut engine = Engine::of_wired(alloc, &wired, 1000)?;
    let mut seen = Vec::new(alloc);
    let before = keep_on(rt, alloc, &mut engine, &mut seen, states)?;
    Ok((seen, before))
}

/// Steps an engine that stands before its first event, and adds each event to those that were seen.
fn keep_on(
    rt: &impl Abort,
    alloc: Global,
    engine: &mut Engine<'_, SdfNet>,
    seen: &mut Vec<Seen>,
    states: u64,
) -> Result<Option<usize>, Fail> {
    for _event in 0..states {
        let step = engine.advance()?;
        assert!(rt; step == Move::Stepped);
        assert!(rt; engine.stage == Stage::Running);
        let before = place_of(engine, seen.as_slice());
        seen.push(seen_at(alloc, engine)?)?;
        if before.is_some() {
            return Ok(before);
        }
    }
    Ok(None)
}

/// What stands at an event.
fn seen_at(alloc: Global, engine: &Engine<'_, SdfNet>) -> Result<Seen, NoMemory>
    requires { engine.now.stage ≡ Running }
{
    Ok(Seen {
        moment: engine.moment(),
        shape: engine.shape(alloc)?,
        counts: counts_of(alloc, engine)?,
    })
}

/// The place of the first event whose shape is what stands now.
fn place_of(engine: &Engine<'_, SdfNet>, seen: &[Seen]) -> Option<usize>
    requires { engine.now.stage ≡ Running }
{
    for (place, event) in seen.iter().enumerate() {
        if engine.same_shape(&event.shape) {
            return Some(place);
        }
    }
    None
}

/// By actor how many firings have started.
fn counts_of(alloc: Global, engine: &Engine<'_, SdfNet>) -> Result<Vec<u64>, NoMemory>
    requires { engine.now.stage ≡ Running }
{
    let mut counts = Vec::new(alloc);
    for actor in 0..engine.net.actors() {
        counts.push(engine.started(actor))?;
    }
    Ok(counts)
}

/// Asserts that a table has the firings between two of these events, as many as its rounds.
fn check_table(rt: &impl Abort, net: &SdfNet, table: &LoopTable, seen: &[Seen], from: usize) {
    assert!(rt; from < seen.len());
    let entry = &seen[from];
    let end = &seen[seen.len() - 1];
    assert!(rt; table.entry == entry.moment);
    assert!(rt; entry.moment <= end.moment);
    assert!(rt; table.period == end.moment - entry.moment);
    assert!(rt; table.before.as_slice() == entry.counts.as_slice());
    assert!(rt; table.starts.len() == entry.counts.len());
    for (actor, row) in table.starts.as_slice().iter().enumerate() {
        check_row(rt, row.as_slice(), &seen[from..], actor);
    }
    check_rounds(rt, net, table);
}

/// Asserts that each actor has the starts of a table's rounds.
fn check_rounds(rt: &impl Abort, net: &SdfNet, table: &LoopTable) {
    for actor in 0..net.actors() {
        let firings = table.rounds.saturating_mul(net.round(actor));
        let row = table.starts.as_slice().get(actor as usize);
        assert!(rt; row.is_some_and(|row| row.len() as u64 == firings));
    }
}

/// Asserts that a row has a start at each of these events but the first for each firing that started then.
fn check_row(rt: &impl Abort, row: &[u64], seen: &[Seen], actor: usize) {
    let mut done = 0usize;
    for place in 1..seen.len() {
        assert!(rt; actor < seen[place].counts.len() && actor < seen[place - 1].counts.len());
        let firings = seen[place].counts[actor].saturating_sub(seen[place - 1].counts[actor]);
        for _firing in 0..firings {
            assert!(rt; done < row.len());
            assert!(rt; row[done] == seen[place].moment);
            done += 1;
        }
    }
    assert!(rt; done == row.len());
}

/// Asserts that an answer is the loop that keeping all shapes finds, or that it finds none.
fn check_answer(
    rt: &impl Abort,
    net: &SdfNet,
    answer: Result<LoopTable, RunError>,
    seen: &[Seen],
    before: Option<usize>,
) {
    match (&answer, before) {
        (Ok(table), Some(from)) => check_table(rt, net, table, seen, from),
        (Err(RunError::StatesSpent), None) => {}
        (_answer, _before) => panic!(rt; "they differ"),
    }
}

/// Asserts that with each of 1 to 20 shapes allowed the loop is the one that keeping all shapes finds, whether it is searched by
/// needs first or by events alone.
fn compare_to_20(rt: &impl Abort, alloc: Global, net: SdfNet) -> Result<(), Fail> {
    for states in 1..21 {
        let (seen, before) = keep_all(rt, alloc, &net, states)?;
        compare_searches(rt, alloc, &net, seen.as_slice(), before, states)?;
    }
    Ok(())
}

fn compare_searches(
    rt: &impl Abort,
    alloc: Global,
    net: &SdfNet,
    seen: &[Seen],
    before: Option<usize>,
    states: u64,
) -> Result<(), Fail> {
    check_answer(rt, net, run_net(rt, alloc, net, states)?, seen, before);
    check_answer(
        rt,
        net,
        run_by_events(rt, alloc, net, states)?,
        seen,
        before,
    );
    Ok(())
}

#[test]
fn loops_are_those_of_the_body_that_keeps_all_shapes(rt: HostRuntime) -> Result<(), Fail> {
    compare_to_20(&rt, rt.alloc(), ring_of_two(rt.alloc())?)?;
    compare_to_20(&rt, rt.alloc(), multi_rate_ring(rt.alloc())?)
}
