ghost use Rattle.std.specs.Prelude.{◌≡◌, ◌↔◌, ℕ, ◌-◌, ◌%◌, ◌<◌, ◌≤◌, ◌++◌, IfOk, IsTrue, OnOk, length, map, replicate, slice_index, take};
ghost use Rattle.selftimed.specs.inside.Runs.{ends_of, NoneEnded};
ghost use Rattle.sd_base.specs.Schedules.{phases_at};
ghost use Rattle.selftimed.specs.inside.Standings.{phases_now, remaining_now, IsPast};

use crate::actors::ActorState;
use crate::queue::Run;
use crate::running::Running;
use firing::{Firing, know_laws};
use sd_base::{NoMemory, Rows};
use std::alloc::Global;

/// What stands at an event: by channel the tokens, by actor the phase of its next firing, and by actor the
/// remaining times of its running firings.
#[derive(Debug, Drop, PartialEq, Eq, Hash)]
pub struct Shape {
    pub tokens: Rows<u128>,
    pub phases: Rows<u32>,
    /// In time units.
    pub remaining: Rows<Rows<u64>>,
}

/// A copy of tokens.
pub(crate) fn tokens_of(alloc: Global, tokens: &[u64]) -> Result<Rows<u128>, NoMemory>
    ensures { IfOk result (λ rows. rows ≡ tokens.now) }
{
    let mut rows = Rows::new(alloc);
    for count in tokens {
        rows.push(u128::from(*count))?;
    }
    Ok(rows)
}

/// By actor the phase of its next firing.
pub(crate) fn phases_of<F: Firing>(
    alloc: Global,
    net: &F,
    actors: &[ActorState],
) -> Result<Rows<u32>, NoMemory>
    requires { length actors.now ≡ length (F.net net.now).times }
    ensures { IfOk result (λ rows. rows ≡ phases_now (F.net net.now) actors.now) }
{
    let mut rows = Rows::new(alloc);
    for actor in 0..net.actors() {
        rows.push(phase_of(net, actor, &actors[actor as usize]))?;
    }
    Ok(rows)
}

/// The phase of an actor's next firing.
pub(crate) fn phase_of<F: Firing>(net: &F, actor: u32, state: &ActorState) -> u32
    requires { actor < length (F.net net.now).times }
    ensures { result ≡ state.now.started % phases_at (F.net net.now) actor }
{
    know_laws(net);
    (state.started % net.phases(actor) as u64) as u32
}

/// By actor the remaining times of its running firings.
pub(crate) fn remaining_of(
    alloc: Global,
    moment: u64,
    actors: &[ActorState],
) -> Result<Rows<Rows<u64>>, NoMemory>
    requires { IsPast moment actors.now }
    ensures { IfOk result (λ rows. rows ≡ remaining_now moment actors.now) }
{
    let mut rows = Rows::new(alloc);
    for state in actors {
        rows.push(times_of(alloc, moment, &state.running)?)?;
    }
    Ok(rows)
}

/// The times from a moment to each end.
fn times_of(alloc: Global, moment: u64, running: &Running) -> Result<Rows<u64>, NoMemory>
    requires { (k : ℕ) → k < length running.now → moment ≤ slice_index running.now k }
    ensures { IfOk result (λ row. row ≡ map (λ end. end - moment) running.now) }
{
    let Some(runs) = running.as_runs() else {
        return Ok(Rows::new(alloc));
    };
    let mut row = Vec::new(alloc);
    push_times(&mut row, runs.first.end - moment, runs.first.firings)?;
    push_left(&mut row, moment, runs.later)?;
    Ok(Rows::from_vec(row))
}

/// Adds the times from a moment to each end.
fn push_left(row: &mut Vec<u64>, moment: u64, runs: &[Run]) -> Result<(), NoMemory>
    requires { NoneEnded moment runs.now }
    ensures { OnOk result (row.new.items ≡ row.old.items ++ map (λ end. end - moment) (ends_of runs.now)) }
{
    for run in runs {
        push_times(row, run.end - moment, run.firings)?;
    }
    Ok(())
}

/// Adds so many equal times.
fn push_times(row: &mut Vec<u64>, time: u64, firings: u64) -> Result<(), NoMemory>
    ensures { OnOk result (row.new.items ≡ row.old.items ++ replicate firings time) }
{
    let Some(len) = row.len().checked_add(firings as usize) else {
        return Err(NoMemory);
    };
    row.resize(len, time)?;
    Ok(())
}

/// Whether these are the tokens of a shape.
pub(crate) fn same_tokens(left: &[u64], right: &[u128]) -> bool
    ensures { IsTrue result ↔ (left.now ≡ right.now) }
{
    if left.len() != right.len() {
        return false;
    }
    for (k, count) in left.iter().enumerate() {
        if u128::from(*count) != right[k] {
            return false;
        }
    }
    true
}

/// Whether these are the phases of the actors' next firings.
pub(crate) fn same_phases<F: Firing>(net: &F, actors: &[ActorState], phases: &[u32]) -> bool
    requires { length actors.now ≡ length (F.net net.now).times }
    ensures { IsTrue result ↔ (phases_now (F.net net.now) actors.now ≡ phases.now) }
{
    if phases.len() != actors.len() {
        return false;
    }
    for actor in 0..net.actors() {
        if phase_of(net, actor, &actors[actor as usize]) != phases[actor as usize] {
            return false;
        }
    }
    true
}

/// Whether these are the remaining times of the actors' running firings.
pub(crate) fn same_remaining(moment: u64, actors: &[ActorState], remaining: &[Rows<u64>]) -> bool
    requires { IsPast moment actors.now }
    ensures { IsTrue result ↔ (remaining_now moment actors.now ≡ remaining.now) }
{
    if remaining.len() != actors.len() {
        return false;
    }
    for (actor, state) in actors.iter().enumerate() {
        if !same_running_times(moment, &state.running, remaining[actor].as_slice()) {
            return false;
        }
    }
    true
}

/// Whether these are the times from a moment to the ends of running firings.
fn same_running_times(moment: u64, running: &Running, times: &[u64]) -> bool
    requires { (k : ℕ) → k < length running.now → moment ≤ slice_index running.now k }
    ensures { IsTrue result ↔ (map (λ end. end - moment) running.now ≡ times.now) }
{
    let Some(runs) = running.as_runs() else {
        return times.is_empty();
    };
    if !begin_with(times, runs.first.end - moment, runs.first.firings) {
        return false;
    }
    same_times(moment, runs.later, &times[runs.first.firings as usize..])
}

/// Whether these are the times from a moment to each end.
fn same_times(moment: u64, runs: &[Run], times: &[u64]) -> bool
    requires { NoneEnded moment runs.now }
    ensures { IsTrue result ↔ (map (λ end. end - moment) (ends_of runs.now) ≡ times.now) }
{
    let mut place = 0;
    for run in runs {
        if !begin_with(&times[place..], run.end - moment, run.firings) {
            return false;
        }
        place += run.firings as usize;
    }
    place == times.len()
}

/// Whether the first of some times are so many equal ones.
fn begin_with(times: &[u64], time: u64, firings: u64) -> bool
    ensures { IsTrue result ↔ (take firings times.now ≡ replicate firings time) }
{
    if firings > times.len() as u64 {
        return false;
    }
    let first = &times[..firings as usize];
    for other in first {
        if *other != time {
            return false;
        }
    }
    true
}
