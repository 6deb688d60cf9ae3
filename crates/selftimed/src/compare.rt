//! Where the actors of two executions of one net stand, compared without a shape of either.
ghost use Rattle.std.specs.Prelude.{◌≡◌, ◌↔◌, ℕ, ◌-◌, ◌<◌, ◌≤◌, IsTrue, length, map, slice_index};
ghost use Rattle.selftimed.specs.inside.Runs.{ends_of, left_of, AreRuns, NoneEnded};
ghost use Rattle.selftimed.specs.inside.Standings.{phases_now, remaining_now, IsPast};
ghost use Rattle.selftimed.specs.Fingerprints.{running_fingerprint_of};

use crate::actors::ActorState;
use crate::queue::Run;
use crate::running::Running;
use crate::shape::phase_of;
use crate::tokens::weight_of;
use firing::Firing;

/// Whether each actor's next firing is in the same phase.
pub(crate) fn same_stands<F: Firing>(net: &F, left: &[ActorState], right: &[ActorState]) -> bool
    requires left { length left.now ≡ length (F.net net.now).times }
    requires right { length right.now ≡ length (F.net net.now).times }
    ensures { IsTrue result ↔ (phases_now (F.net net.now) left.now ≡ phases_now (F.net net.now) right.now) }
{
    for actor in 0..net.actors() {
        let here = phase_of(net, actor, &left[actor as usize]);
        if here != phase_of(net, actor, &right[actor as usize]) {
            return false;
        }
    }
    true
}

/// The fingerprint of the times left of the actors' running firings. Cost: linear in the actors.
pub(crate) fn running_fingerprint(moment: u64, actors: &[ActorState]) -> u64
    requires { IsPast moment actors.now }
    ensures { result ≡ running_fingerprint_of (remaining_now moment actors.now) }
{
    let mut fingerprint = 0u64;
    for (actor, state) in actors.iter().enumerate() {
        let left = state.running.time_left(moment);
        if left != 0 {
            fingerprint = fingerprint.wrapping_add(weight_of(actor as u64).wrapping_mul(left));
        }
    }
    fingerprint
}

/// Whether each actor's running firings have the same times left.
pub(crate) fn same_running(now: u64, left: &[ActorState], then: u64, right: &[ActorState]) -> bool
    requires long { length right.now ≡ length left.now }
    requires left { IsPast now left.now }
    requires right { IsPast then right.now }
    ensures { IsTrue result ↔ (remaining_now now left.now ≡ remaining_now then right.now) }
{
    for (actor, state) in left.iter().enumerate() {
        if !same_times_left(now, &state.running, then, &right[actor].running) {
            return false;
        }
    }
    true
}

/// Whether the times from a moment to the ends of running firings are those from another one to the ends of others.
/// Cost: linear in the runs.
fn same_times_left(now: u64, running: &Running, then: u64, others: &Running) -> bool
    requires left { (k : ℕ) → k < length running.now → now ≤ slice_index running.now k }
    requires right { (k : ℕ) → k < length others.now → then ≤ slice_index others.now k }
    ensures { IsTrue result ↔ (map (λ end. end - now) running.now ≡ map (λ end. end - then) others.now) }
{
    let Some(here) = running.as_runs() else {
        return others.first().is_none();
    };
    let Some(there) = others.as_runs() else {
        return false;
    };
    if !is_left(now, here.first, then, there.first) {
        return false;
    }
    same_left(now, here.later, then, there.later)
}

/// Whether the times from a moment to each end are those from another one to others. Cost: linear in the runs.
fn same_left(now: u64, runs: &[Run], then: u64, others: &[Run]) -> bool
    requires runs { AreRuns runs.now }
    requires others { AreRuns others.now }
    requires left { NoneEnded now runs.now }
    requires right { NoneEnded then others.now }
    ensures { IsTrue result ↔ (map (λ end. end - now) (ends_of runs.now) ≡ map (λ end. end - then) (ends_of others.now)) }
{
    if runs.len() != others.len() {
        return false;
    }
    for (k, run) in runs.iter().enumerate() {
        if !is_left(now, *run, then, others[k]) {
            return false;
        }
    }
    true
}

/// Whether a run is as far from its end at a moment as another one at another moment, and has as many firings.
fn is_left(now: u64, run: Run, then: u64, other: Run) -> bool
    requires left { now ≤ run.end }
    requires right { then ≤ other.end }
    ensures { IsTrue result ↔ (left_of now run ≡ left_of then other) }
{
    run.firings == other.firings && run.end - now == other.end - then
}
