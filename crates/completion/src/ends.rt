//! The firing that ends last.
ghost use Rattle.std.specs.Prelude.{◌≡◌, ◌≤◌, ◌<◌, length};
ghost use Rattle.sd_base.specs.Ranges.{WIDE_MOMENT_BOUND};
ghost use Rattle.sd_base.specs.declared.limits.TheConstants.{LEAST_ROUNDS, ROUNDS};
ghost use Rattle.completion.specs.inside.Timetables.{EndsLast, IsLastOf, IsTimetable};

use crate::timetable::{Start, Timetable, end};
use firing::{Firing, know_laws};

/// The firing of the first rounds with the latest end, that of the actor with the least number where several end then.
pub(crate) fn last_to_end<F: Firing>(net: &F, times: &Timetable, rounds: u64) -> Start
    requires times { IsTimetable (F.net net.now) times.now }
    requires some { LEAST_ROUNDS ≤ rounds }
    requires few { rounds ≤ ROUNDS }
    ensures last { EndsLast (F.net net.now) times.now rounds result }
    ensures soon { result.moment ≤ WIDE_MOMENT_BOUND }
{
    know_laws(net);
    let mut last = last_of(net, times, 0, rounds);
    for actor in 1..net.actors() {
        let other = last_of(net, times, actor, rounds);
        if end(net, last) < end(net, other) {
            last = other;
        }
    }
    last
}

/// The last firing of an actor in the first rounds.
fn last_of<F: Firing>(net: &F, times: &Timetable, actor: u32, rounds: u64) -> Start
    requires times { IsTimetable (F.net net.now) times.now }
    requires actor { actor < length (F.net net.now).times }
    requires some { LEAST_ROUNDS ≤ rounds }
    requires few { rounds ≤ ROUNDS }
    ensures last { IsLastOf (F.net net.now) times.now rounds result }
    ensures actor { result.actor ≡ actor }
    ensures soon { result.moment ≤ WIDE_MOMENT_BOUND }
{
    know_laws(net);
    times.start(actor, rounds * net.round(actor) - 1)
}
