//! The entry of a loop, found in what an execution left behind once two equal shapes are known.
//!
//! The entry of a loop is read off the starts. Once a shape has come again, a period is known, and so is what started on
//! the way. The loop is entered at the first event from which on every firing is a period before its like: an unlike one,
//! and what started a period later without a like, have to be over by then. That is found by going back through the starts,
//! and needs no execution (a law of shapes: the same stands at a moment and a period later just where all firings are alike
//! or over). Where the search made more starts than may be kept, two executions a period apart find it instead.
ghost use Rattle.std.specs.Prelude.{◌-◌, ◌≤◌, ◌<◌};
ghost use Rattle.sd_base.specs.Schedules.{HasInputs};
ghost use Rattle.sd_base.specs.Rates.{IsLoop};
ghost use Rattle.event_loops.specs.inside.Searching.{IsPair};
ghost use Rattle.event_loops.specs.inside.Entering.{IsFirstTwice, ReachFrom};
ghost use Rattle.event_loops.specs.inside.Tracing.{IsTrace};

use crate::trace::Trace;
use firing::{Firing, know_laws};
use loops::{Pair, count_by, is_after, settled_from};

/// The moment of the first shape that comes again: the first event from which on all is as it is a period later. The trace
/// ends with the later one of two equal shapes. Cost: linear in the starts after the entry and in the events after it.
pub(crate) fn entry_of<F: Firing>(net: &F, trace: &Trace, pair: Pair) -> u64
    requires inputs { HasInputs (F.net net.now) }
    requires pair { IsPair (F.net net.now) pair }
    requires traced { IsTrace (F.net net.now) pair.later trace.now.moments.items trace.now.starts.items }
    ensures before { result ≤ pair.earlier }
    ensures loops { IsLoop (F.net net.now) result (pair.later - pair.earlier) }
{
    know_laws(net);
    let mut from = 0u128;
    for actor in 0..net.actors() {
        let row = trace.starts[actor as usize].as_slice();
        let before = count_by(row, pair.earlier);
        let settled = settled_from(
            net,
            actor,
            row,
            row.len() - before,
            pair.later - pair.earlier,
        );
        if from < settled {
            from = settled;
        }
    }
    first_twice(trace.moments.as_slice(), from, pair)
}

/// The first of some ascending moments from one on, of which there is one a period later too. Cost: linear in those after it.
fn first_twice(moments: &[u64], from: u128, pair: Pair) -> u64
    requires order { pair.earlier < pair.later }
    requires reach { ReachFrom moments.now pair.earlier pair.later }
    requires from { from ≤ pair.earlier }
    ensures { IsFirstTwice moments.now from pair.earlier (pair.later - pair.earlier) result }
{
    let period = pair.later - pair.earlier;
    let mut place = count_by(moments, pair.earlier) - 1;
    let mut twin = moments.len() - 1;
    'twice: while 0 < place
        && from <= u128::from(moments[place - 1])
        && is_after(moments[place - 1], moments[twin - 1], period)
    {
        place -= 1;
        twin -= 1;
    }
    moments[place]
}
