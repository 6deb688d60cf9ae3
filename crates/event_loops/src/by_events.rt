ghost use Rattle.std.specs.Prelude.{◌≡◌, ℕ, ◌≤◌, IfErr, IfOk};
ghost use Rattle.sd_base.specs.declared.limits.TheConstants.{LEAST_STATES, STARTS as MOST_STARTS};
ghost use Rattle.sd_base.specs.Schedules.{HasInputs};
ghost use Rattle.sd_base.specs.SelfTimed.{events_by, starts_by};
ghost use Rattle.sd_base.specs.Untimed.{IsLive};
ghost use Rattle.sd_base.specs.Connection.{IsConnected};
ghost use Rattle.loops.specs.LoopAnswers.{IsFound, IsRunRefusal};
ghost use Rattle.event_loops.specs.inside.Going.{IsReady, NeverStops};
ghost use Rattle.event_loops.specs.inside.Searching.{IsPair, IsPeriod};
ghost use Rattle.event_loops.specs.inside.Tracing.{IsTrace};

use crate::entry::entry_of;
use crate::repeat::first_repeat;
use crate::search::{SEARCH_STARTS, find_pair};
use crate::trace::Trace;
use firing::{Firing, LoopTable, Wired};
use loops::{Pair, RunError, empty_rows, loop_table};
use sd_base::NoMemory;
use sd_base::limits::STARTS;
use selftimed::Engine;
use std::alloc::Global;

/// The loop of self-timed execution (Ghamarian et al. 2006), found with two checkpoints in place of all shapes (Brent 1980). The first
/// `states` shapes, of at most `STARTS` starts, decide whether there is one; the search for it may go on to four times as many
/// starts.
///
/// Cost: an execution to a shape that came before. Where the loop is entered soon and is a round long, this is a quarter of a
/// round longer than one up to the first repeat, and else mostly it has no more than half as many starts again, and at most
/// some two and a half times as many. The entry is then found among the starts.
/// Where it has more than `STARTS` of them, two more side by side, up to the first repeat and up to the entry. Where a
/// refusal comes, an execution up to the last shape that is allowed if the fingerprint of its tokens is a new one, and else
/// up to twice its moment, of at most `STARTS` starts more.
/// Memory: two checkpoints and the present shape, and at most `STARTS` starts and as many events, with a fingerprint each.
pub fn loop_by_events<F: Firing>(
    alloc: Global,
    wired: &Wired<F>,
    states: u64,
) -> Result<LoopTable, RunError>
    requires live { IsLive (F.net wired.now.net.now) }
    requires connected { IsConnected (F.net wired.now.net.now) }
    requires inputs { HasInputs (F.net wired.now.net.now) }
    requires some { LEAST_STATES ≤ states }
    ensures found { IfOk result (IsFound (F.net wired.now.net.now) states) }
    ensures refused { IfErr result (IsRunRefusal (F.net wired.now.net.now) states) }
{
    let mut lead = Engine::of_wired(alloc, wired, SEARCH_STARTS)?;
    let mut trace = Trace::new(alloc, wired.net)?;
    let pair = find_pair(alloc, &mut lead, &mut trace, states)?;
    if trace.ends_at(pair.later) {
        let table = traced_loop(alloc, wired.net, &trace, pair)?;
        return Ok(table);
    }
    lead.restart(alloc, wired.net, STARTS)?;
    repeated_loop(alloc, wired, &mut lead, pair.later - pair.earlier, states)
}

/// The loop that two equal shapes show, in the trace up to the later one.
fn traced_loop<F: Firing>(
    alloc: Global,
    net: &F,
    trace: &Trace,
    pair: Pair,
) -> Result<LoopTable, NoMemory>
    requires connected { IsConnected (F.net net.now) }
    requires inputs { HasInputs (F.net net.now) }
    requires pair { IsPair (F.net net.now) pair }
    requires traced { IsTrace (F.net net.now) pair.later trace.now.moments.items trace.now.starts.items }
    requires few { starts_by (F.net net.now) pair.later ≤ MOST_STARTS }
    ensures { IfOk result (λ table. (states : ℕ) → events_by (F.net net.now) pair.later ≤ states → IsFound (F.net net.now) states table) }
{
    let entry = entry_of(net, trace, pair);
    let period = pair.later - pair.earlier;
    let table = loop_table(alloc, net, entry, period, trace.starts.as_slice())?;
    Ok(table)
}

/// The loop by two executions side by side, so many time units apart, up to its first repeat.
fn repeated_loop<'a, F: Firing>(
    alloc: Global,
    wired: &Wired<'a, F>,
    lead: &mut Engine<'a, F>,
    period: u64,
    states: u64,
) -> Result<LoopTable, RunError>
    requires runs { NeverStops (F.net wired.now.net.now) }
    requires connected { IsConnected (F.net wired.now.net.now) }
    requires net { lead.old.net.now ≡ wired.now.net.now }
    requires ready { IsReady lead.old.stage lead.old.most }
    requires start { lead.old.moment ≡ 0 }
    requires period { IsPeriod (F.net wired.now.net.now) period }
    requires some { 1 ≤ states }
    ensures found { IfOk result (IsFound (F.net wired.now.net.now) states) }
    ensures refused { IfErr result (IsRunRefusal (F.net wired.now.net.now) states) }
{
    let mut trail = Engine::of_wired(alloc, wired, STARTS)?;
    let mut starts = empty_rows(alloc, wired.net)?;
    let end = first_repeat(lead, &mut trail, starts.as_mut_slice(), period, states)?;
    let entry = trail.moment();
    let table = loop_table(alloc, wired.net, entry, end - entry, starts.as_slice())?;
    Ok(table)
}
