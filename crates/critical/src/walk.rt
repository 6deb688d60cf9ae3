//! The way back along tight needs, until a firing comes again whole passes before.
ghost use Rattle.std.specs.Prelude.{◌≡◌, ◌+◌, ◌*◌, ◌<◌, ◌≤◌, IfOk, length};
ghost use Rattle.critical.specs.inside.Trails.{IsShort, IsShortLoop, IsSecond, IsSlackBefore, AreFirst, Leads, ComesAgain, first_firing, met_at};
ghost use Rattle.sd_base.specs.Ranges.{COUNT_BOUND, MOMENT_BOUND};

use crate::cycle::{FiringNo, time_at};
use crate::marks::{class_of, mark, no_marks, offsets, places_of};
use crate::pass::{pass_of, second_of};
use crate::tight::tight_need;
use firing::{Firing, LoopTable, Wired};
use sd_base::NoMemory;
use std::alloc::Global;

/// For so many firings met there is room from the start, or for those of a pass where these are fewer.
const FEW: usize = 256;

/// A firing met on the way back, as the one of the second pass, `passes` passes later.
#[derive(Clone, Copy)]
pub(crate) struct Met {
    pub(crate) firing: FiringNo,
    pub(crate) passes: u64,
    /// The times of the firings met so far but the first, in time units.
    pub(crate) time: u64,
    /// The channel on which the firing met before needs this one; for the first any number.
    pub(crate) channel: u32,
}

/// The firings met until one came again: the last one is that at the place `from`, whole passes before.
#[derive(Drop)]
pub(crate) struct Way {
    pub(crate) met: Vec<Met>,
    pub(crate) from: usize,
}

/// Walks back from actor 0's last firing of the second pass. Cost: linear in the starts of a pass
/// times the channels into an actor.
pub(crate) fn walk_back<F: Firing>(
    alloc: Global,
    wired: &Wired<F>,
    table: &LoopTable,
) -> Result<Way, NoMemory>
    requires { IsShortLoop (F.net wired.now.net.now) table.now }
    ensures first { IfOk result (λ w. (met_at w.met.items 0).firing ≡ first_firing table.now) }
    ensures again { IfOk result (λ w. ComesAgain (F.net wired.now.net.now) table.now w.met.items w.from) }
    ensures needs { IfOk result (λ w. AreFirst (F.net wired.now.net.now) table.now w.met.items) }
{
    let offsets = offsets(alloc, table)?;
    let places = places_of(table, offsets.as_slice());
    let mut marks = no_marks(alloc, places)?;
    let mut met = Vec::with_capacity(alloc, places.min(FEW))?;
    let mut here = first_met(table);
    for place in 0..places + 1 {
        let before = mark(
            &mut marks,
            class_of(table, offsets.as_slice(), here.firing),
            place as u32,
        );
        met.push(here)?;
        if let Some(from) = before {
            return Ok(Way {
                met,
                from: from as usize,
            });
        }
        here = next_met(wired, table, here);
    }
    unreachable!()
}

/// Actor 0's last firing of the second pass.
fn first_met(table: &LoopTable) -> Met
    requires short { IsShort table.now }
    requires actor { 0 < length table.now.starts }
    ensures first { result.firing ≡ first_firing table.now }
    ensures second { IsSecond table.now result.firing }
    ensures passes { result.passes ≡ 0 }
    ensures time { result.time ≡ 0 }
{
    Met {
        firing: FiringNo {
            actor: 0,
            number: second_of(table, 0) + pass_of(table, 0) - 1,
        },
        passes: 0,
        time: 0,
        channel: 0,
    }
}

/// The tight need of a firing met, met next.
fn next_met<F: Firing>(wired: &Wired<F>, table: &LoopTable, here: Met) -> Met
    requires table { IsShortLoop (F.net wired.now.net.now) table.now }
    requires second { IsSecond table.now here.firing }
    requires near { here.passes ≤ COUNT_BOUND }
    requires soon { here.time ≤ MOMENT_BOUND }
    ensures leads { Leads (F.net wired.now.net.now) table.now here result }
    ensures first { IsSlackBefore (F.net wired.now.net.now) table.now here.firing result.channel }
{
    let inputs = wired.inputs_of(here.firing.actor);
    let need = tight_need(wired.net, table, inputs, here.firing);
    Met {
        firing: need.firing,
        passes: here.passes + need.passes,
        time: here.time + time_at(wired.net, need.firing),
        channel: need.channel,
    }
}
