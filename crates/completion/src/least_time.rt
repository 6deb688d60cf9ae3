ghost use Rattle.std.specs.Prelude.{◌≡◌, ◌+◌, ◌≤◌, IfErr, IfOk};
ghost use Rattle.sd_base.specs.declared.limits.TheConstants.{LEAST_ROUNDS, LEAST_STATES, ROUNDS};
ghost use Rattle.sd_base.specs.Schedules.{HasInputs};
ghost use Rattle.sd_base.specs.Untimed.{IsLive};
ghost use Rattle.sd_base.specs.Connection.{IsConnected};
ghost use Rattle.lasso.specs.LoopAnswers.{IsRunRefusal};
ghost use Rattle.completion.specs.Completions.{IsCompletionOf, HasLoopWithin};

use crate::counts::{Part, firings_in};
use crate::ends::last_to_end;
use crate::timetable::{Timetable, end};
use crate::walk::parts_of_way;
use firing::{Firing, Wired, Wiring};
use lasso::{RunError, find_loop, starts_until};
use sd_base::{Ledger, Rows, Steps};
use std::alloc::Global;

/// The least time in which any schedule completes some rounds, and what a way of needs of just that time is made of:
/// each of its firings waits for the one before.
#[derive(Debug, Drop)]
pub struct Completion {
    /// In time units.
    pub time: u128,
    /// How many firings the way has.
    pub firings: u64,
    /// By actor how many of them are its firings, and their time.
    pub parts: Rows<Part>,
}

/// The least time in which any admissible schedule completes `rounds` rounds, each firing of theirs ended. Self-timed
/// execution completes them first, and what starts after the entry of its loop starts whole periods after the first
/// pass (Ghamarian et al. 2006). A way of needs of just that time is followed backwards from the last firing to end (where some
/// end together, the one whose actor has the least index) by the tight need whose channel the net lists first; where the
/// way comes again to a firing whole passes before, the segment in between counts for each time that it has room after the
/// entry, and isn't gone again. At most `states` shapes are looked at; `steps` counts the call as one execution.
///
/// Cost: that of `find_loop`, a second execution up to the entry, and for each firing that is looked at the channels
/// into its actor. However many rounds there are, no more firings are looked at than start up to the entry and in
/// some four passes. Memory: that of `find_loop`, the starts up to the entry, and two parts for each actor.
pub fn complete<F: Firing, L: Ledger>(
    alloc: Global,
    net: &F,
    rounds: u64,
    states: u64,
    steps: &mut Steps<L>,
) -> Result<Completion, RunError>
    requires live { IsLive (F.net net.now) }
    requires connected { IsConnected (F.net net.now) }
    requires inputs { HasInputs (F.net net.now) }
    requires some { LEAST_STATES ≤ states }
    requires some_round { LEAST_ROUNDS ≤ rounds }
    requires few_rounds { rounds ≤ ROUNDS }
    ensures completed { IfOk result (IsCompletionOf (F.net net.now) rounds) }
    ensures looped { IfOk result (λ _. HasLoopWithin (F.net net.now) states) }
    ensures refused { IfErr result (IsRunRefusal (F.net net.now) states) }
    ensures ticked { steps.new.count ≡ steps.old.count + 1 }
    ensures kept { steps.new.share ≡ steps.old.share }
{
    steps.tick();
    let wiring = Wiring::new(alloc, net)?;
    let wired = Wired {
        net,
        wiring: &wiring,
    };
    completion_of(alloc, &wired, rounds, states)
}

/// The least time for some rounds of a net whose wiring is there already, as `complete` tells it.
pub fn complete_wired<F: Firing, L: Ledger>(
    alloc: Global,
    wired: &Wired<F>,
    rounds: u64,
    states: u64,
    steps: &mut Steps<L>,
) -> Result<Completion, RunError>
    requires live { IsLive (F.net wired.now.net.now) }
    requires connected { IsConnected (F.net wired.now.net.now) }
    requires inputs { HasInputs (F.net wired.now.net.now) }
    requires some { LEAST_STATES ≤ states }
    requires some_round { LEAST_ROUNDS ≤ rounds }
    requires few_rounds { rounds ≤ ROUNDS }
    ensures completed { IfOk result (IsCompletionOf (F.net wired.now.net.now) rounds) }
    ensures looped { IfOk result (λ _. HasLoopWithin (F.net wired.now.net.now) states) }
    ensures refused { IfErr result (IsRunRefusal (F.net wired.now.net.now) states) }
    ensures ticked { steps.new.count ≡ steps.old.count + 1 }
    ensures kept { steps.new.share ≡ steps.old.share }
{
    steps.tick();
    completion_of(alloc, wired, rounds, states)
}

fn completion_of<F: Firing>(
    alloc: Global,
    wired: &Wired<F>,
    rounds: u64,
    states: u64,
) -> Result<Completion, RunError>
    requires live { IsLive (F.net wired.now.net.now) }
    requires connected { IsConnected (F.net wired.now.net.now) }
    requires inputs { HasInputs (F.net wired.now.net.now) }
    requires some { LEAST_STATES ≤ states }
    requires some_round { LEAST_ROUNDS ≤ rounds }
    requires few_rounds { rounds ≤ ROUNDS }
    ensures completed { IfOk result (IsCompletionOf (F.net wired.now.net.now) rounds) }
    ensures looped { IfOk result (λ _. HasLoopWithin (F.net wired.now.net.now) states) }
    ensures refused { IfErr result (IsRunRefusal (F.net wired.now.net.now) states) }
{
    let table = find_loop(alloc, wired, states)?;
    let early = starts_until(alloc, wired, table.entry)?;
    let times = Timetable { early, table };
    let last = last_to_end(wired.net, &times, rounds);
    let parts = parts_of_way(alloc, wired, &times, rounds, last)?;
    Ok(Completion {
        time: end(wired.net, last),
        firings: firings_in(parts.as_slice()),
        parts: Rows::from_vec(parts),
    })
}
