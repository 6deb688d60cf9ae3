//! The loop of a net of which each actor has one phase, by rows of starts without events.
//!
//! Most loops are found by needs, without events. A firing starts when the last one that it needs ends. So where each actor
//! has one phase, an actor's next starts are read off the rows of those that it needs, as many in a row as these tell, and
//! nothing is done at the moments between: no calendar, no tokens, no shapes. The rows grow up to a moment, and hold all
//! starts up to there once each actor's next firing needs one that isn't in them or would start later. Then they show a
//! loop that is one round long: the last round's length is its period, the entry is read off as in `entry.rt`, and that the
//! period is the least follows from the balance of the net, since equal shapes lie whole rounds apart. A firing ends at
//! each event but the first, so that no more shapes come than are allowed is told by the number of starts. Where this shows
//! no loop within some three rounds, or within so few starts, or where an actor has several phases, events are gone through
//! as if nothing had been tried: the starts that were made cost a small part of theirs, and refusals are theirs alone.
//!
//! Nothing can come again within a round, so the first steps aim at its starts, by how many the last step had, and go at
//! most as far again as before, since many actors start late. After that a step has about a thirty-second of a round, and
//! the test for a loop ends at the first firing that isn't like the one a round before, mostly soon.
ghost use Rattle.std.specs.Prelude.{◌≡◌, ℕ, ◌+◌, ◌*◌, ◌≤◌, ◌<◌, IfOk, IfSome, length};
ghost use Rattle.sd_base.specs.Ranges.{COUNT_BOUND, HALF_MOMENT_BOUND, MOMENT_BOUND, ROUND_BOUND};
ghost use Rattle.sd_base.specs.declared.limits.TheConstants.{LEAST_STATES};
ghost use Rattle.sd_base.specs.Schedules.{HasInputs, phases_at};
ghost use Rattle.sd_base.specs.Connection.{IsConnected};
ghost use Rattle.loops.specs.LoopAnswers.{IsFound};
ghost use Rattle.need_loops.specs.inside.Growing.{IsGrowth};
ghost use Rattle.need_loops.specs.inside.Showing.{IsLoopIn};

use crate::growth::Growth;
use crate::needs::{Reach, are_whole};
use crate::shown::{last_pair, loop_by_rows, starts_in};
use firing::{Firing, LoopTable, Wired};
use loops::starts_of_round;
use sd_base::NoMemory;
use sd_base::limits::STARTS;
use std::alloc::Global;

/// Up to how many rounds of starts are looked through.
const ROUNDS: u64 = 3;

/// How often the starts are looked at, at most.
const LOOKS: u32 = 1_024;

/// How often they are about in a round, once there are those of one.
const LOOKS_A_ROUND: u64 = 32;

/// Up to this moment, in time units, the starts are looked for.
pub(crate) const LATEST: u64 = 1 << 60;

/// Up to which moment the rows grow, and how fast they grew.
#[derive(Clone, Copy)]
struct Pace {
    /// In time units.
    until: u64,
    /// How many time units the last step had.
    step: u64,
    /// How many starts there were before it.
    before: u64,
}

/// The loop of a net of which each actor has one phase, if it is one round long, is entered within some two rounds, and has fewer
/// starts up to its repeat than `states`, so that it has no more shapes. The starts of an actor are found several in a row, by
/// what each firing needs, with nothing done at the moments between. Cost: linear in the starts of some three rounds at most,
/// each times the channels into its actor, and mostly of little more than one.
pub(crate) fn loop_by_moments<F: Firing>(
    alloc: Global,
    wired: &Wired<F>,
    states: u64,
) -> Result<Option<LoopTable>, NoMemory>
    requires single { (a : ℕ) → a < length (F.net wired.now.net.now).times → phases_at (F.net wired.now.net.now) a ≡ 1 }
    requires connected { IsConnected (F.net wired.now.net.now) }
    requires inputs { HasInputs (F.net wired.now.net.now) }
    requires some { LEAST_STATES ≤ states }
    ensures { IfOk result (λ o. IfSome o (IsFound (F.net wired.now.net.now) states)) }
{
    let net = wired.net;
    let round = starts_of_round(net);
    let most = STARTS.min(states - 1);
    if round > most {
        return Ok(None);
    }
    let mut growth = Growth::new(alloc, wired)?;
    let mut pace = Pace::new();
    for _look in 0..LOOKS {
        growth.extend(wired, pace.reach())?;
        let total = starts_in(net, growth.starts.as_slice());
        if total > u128::from(most) {
            return Ok(None);
        }
        let total = total as u64;
        if total > round
            && let Some(table) = loop_at(alloc, net, &growth, pace.until)?
        {
            return Ok(Some(table));
        }
        if total / ROUNDS > round || pace.until > LATEST {
            return Ok(None);
        }
        pace.go_on(round, total);
    }
    Ok(None)
}

impl Pace {
    /// At moment 0, from where a step has one time unit.
    fn new() -> Pace
        ensures { result.until ≡ 0 }
    {
        Pace {
            until: 0,
            step: 1,
            before: 0,
        }
    }

    /// How far the rows grow.
    fn reach(&self) -> Reach
        ensures until { result.until ≡ self.now.until }
        ensures rounds { result.rounds ≤ ROUND_BOUND }
    {
        Reach {
            until: self.until,
            rounds: ROUNDS + 1,
        }
    }

    /// Goes on to the starts of a round, where it has `round` and there are `total`, or further by a part of one, but at most as
    /// far again as already.
    fn go_on(&mut self, round: u64, total: u64)
        requires soon { self.old.until ≤ HALF_MOMENT_BOUND }
        requires few { total ≤ COUNT_BOUND }
        ensures further { self.old.until ≤ self.new.until }
        ensures soon { self.new.until ≤ 2 * self.old.until + 1 }
    {
        let part = round / LOOKS_A_ROUND + 1;
        let wanted = round.saturating_sub(total).saturating_add(part);
        let gained = total.saturating_sub(self.before);
        let time = self.step.saturating_mul(wanted) / (gained + 1);
        self.step = time.min(self.until).max(self.until / LOOKS_A_ROUND + 1);
        self.before = total;
        self.until += self.step;
    }
}

/// The loop, if the starts up to a moment are all that there are, and show that the shape at this moment stood a round before.
fn loop_at<F: Firing>(
    alloc: Global,
    net: &F,
    growth: &Growth,
    until: u64,
) -> Result<Option<LoopTable>, NoMemory>
    requires single { (a : ℕ) → a < length (F.net net.now).times → phases_at (F.net net.now) a ≡ 1 }
    requires connected { IsConnected (F.net net.now) }
    requires inputs { HasInputs (F.net net.now) }
    requires grown { IsGrowth (F.net net.now) until growth.now }
    requires soon { until ≤ MOMENT_BOUND }
    ensures { IfOk result (λ o. IfSome o (IsLoopIn (F.net net.now) growth.now.starts.items)) }
{
    let starts = growth.starts.as_slice();
    let Some(pair) = last_pair(net, starts, until, 1) else {
        return Ok(None);
    };
    if are_whole(net, growth.firings.as_slice(), starts, until) {
        loop_by_rows(alloc, net, starts, pair, 1)
    } else {
        Ok(None)
    }
}
