//! The loop of a net of which each actor has one phase and a round few firings, round by round.
//!
//! Where a round has few firings, a look at the rows costs as much as a round of starts, and loops are often entered after
//! many rounds, as in nets of rates 1. So each actor's row grows to a round, then to two, however late these starts are.
//! All starts up to a moment that is before the last one of each row are known then, since what an actor starts next comes
//! no sooner than its last one. Among them a loop is looked for where the last rounds took all actors as long, of one round
//! or of up to eight. That no fewer rounds make a loop is told by two firings after its entry that start unlike times after
//! those so many rounds before them: if the entry's shape came again after so few rounds, all firings after it would start
//! as long after those.
ghost use Rattle.std.specs.Prelude.{◌≡◌, ℕ, ◌+◌, ◌-◌, ◌≤◌, ◌<◌, [], IfOk, IfSome, length, slice_index_or};
ghost use Rattle.sd_base.specs.declared.limits.TheConstants.{LEAST_STATES};
ghost use Rattle.sd_base.specs.Schedules.{HasInputs, phases_at};
ghost use Rattle.sd_base.specs.Connection.{IsConnected};
ghost use Rattle.loops.specs.LoopAnswers.{IsFound};
ghost use Rattle.need_loops.specs.inside.Knowing.{AreStartsBy, GoPast};
ghost use Rattle.loops.specs.StartRows.{Ascend};
ghost use Rattle.need_loops.specs.inside.Needing.{AreDue};

use crate::by_moments::LATEST;
use crate::growth::Growth;
use crate::needs::Reach;
use crate::shown::{last_pair, loop_by_rows, starts_in, take_unlike};
use firing::{Firing, LoopTable, Wired};
use loops::{count_by, starts_of_round};
use sd_base::limits::STARTS;
use sd_base::{NoMemory, Rows};
use std::alloc::Global;

/// A round has few firings up to this many.
pub(crate) const FEW: u64 = 256;

/// Up to how many rounds of starts are looked through, and how many starts these may have.
const ROUNDS: u64 = 64;

const SEARCHED: u64 = 4_096;

/// Up to how many rounds long a loop is found.
const LONGEST: u64 = 8;

/// The loop of a net of which each actor has one phase, if it is no more than `LONGEST` rounds long, shows within the first
/// `ROUNDS` rounds and the first `SEARCHED` starts, and has fewer starts up to its repeat than `states`, so that it has no more
/// shapes. All starts of a round are found before those of the next one, by what each firing needs, however late they are. Cost:
/// linear in the starts up to the repeat and of some two rounds more, each times the channels into its actor; and where no loop
/// shows, as much for the first `SEARCHED` starts.
pub(crate) fn loop_by_rounds<F: Firing>(
    alloc: Global,
    wired: &Wired<F>,
    states: u64,
) -> Result<Option<LoopTable>, NoMemory>
    requires single { (a : ℕ) → a < length (F.net wired.now.net.now).times → phases_at (F.net wired.now.net.now) a ≡ 1 }
    requires connected { IsConnected (F.net wired.now.net.now) }
    requires inputs { HasInputs (F.net wired.now.net.now) }
    requires some { LEAST_STATES ≤ states }
    ensures { IfOk result (λ o. IfSome o (IsFound (F.net wired.now.net.now) states)) }
{
    let net = wired.net;
    let round = starts_of_round(net);
    let mut growth = Growth::new(alloc, wired)?;
    for rounds in 1..ROUNDS + 1 {
        if round.saturating_mul(rounds) > SEARCHED {
            return Ok(None);
        }
        let reach = Reach {
            until: LATEST,
            rounds,
        };
        growth.extend(wired, reach)?;
        if let Some(alike) = rounds_alike(net, growth.starts.as_slice(), rounds)
            && let Some(table) = loop_in(alloc, net, growth.starts.as_slice(), alike, states)?
        {
            return Ok(Some(table));
        }
    }
    Ok(None)
}

/// The least number of rounds below a number, and up to `LONGEST`, of which the last firings took all actors as long. A quick test,
/// since they mostly take unlike times as long as no shape comes again. Cost: linear in the actors.
fn rounds_alike<F: Firing>(net: &F, starts: &[Rows<u64>], below: u64) -> Option<u64>
    requires { length starts.now ≡ length (F.net net.now).times }
    ensures some { IfSome result (λ rounds. 1 ≤ rounds) }
    ensures few { IfSome result (λ rounds. rounds ≤ LONGEST) }
{
    for rounds in 1..LONGEST + 1 {
        if rounds < below && !take_unlike(net, starts, rounds) {
            return Some(rounds);
        }
    }
    None
}

/// The loop of so many rounds, if the starts that are known to be all up to some moment show it.
fn loop_in<F: Firing>(
    alloc: Global,
    net: &F,
    starts: &[Rows<u64>],
    rounds: u64,
    states: u64,
) -> Result<Option<LoopTable>, NoMemory>
    requires single { (a : ℕ) → a < length (F.net net.now).times → phases_at (F.net net.now) a ≡ 1 }
    requires connected { IsConnected (F.net net.now) }
    requires inputs { HasInputs (F.net net.now) }
    requires some { 1 ≤ rounds }
    requires few { rounds ≤ LONGEST }
    requires states { LEAST_STATES ≤ states }
    requires due { AreDue (F.net net.now) LATEST starts.now }
    ensures { IfOk result (λ o. IfSome o (IsFound (F.net net.now) states)) }
{
    let Some(until) = known_until(starts) else {
        return Ok(None);
    };
    let known = starts_by(alloc, starts, until)?;
    if starts_in(net, known.as_slice()) > u128::from(STARTS.min(states - 1)) {
        return Ok(None);
    }
    let Some(pair) = last_pair(net, known.as_slice(), until, rounds) else {
        return Ok(None);
    };
    let found = loop_by_rows(alloc, net, known.as_slice(), pair, rounds)?;
    Ok(found)
}

/// The last moment that is before the last start of each row, if there is one: where rows have no start left out, they have all up
/// to it.
fn known_until(starts: &[Rows<u64>]) -> Option<u64>
    ensures { IfSome result (GoPast starts.now) }
{
    let mut least = u64::MAX;
    for row in starts {
        match row.as_slice().last() {
            Some(last) => {
                if *last < least {
                    least = *last;
                }
            }
            None => return None,
        }
    }
    if 0 < least { Some(least - 1) } else { None }
}

/// By actor the starts up to and with a moment. Cost: linear in them.
fn starts_by(alloc: Global, starts: &[Rows<u64>], moment: u64) -> Result<Vec<Rows<u64>>, NoMemory>
    requires ascend { (a : ℕ) → a < length starts.now → Ascend (slice_index_or starts.now a []) }
    ensures { IfOk result (λ rows. AreStartsBy starts.now moment rows.items) }
{
    let mut rows = Vec::with_capacity(alloc, starts.len())?;
    for row in starts {
        let count = count_by(row.as_slice(), moment);
        let by = Vec::from_slice(alloc, &row.as_slice()[..count])?;
        rows.push(Rows::from_vec(by))?;
    }
    Ok(rows)
}
