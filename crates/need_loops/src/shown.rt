//! The loop that rows of starts show.
ghost use Rattle.std.specs.Prelude.{◌≡◌, ℕ, ◌≤◌, ◌<◌, IfOk, IfSome, length, map, sum};
ghost use Rattle.sd_base.specs.Ranges.{MOMENT_BOUND, ROUND_BOUND};
ghost use Rattle.sd_base.specs.Schedules.{HasInputs, phases_at};
ghost use Rattle.sd_base.specs.Connection.{IsConnected};
ghost use Rattle.loops.specs.StartRows.{AreStarts};
ghost use Rattle.need_loops.specs.inside.Showing.{IsLoopIn};

use crate::rows::entry_by_rows;
use firing::{Firing, LoopTable, know_laws};
use loops::{Pair, all_end_alike, loop_table};
use sd_base::{NoMemory, Rows};
use std::alloc::Global;

/// How many starts there are.
pub(crate) fn starts_in<F: Firing>(net: &F, starts: &[Rows<u64>]) -> u128
    requires { length starts.now ≡ length (F.net net.now).times }
    ensures { result ≡ sum (map length starts.now) }
{
    know_laws(net);
    let mut total = 0u128;
    for row in starts {
        total += row.len() as u128;
    }
    total
}

/// A moment and the one so many rounds before it, if the last starts look as they do where the shape at the one stood at the other.
pub(crate) fn last_pair<F: Firing>(
    net: &F,
    starts: &[Rows<u64>],
    until: u64,
    rounds: u64,
) -> Option<Pair>
    requires rows { length starts.now ≡ length (F.net net.now).times }
    requires few { rounds ≤ ROUND_BOUND }
    ensures later { IfSome result (λ pair. pair.later ≡ until) }
    ensures order { IfSome result (λ pair. pair.earlier < pair.later) }
{
    let period = took(net, starts, lead_of(net), rounds);
    if period == 0 || period > until {
        return None;
    }
    let pair = Pair {
        earlier: until - period,
        later: until,
    };
    if all_end_alike(net, starts, pair, rounds) {
        Some(pair)
    } else {
        None
    }
}

/// The first actor that has the most firings in a round.
fn lead_of<F: Firing>(net: &F) -> u32
    ensures { result < length (F.net net.now).times }
{
    know_laws(net);
    let mut lead = 0;
    for actor in 0..net.actors() {
        if net.round(lead) < net.round(actor) {
            lead = actor;
        }
    }
    lead
}

/// How long an actor's last firings of so many rounds took, by its row of starts.
fn took<F: Firing>(net: &F, starts: &[Rows<u64>], actor: u32, rounds: u64) -> u64
    requires rows { length starts.now ≡ length (F.net net.now).times }
    requires actor { actor < length (F.net net.now).times }
    requires few { rounds ≤ ROUND_BOUND }
{
    know_laws(net);
    let row = starts[actor as usize].as_slice();
    let more = (rounds * net.round(actor)) as usize;
    if row.len() == 0 {
        return 0;
    }
    let last = row.len() - 1;
    row[last].saturating_sub(row[last.saturating_sub(more)])
}

/// Whether the last firings of so many rounds took two actors unlike times. Cost: linear in the actors at most.
pub(crate) fn take_unlike<F: Firing>(net: &F, starts: &[Rows<u64>], rounds: u64) -> bool
    requires rows { length starts.now ≡ length (F.net net.now).times }
    requires few { rounds ≤ ROUND_BOUND }
{
    know_laws(net);
    let first = took(net, starts, 0, rounds);
    for actor in 1..net.actors() {
        if took(net, starts, actor, rounds) != first {
            return true;
        }
    }
    false
}

/// The loop, if the starts up to the later moment of a pair show that the shape at it stood so many rounds before, at the earlier
/// one, and none like it fewer rounds before.
pub(crate) fn loop_by_rows<F: Firing>(
    alloc: Global,
    net: &F,
    starts: &[Rows<u64>],
    pair: Pair,
    rounds: u64,
) -> Result<Option<LoopTable>, NoMemory>
    requires single { (a : ℕ) → a < length (F.net net.now).times → phases_at (F.net net.now) a ≡ 1 }
    requires connected { IsConnected (F.net net.now) }
    requires inputs { HasInputs (F.net net.now) }
    requires order { pair.earlier < pair.later }
    requires soon { pair.later ≤ MOMENT_BOUND }
    requires starts { AreStarts (F.net net.now) pair.later starts.now }
    requires some { 1 ≤ rounds }
    requires few { rounds ≤ ROUND_BOUND }
    ensures { IfOk result (λ o. IfSome o (IsLoopIn (F.net net.now) starts.now)) }
{
    if let Some(entry) = entry_by_rows(net, starts, pair, rounds) {
        let table = loop_table(alloc, net, entry, pair.later - pair.earlier, starts)?;
        return Ok(Some(table));
    }
    Ok(None)
}
