//! What rows of starts show of a loop, without the events of the execution.
ghost use Rattle.std.specs.Prelude.{◌≡◌, ◌↔◌, ℕ, ◌+◌, ◌-◌, ◌≤◌, ◌<◌, IfSome, IsTrue, length, slice_index};
ghost use Rattle.sd_base.specs.Ranges.{MOMENT_BOUND, ROUND_BOUND};
ghost use Rattle.sd_base.specs.Schedules.{HasInputs, phases_at, time_of};
ghost use Rattle.sd_base.specs.SelfTimed.{IsEvent};
ghost use Rattle.sd_base.specs.Rates.{IsLoop};
ghost use Rattle.sd_base.specs.Connection.{IsConnected};
ghost use Rattle.loops.specs.StartRows.{AreStarts, Ascend};
ghost use Rattle.need_loops.specs.inside.Showing.{IsFirstDoubled, IsFirstEnd, IsFirstEvent, SettlesFrom};

use crate::unlike::fewer_differ;
use firing::{Firing, know_laws};
use loops::{Pair, count_by, is_after, settled_from};
use sd_base::Rows;

/// The entry of a loop of so many rounds, if the starts up to the later of two moments show that each actor starts these rounds
/// between them and that the shape at the earlier one comes again. That no fewer rounds make a loop is told by firings that start
/// unlike times after those so many rounds before them. Cost: linear in the starts after the entry, and in all starts for each
/// lesser number of rounds.
pub(crate) fn entry_by_rows<F: Firing>(
    net: &F,
    starts: &[Rows<u64>],
    pair: Pair,
    rounds: u64,
) -> Option<u64>
    requires single { (a : ℕ) → a < length (F.net net.now).times → phases_at (F.net net.now) a ≡ 1 }
    requires connected { IsConnected (F.net net.now) }
    requires inputs { HasInputs (F.net net.now) }
    requires order { pair.earlier < pair.later }
    requires soon { pair.later ≤ MOMENT_BOUND }
    requires starts { AreStarts (F.net net.now) pair.later starts.now }
    requires some { 1 ≤ rounds }
    requires few { rounds ≤ ROUND_BOUND }
    ensures before { IfSome result (λ entry. entry ≤ pair.earlier) }
    ensures loops { IfSome result (λ entry. IsLoop (F.net net.now) entry (pair.later - pair.earlier)) }
{
    let from = settled_since(net, starts, pair, rounds)?;
    let entry = doubled_since(net, starts, from, pair)?;
    if fewer_differ(net, starts, entry, rounds) {
        Some(entry)
    } else {
        None
    }
}

/// From when on each firing is a period after the one so many rounds before it, or neither runs any more, if that is so by the
/// earlier moment and these rounds lie between.
fn settled_since<F: Firing>(net: &F, starts: &[Rows<u64>], pair: Pair, rounds: u64) -> Option<u64>
    requires inputs { HasInputs (F.net net.now) }
    requires order { pair.earlier < pair.later }
    requires starts { AreStarts (F.net net.now) pair.later starts.now }
    requires few { rounds ≤ ROUND_BOUND }
    ensures { IfSome result (SettlesFrom (F.net net.now) starts.now rounds pair.earlier pair.later) }
{
    know_laws(net);
    let mut from = 0u128;
    for actor in 0..net.actors() {
        let row = starts[actor as usize].as_slice();
        let more = (rounds * net.round(actor)) as usize;
        if row.len() < more || count_by(row, pair.earlier) != row.len() - more {
            return None;
        }
        let settled = settled_from(net, actor, row, more, pair.later - pair.earlier);
        if from < settled {
            from = settled;
        }
    }
    if from <= u128::from(pair.earlier) {
        Some(from as u64)
    } else {
        None
    }
}

/// The first event from a moment on that is one a period later too, where from this moment on all events but the first are.
fn doubled_since<F: Firing>(net: &F, starts: &[Rows<u64>], from: u64, pair: Pair) -> Option<u64>
    requires single { (a : ℕ) → a < length (F.net net.now).times → phases_at (F.net net.now) a ≡ 1 }
    requires inputs { HasInputs (F.net net.now) }
    requires order { pair.earlier < pair.later }
    requires soon { pair.later ≤ MOMENT_BOUND }
    requires from { from ≤ pair.earlier }
    requires starts { AreStarts (F.net net.now) pair.later starts.now }
    ensures { IfSome result (IsFirstDoubled (F.net net.now) from (pair.later - pair.earlier) pair.earlier) }
{
    let period = pair.later - pair.earlier;
    let mut event = event_from(net, starts, from, pair.later)?;
    if event == from && !is_event(net, starts, from + period) {
        event = event_from(net, starts, from + 1, pair.later)?;
    }
    if event <= pair.earlier && is_event(net, starts, event + period) {
        Some(event)
    } else {
        None
    }
}

/// Whether a moment is an event: whether it is 0, or a firing ends at it. Cost: logarithmic in each row.
fn is_event<F: Firing>(net: &F, starts: &[Rows<u64>], moment: u64) -> bool
    requires single { (a : ℕ) → a < length (F.net net.now).times → phases_at (F.net net.now) a ≡ 1 }
    requires inputs { HasInputs (F.net net.now) }
    requires starts { (until : ℕ) × (moment ≤ until) × AreStarts (F.net net.now) until starts.now }
    ensures { IsTrue result ↔ IsEvent (F.net net.now) moment }
{
    if moment == 0 {
        return true;
    }
    for actor in 0..net.actors() {
        if ends_at(net, actor, starts[actor as usize].as_slice(), moment) {
            return true;
        }
    }
    false
}

/// The first event from one moment on, if there is one up to another. Cost: logarithmic in each row.
fn event_from<F: Firing>(net: &F, starts: &[Rows<u64>], from: u64, until: u64) -> Option<u64>
    requires single { (a : ℕ) → a < length (F.net net.now).times → phases_at (F.net net.now) a ≡ 1 }
    requires inputs { HasInputs (F.net net.now) }
    requires soon { until ≤ MOMENT_BOUND }
    requires starts { AreStarts (F.net net.now) until starts.now }
    ensures { IfSome result (IsFirstEvent (F.net net.now) from until) }
{
    if from == 0 {
        return Some(0);
    }
    let mut first = u64::MAX;
    for actor in 0..net.actors() {
        let end = end_from(net, actor, starts[actor as usize].as_slice(), from);
        if end < first {
            first = end;
        }
    }
    if first <= until { Some(first) } else { None }
}

/// Whether a firing of a row ends at a moment.
fn ends_at<F: Firing>(net: &F, actor: u32, row: &[u64], moment: u64) -> bool
    requires actor { actor < length (F.net net.now).times }
    requires single { phases_at (F.net net.now) actor ≡ 1 }
    requires ascend { Ascend row.now }
    ensures { IsTrue result ↔ ((k : ℕ) × (k < length row.now) × (slice_index row.now k + time_of (F.net net.now) actor k ≡ moment)) }
{
    know_laws(net);
    let time = net.time(actor, 0);
    if moment < time {
        return false;
    }
    let count = count_by(row, moment - time);
    count != 0 && is_after(row[count - 1], moment, time)
}

/// The first end of a row's firings from a moment on, or the greatest number.
fn end_from<F: Firing>(net: &F, actor: u32, row: &[u64], from: u64) -> u64
    requires actor { actor < length (F.net net.now).times }
    requires single { phases_at (F.net net.now) actor ≡ 1 }
    requires ascend { Ascend row.now }
    requires soon { (k : ℕ) → k < length row.now → slice_index row.now k ≤ MOMENT_BOUND }
    ensures { IsFirstEnd (F.net net.now) actor row.now from result }
{
    know_laws(net);
    let time = net.time(actor, 0);
    let before = if time < from {
        count_by(row, from - time - 1)
    } else {
        0
    };
    if before < row.len() {
        row[before] + time
    } else {
        u64::MAX
    }
}
