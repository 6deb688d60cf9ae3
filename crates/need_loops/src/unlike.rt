//! Which numbers of rounds make no loop, by rows of starts.
ghost use Rattle.std.specs.Prelude.{◌≡◌, ◌≢◌, ℕ, ◌+◌, ◌-◌, ◌≤◌, ◌<◌, IfSome, IsTrue, length, slice_index};
ghost use Rattle.need_loops.specs.inside.Showing.{Differ, IsApart};
ghost use Rattle.sd_base.specs.Ranges.{ROUND_BOUND};

use firing::{Firing, know_laws};
use loops::is_after;
use sd_base::Rows;

/// Whether for each lesser number of rounds some firings show that their starts after a moment don't come again after so many
/// rounds. Cost: linear in the starts for each number.
pub(crate) fn fewer_differ<F: Firing>(
    net: &F,
    starts: &[Rows<u64>],
    after: u64,
    rounds: u64,
) -> bool
    requires rows { length starts.now ≡ length (F.net net.now).times }
    requires few { rounds ≤ ROUND_BOUND }
    ensures { IsTrue result → (k : ℕ) → 1 ≤ k → k < rounds → Differ (F.net net.now) starts.now after k }
{
    for fewer in 1..rounds {
        if !differ(net, starts, after, fewer) {
            return false;
        }
    }
    true
}

/// Whether two firings start unlike times after those so many rounds before them, all after a moment.
fn differ<F: Firing>(net: &F, starts: &[Rows<u64>], after: u64, rounds: u64) -> bool
    requires rows { length starts.now ≡ length (F.net net.now).times }
    requires few { rounds ≤ ROUND_BOUND }
    ensures { IsTrue result → Differ (F.net net.now) starts.now after rounds }
{
    know_laws(net);
    let Some(apart) = last_apart(net, starts, after, rounds) else {
        return false;
    };
    for actor in 0..net.actors() {
        let row = starts[actor as usize].as_slice();
        let more = (rounds * net.round(actor)) as usize;
        if let Some(_firing) = other_than(row, more, after, apart) {
            return true;
        }
    }
    false
}

/// How long after the one so many rounds before it the last firing of actor 0 starts, if both start after a moment.
fn last_apart<F: Firing>(net: &F, starts: &[Rows<u64>], after: u64, rounds: u64) -> Option<u64>
    requires rows { length starts.now ≡ length (F.net net.now).times }
    requires few { rounds ≤ ROUND_BOUND }
    ensures { IfSome result (IsApart (F.net net.now) starts.now after rounds) }
{
    know_laws(net);
    let row = starts[0].as_slice();
    let more = (rounds * net.round(0)) as usize;
    if row.len() <= more {
        return None;
    }
    let last = row[row.len() - 1];
    let earlier = row[row.len() - 1 - more];
    if after < earlier && earlier <= last {
        Some(last - earlier)
    } else {
        None
    }
}

/// The first start of a row that isn't so long after the one `more` before it, where that is after a moment.
fn other_than(row: &[u64], more: usize, after: u64, apart: u64) -> Option<usize>
    ensures within { IfSome result (λ j. j < length row.now) }
    ensures back { IfSome result (λ j. more ≤ j) }
    ensures late { IfSome result (λ j. after < slice_index row.now (j - more)) }
    ensures unlike { IfSome result (λ j. slice_index row.now (j - more) + apart ≢ slice_index row.now j) }
{
    for place in more..row.len() {
        let earlier = row[place - more];
        if after < earlier && !is_after(earlier, row[place], apart) {
            return Some(place);
        }
    }
    None
}
