//! From when on a row of starts is as it is a period later.
ghost use Rattle.std.specs.Prelude.{◌≡◌, ◌↔◌, ◌+◌, ◌<◌, IsTrue, length, slice_index};
ghost use Rattle.sd_base.specs.Schedules.{time_of};
ghost use Rattle.loops.specs.StartRows.{AreBy, Ascend, EndsRise};
ghost use Rattle.loops.specs.Settling.{AreLikeAfter, IsFirstSettled};

use firing::{Firing, know_laws};

/// How many of some ascending moments there are up to and with one. Cost: logarithmic in them.
pub fn count_by(moments: &[u64], last: u64) -> usize
    requires ascend { Ascend moments.now }
    ensures { AreBy moments.now last result }
{
    let mut count = 0;
    let mut end = moments.len();
    'halves: while count < end {
        let middle = count + (end - count) / 2;
        if moments[middle] <= last {
            count = middle + 1;
        } else {
            end = middle;
        }
    }
    count
}

/// From when on each firing of an actor is a period after the one `more` before it, and none runs that isn't.
pub fn settled_from<F: Firing>(net: &F, actor: u32, row: &[u64], more: usize, period: u64) -> u128
    requires actor { actor < length (F.net net.now).times }
    requires rise { EndsRise (F.net net.now) actor row.now }
    ensures { IsFirstSettled (F.net net.now) actor row.now more period result }
{
    let unlike = unlike_of(row, more, period);
    if unlike == 0 {
        return 0;
    }
    let later = end_of(net, actor, row, unlike - 1).saturating_sub(u128::from(period));
    if unlike <= more {
        return later;
    }
    let earlier = end_of(net, actor, row, unlike - 1 - more);
    if earlier < later { later } else { earlier }
}

/// How many starts there are up to the last one that isn't a period after the one `more` before it.
fn unlike_of(row: &[u64], more: usize, period: u64) -> usize
    ensures { AreLikeAfter row.now more period result }
{
    let mut unlike = row.len();
    'like: while more < unlike && is_after(row[unlike - 1 - more], row[unlike - 1], period) {
        unlike -= 1;
    }
    unlike
}

/// Whether a moment is a period after another one.
pub fn is_after(earlier: u64, later: u64, period: u64) -> bool
    ensures { IsTrue result ↔ (earlier + period ≡ later) }
{
    earlier <= later && later - earlier == period
}

/// When a firing of an actor ends.
pub(crate) fn end_of<F: Firing>(net: &F, actor: u32, row: &[u64], firing: usize) -> u128
    requires actor { actor < length (F.net net.now).times }
    requires firing { firing < length row.now }
    ensures { result ≡ slice_index row.now firing + time_of (F.net net.now) actor firing }
{
    know_laws(net);
    let phase = firing as u64 % u64::from(net.phases(actor));
    u128::from(row[firing]) + u128::from(net.time(actor, phase as u32))
}
