ghost use Rattle.std.specs.Prelude.{◌≡◌, ℕ, ◌+◌, ◌^◌, ◌≤◌, ◌<◌, [], IfOk, length, slice_index, slice_index_or};
ghost use Rattle.sd_base.specs.Schedules.{HasInputs, count_of};
ghost use Rattle.sd_base.specs.Rates.{IsLoop, IsLoopTable};
ghost use Rattle.sd_base.specs.Connection.{IsConnected};
ghost use Rattle.loops.specs.StartRows.{AreStarts, AreCounts, AreBetween, Ascend};

use crate::settled::count_by;
use firing::{Firing, LoopTable, know_laws};
use sd_base::{NoMemory, Rows};
use std::alloc::Global;

/// The firings round a loop: `starts` has by actor all starts up to and with its end, and perhaps later ones. Cost: linear
/// in the actors and in the starts after the entry.
pub fn loop_table<F: Firing>(
    alloc: Global,
    net: &F,
    entry: u64,
    period: u64,
    starts: &[Rows<u64>],
) -> Result<LoopTable, NoMemory>
    requires connected { IsConnected (F.net net.now) }
    requires inputs { HasInputs (F.net net.now) }
    requires fits { entry + period < 2 ^ 64 }
    requires loops { IsLoop (F.net net.now) entry period }
    requires starts { (until : ℕ) × (entry + period ≤ until) × AreStarts (F.net net.now) until starts.now }
    ensures entry { IfOk result (λ table. table.entry ≡ entry) }
    ensures period { IfOk result (λ table. table.period ≡ period) }
    ensures table { IfOk result (λ table. IsLoopTable (F.net net.now) table.entry table.period table.rounds table.before table.starts) }
{
    know_laws(net);
    let before = counts_by(alloc, starts, entry)?;
    let until = counts_by(alloc, starts, entry + period)?;
    let between = starts_between(alloc, starts, before.as_slice(), until.as_slice())?;
    Ok(LoopTable {
        entry,
        period,
        rounds: between[0].len() as u64 / net.round(0),
        before,
        starts: Rows::from_vec(between),
    })
}

/// By actor how many of its starts there are up to and with a moment.
fn counts_by(alloc: Global, starts: &[Rows<u64>], moment: u64) -> Result<Rows<u64>, NoMemory>
    requires ascend { (a : ℕ) → a < length starts.now → Ascend (slice_index_or starts.now a []) }
    ensures { IfOk result (AreCounts starts.now moment) }
{
    let mut counts = Vec::with_capacity(alloc, starts.len())?;
    for row in starts {
        counts.push(count_by(row.as_slice(), moment) as u64)?;
    }
    Ok(Rows::from_vec(counts))
}

/// By actor its starts after the first ones, of which there are `before`, up to those of which there are `until`.
fn starts_between(
    alloc: Global,
    starts: &[Rows<u64>],
    before: &[u64],
    until: &[u64],
) -> Result<Vec<Rows<u64>>, NoMemory>
    requires before { length before.now ≡ length starts.now }
    requires until { length until.now ≡ length starts.now }
    requires order { (a : ℕ) → a < length starts.now → slice_index before.now a ≤ slice_index until.now a }
    requires within { (a : ℕ) → a < length starts.now → slice_index until.now a ≤ count_of starts.now a }
    ensures { IfOk result (λ rows. AreBetween starts.now before.now until.now (length starts.now) rows.items) }
{
    let mut rows = Vec::with_capacity(alloc, starts.len())?;
    for (actor, row) in starts.iter().enumerate() {
        let first = before[actor] as usize;
        let end = until[actor] as usize;
        let between = Vec::from_slice(alloc, &row.as_slice()[first..end])?;
        rows.push(Rows::from_vec(between))?;
    }
    Ok(rows)
}
