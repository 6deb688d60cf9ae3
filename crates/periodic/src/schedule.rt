ghost use Rattle.std.specs.Prelude.{◌≡◌, ◌↔◌, ◌+◌, ◌≤◌, ◌<◌, ◌^◌, ℕ, IfOk, IsTrue, length};
ghost use Rattle.sd_base.specs.declared.limits.TheConstants.{STARTS, START};
ghost use Rattle.sd_base.specs.Schedules.{start_of, HasInputs};
ghost use Rattle.sd_base.specs.SelfTimed.{starts_by};
ghost use Rattle.sd_base.specs.Rates.{IsLoopTable};
ghost use Rattle.periodic.specs.Periods.{HasRounds, Holds};
ghost use Rattle.periodic.specs.ScheduleLines.{LineHolds};
ghost use Rattle.periodic.specs.LoopSchedules.{IsScheduleOf};

use crate::passes::moved_starts;
use crate::turns::{all_fed, all_rise, has_rounds, line_holds};
use firing::{Firing, LoopTable, know_laws};
use sd_base::{NoMemory, Rows};
use std::alloc::Global;

/// A periodic schedule. By actor, `starts` has the start moments of its firings in `rounds` rounds; with n
/// of them, firing `k + q * n` starts `q * period` time units after firing k.
#[derive(Debug, Drop)]
pub struct Periodic {
    pub period: u64,
    pub rounds: u64,
    pub starts: Rows<Rows<u128>>,
}

impl Periodic {
    /// Whether the schedule can run on the net for ever. On each channel and for each listed firing it looks
    /// at one need alone. Cost: linear in the starts times the channels times the logarithm of the phases, where
    /// the net keeps the sums of its rates.
    pub fn holds<F: Firing>(&self, net: &F) -> bool
        requires small { (a k : ℕ) → start_of self.now.starts a k ≤ START }
        ensures { IsTrue result ↔ Holds (F.net net.now) self.now.period self.now.rounds self.now.starts }
    {
        know_laws(net);
        let rows = self.starts.as_slice();
        if self.period == 0 || self.rounds == 0 || !has_rounds(net, self.rounds, rows) {
            return false;
        }
        all_rise(net, self.rounds, self.period, rows)
            && all_fed(net, self.rounds, self.period, rows)
    }

    /// Whether the starts of one actor are those of `rounds` rounds, none falls, and each of its needs is met in
    /// every period, but for needs of an actor that hasn't so many starts listed. So a fault is told at the line
    /// where it stands. Cost: linear in the channels, and in the starts of the actor times the channels into it
    /// times the logarithm of the phases, where the net keeps the sums of its rates.
    pub fn line_holds<F: Firing>(&self, net: &F, actor: u32) -> bool
        requires turns { 1 ≤ self.now.rounds }
        requires actors { length self.now.starts ≡ length (F.net net.now).times }
        requires actor { actor < length (F.net net.now).times }
        requires small { (a k : ℕ) → start_of self.now.starts a k ≤ START }
        ensures { IsTrue result ↔ LineHolds (F.net net.now) self.now.period self.now.rounds self.now.starts actor }
    {
        line_holds(net, actor, self.rounds, self.period, self.starts.as_slice())
    }
}

/// The schedule of the loop of self-timed execution: read at its second pass, continued backwards to firing
/// 0, and shifted so that the least start is 0. Cost: linear in the starts of a pass.
pub fn from_loop<F: Firing>(alloc: Global, net: &F, table: &LoopTable) -> Result<Periodic, NoMemory>
    requires inputs { HasInputs (F.net net.now) }
    requires table { IsLoopTable (F.net net.now) table.now.entry table.now.period table.now.rounds table.now.before table.now.starts }
    requires few { starts_by (F.net net.now) (table.now.entry + table.now.period) ≤ STARTS }
    ensures { IfOk result (IsScheduleOf (F.net net.now) table.now) }
{
    know_laws(net);
    Ok(Periodic {
        period: table.period,
        rounds: table.rounds,
        starts: moved_starts(alloc, table)?,
    })
}
