//! Rates, and schedules that reach them.
ghost use Rattle.std.specs.Prelude.{◌≡◌, ◌↔◌, ℕ, ◌≤◌, ◌<◌, IsTrue, MatchOption, length};
ghost use Rattle.sd_base.specs.declared.limits.TheConstants.{START};
ghost use Rattle.sd_base.specs.Schedules.{start_of};
ghost use Rattle.periodic.specs.ScheduleLines.{LineHolds};
ghost use Rattle.cert_checker.specs.Schedules.{IsFirstFaulty, IsRateLine, IsScheduleLine};

use firing::Firing;
use periodic::Periodic;
use sd_base::gcd;

/// Whether a rate is above 0 and in lowest terms.
pub(crate) fn is_rate_line(rate: (u64, u64)) -> bool
    ensures { IsTrue result ↔ IsRateLine rate }
{
    rate.0 != 0 && rate.1 != 0 && gcd(rate.0, rate.1) == 1
}

/// Whether a schedule has a line for each actor, and as many rounds in its period as a rate has.
pub(crate) fn is_schedule_line<F: Firing>(net: &F, rate: (u64, u64), schedule: &Periodic) -> bool
    ensures { IsTrue result ↔ IsScheduleLine (F.net net.now) rate schedule.now }
{
    schedule.period != 0
        && schedule.rounds != 0
        && schedule.starts.len() == net.actors() as usize
        && schedule.rounds as u128 * rate.1 as u128 == rate.0 as u128 * schedule.period as u128
}

/// The first actor whose line of starts is wrong.
pub(crate) fn first_faulty<F: Firing>(net: &F, schedule: &Periodic) -> Option<u32>
    requires turns { 1 ≤ schedule.now.rounds }
    requires actors { length schedule.now.starts ≡ length (F.net net.now).times }
    requires small { (a k : ℕ) → start_of schedule.now.starts a k ≤ START }
    ensures { MatchOption result ((a : ℕ) → a < length (F.net net.now).times → LineHolds (F.net net.now) schedule.now.period schedule.now.rounds schedule.now.starts a)
        (IsFirstFaulty (F.net net.now) schedule.now) }
{
    for actor in 0..net.actors() {
        if !schedule.line_holds(net, actor) {
            return Some(actor);
        }
    }
    None
}
