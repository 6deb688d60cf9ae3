//! A need cycle from the way back to a firing that came again.
ghost use Rattle.std.specs.Prelude.{◌≡◌, ◌+◌, ◌-◌, ◌*◌, ◌<◌, ◌≤◌, IfOk, length, slice_index};
ghost use Rattle.critical.specs.CriticalCycles.{IsCriticalCycleOf};
ghost use Rattle.critical.specs.inside.Trails.{IsShortLoop, IsSecond, ComesAgain, GoesAlong, IsLeastRounds, met_at, raised_number, lowered_firing, steps_of};
ghost use Rattle.sd_base.specs.Ranges.{PASSED_ROUNDS_BOUND};

use crate::cycle::{CycleStep, FiringNo, NeedCycle};
use crate::steps::CycleSteps;
use crate::walk::Met;
use firing::{Firing, LoopTable};
use sd_base::NoMemory;
use std::alloc::Global;

/// The cycle of the firings met from the place `from` on, in the order of time.
pub(crate) fn closed_cycle<F: Firing>(
    alloc: Global,
    net: &F,
    table: &LoopTable,
    met: &[Met],
    from: usize,
) -> Result<NeedCycle, NoMemory>
    requires table { IsShortLoop (F.net net.now) table.now }
    requires again { ComesAgain (F.net net.now) table.now met.now from }
    ensures critical { IfOk result (IsCriticalCycleOf (F.net net.now) table.now) }
    ensures along { IfOk result (λ cycle. GoesAlong met.now from cycle.steps) }
{
    let start = met[from];
    let end = met[met.len() - 1];
    let rounds = least_rounds(net, table, met, from);
    let steps = steps_forward(alloc, net, table, met, from, rounds)?;
    Ok(NeedCycle {
        time: end.time - start.time,
        rounds: (end.passes - start.passes) * table.rounds,
        first: lowered(net, table, end, end.passes, rounds),
        steps,
    })
}

/// By how many rounds the firings met from a place on can be lowered, where the last of them lies in the
/// second pass and the others after it.
fn least_rounds<F: Firing>(net: &F, table: &LoopTable, met: &[Met], from: usize) -> u64
    requires table { IsShortLoop (F.net net.now) table.now }
    requires again { ComesAgain (F.net net.now) table.now met.now from }
    ensures { IsLeastRounds (F.net net.now) table.now met.now from (met_at met.now (length met.now - 1)).passes result }
{
    let end = met[met.len() - 1];
    let mut least = end.firing.number / net.round(end.firing.actor);
    for i in from..met.len() - 1 {
        let rounds = raised(net, table, met[i], end.passes) / net.round(met[i].firing.actor);
        least = least.min(rounds);
    }
    least
}

/// The steps from the last firing met on to that at `from`, all firings so many rounds lower.
fn steps_forward<F: Firing>(
    alloc: Global,
    net: &F,
    table: &LoopTable,
    met: &[Met],
    from: usize,
    rounds: u64,
) -> Result<CycleSteps, NoMemory>
    requires table { IsShortLoop (F.net net.now) table.now }
    requires again { ComesAgain (F.net net.now) table.now met.now from }
    requires least { IsLeastRounds (F.net net.now) table.now met.now from (met_at met.now (length met.now - 1)).passes rounds }
    ensures { IfOk result (λ steps. steps ≡ steps_of
        (λ i. lowered_firing (F.net net.now) table.now (met_at met.now (length met.now - 1)).passes rounds (met_at met.now i))
        (λ i. (met_at met.now (i + 1)).channel) from (length met.now - 1 - from)) }
{
    let passes = met[met.len() - 1].passes;
    let mut steps = CycleSteps::new(alloc);
    for i in (from..met.len() - 1).rev() {
        steps.push(CycleStep {
            channel: met[i + 1].channel,
            to: lowered(net, table, met[i], passes, rounds),
        })?;
    }
    Ok(steps)
}

/// The number of a firing met, with all firings met so many passes later.
fn raised<F: Firing>(net: &F, table: &LoopTable, met: Met, passes: u64) -> u64
    requires table { IsShortLoop (F.net net.now) table.now }
    requires second { IsSecond table.now met.firing }
    requires before { met.passes ≤ passes }
    requires near { passes * table.now.rounds ≤ PASSED_ROUNDS_BOUND }
    ensures { result ≡ raised_number (F.net net.now) table.now passes met }
{
    met.firing.number + (passes - met.passes) * table.rounds * net.round(met.firing.actor)
}

/// The same firing so many rounds lower.
fn lowered<F: Firing>(net: &F, table: &LoopTable, met: Met, passes: u64, rounds: u64) -> FiringNo
    requires table { IsShortLoop (F.net net.now) table.now }
    requires second { IsSecond table.now met.firing }
    requires before { met.passes ≤ passes }
    requires near { passes * table.now.rounds ≤ PASSED_ROUNDS_BOUND }
    requires enough { rounds * slice_index (F.net net.now).round met.firing.actor ≤ raised_number (F.net net.now) table.now passes met }
    ensures { result ≡ lowered_firing (F.net net.now) table.now passes rounds met }
{
    FiringNo {
        actor: met.firing.actor,
        number: raised(net, table, met, passes) - rounds * net.round(met.firing.actor),
    }
}
