ghost use Rattle.std.specs.Prelude.{◌+◌, ◌≤◌, IfOk};
ghost use Rattle.sd_base.specs.declared.limits.TheConstants.{STARTS};
ghost use Rattle.sd_base.specs.Schedules.{HasInputs};
ghost use Rattle.sd_base.specs.SelfTimed.{starts_by};
ghost use Rattle.sd_base.specs.Rates.{IsLoopTable};
ghost use Rattle.critical.specs.CriticalCycles.{IsCriticalCycleOf};

use crate::closing::closed_cycle;
use crate::cycle::NeedCycle;
use crate::walk::walk_back;
use firing::{Firing, LoopTable, Wired, Wiring, know_laws};
use sd_base::NoMemory;
use std::alloc::Global;

/// A critical need cycle of the loop (Ghamarian et al. 2006): the way back from actor 0's last firing
/// of the second pass, each time along the net's first channel whose need is tight, up to where an actor comes again
/// whole passes before; numbered as low as leaves no firing below 0. Cost: linear in the
/// starts of a pass times the channels into an actor.
pub fn cycle_of<F: Firing>(alloc: Global, net: &F, table: &LoopTable) -> Result<NeedCycle, NoMemory>
    requires inputs { HasInputs (F.net net.now) }
    requires table { IsLoopTable (F.net net.now) table.now.entry table.now.period table.now.rounds table.now.before table.now.starts }
    requires few { starts_by (F.net net.now) (table.now.entry + table.now.period) ≤ STARTS }
    ensures { IfOk result (IsCriticalCycleOf (F.net net.now) table.now) }
{
    let wiring = Wiring::new(alloc, net)?;
    let wired = Wired {
        net,
        wiring: &wiring,
    };
    critical_cycle(alloc, &wired, table)
}

/// The cycle that `cycle_of` finds, of a net whose channels by actor are there already.
pub fn critical_cycle<F: Firing>(
    alloc: Global,
    wired: &Wired<F>,
    table: &LoopTable,
) -> Result<NeedCycle, NoMemory>
    requires inputs { HasInputs (F.net wired.now.net.now) }
    requires table { IsLoopTable (F.net wired.now.net.now) table.now.entry table.now.period table.now.rounds table.now.before table.now.starts }
    requires few { starts_by (F.net wired.now.net.now) (table.now.entry + table.now.period) ≤ STARTS }
    ensures { IfOk result (IsCriticalCycleOf (F.net wired.now.net.now) table.now) }
{
    know_laws(wired.net);
    let way = walk_back(alloc, wired, table)?;
    closed_cycle(alloc, wired.net, table, way.met.as_slice(), way.from)
}
