//! Laws of need cycles, each on a function that does nothing.
ghost use Rattle.critical.specs.LaterCycles.{CyclesHoldByRounds};
ghost use Rattle.critical.specs.Bounds.{CyclesBoundTheRate, CyclesMeetTheUpperSide, LoopsHaveACriticalCycle};

/// A need cycle bounds the rate by its rounds per its time (Reiter 1968), and where each actor leads to
/// each, no admissible schedule has more starts than that, up to a constant.
pub fn cycles_bound_the_rate()
    ensures rate { CyclesBoundTheRate }
    ensures upper { CyclesMeetTheUpperSide }
{}

/// Self-timed execution that comes round a loop has a critical cycle: a need cycle whose bound is just the
/// rate of the loop (Ghamarian et al. 2006).
pub fn loops_have_a_critical_cycle()
    ensures { LoopsHaveACriticalCycle }
{}

/// A need cycle holds exactly where it holds with all its firings any whole rounds later.
pub fn cycles_hold_by_rounds()
    ensures { CyclesHoldByRounds }
{}
