ghost use Rattle.periodic.specs.LoopSchedules.{LoopHolds, OneLoopSchedule};
ghost use Rattle.periodic.specs.Periods.{RoundsBelow};
ghost use Rattle.periodic.specs.ScheduleLines.{LinesDecide};

/// Where each actor has an input, a periodic schedule that holds bounds self-timed execution from below: up to a constant,
/// no fewer rounds end in each of its periods than it says. It does nothing.
pub fn schedules_bound_the_rate()
    ensures { RoundsBelow }
{}

/// A periodic schedule holds on a net exactly where the line of each actor does. It does nothing.
pub fn lines_decide()
    ensures { LinesDecide }
{}

/// The schedule of the loop of self-timed execution, read at the second pass and continued backwards to
/// firing 0, holds on the net. It does nothing.
pub fn loop_schedules_hold()
    ensures { LoopHolds }
{}

/// The schedules of one loop list the same starts. It does nothing.
pub fn loops_have_one_schedule()
    ensures { OneLoopSchedule }
{}
