//! When each firing of self-timed execution starts.
//!
//! The starts up to the entry are made twice: the loop's table has only their numbers, so a second execution up to there
//! makes them. It isn't counted, since no shape is looked for in it.
ghost use Rattle.std.specs.Prelude.{◌≡◌, ◌+◌, ◌≤◌, ◌<◌, IfSome, length};
ghost use Rattle.sd_base.specs.Ranges.{FIRING_BOUND, FULL_MOMENT_BOUND, WIDE_MOMENT_BOUND};
ghost use Rattle.sd_base.specs.declared.limits.TheConstants.{TIME};
ghost use Rattle.sd_base.specs.Schedules.{time_of};
ghost use Rattle.completion.specs.inside.Timetables.{IsFull, before_of, end_at, moment_of, pass_of};
ghost use Rattle.completion.specs.inside.Walks.{FitsTimes};

use firing::{Firing, LoopTable, know_laws};
use sd_base::Rows;

/// A firing of an actor, with the moment at which it starts in self-timed execution.
#[derive(Clone, Copy, Debug)]
pub(crate) struct Start {
    pub(crate) actor: u32,
    pub(crate) number: u64,
    /// In time units.
    pub(crate) moment: u128,
}

/// All starts of self-timed execution: by actor those up to and with the entry of its loop, and the loop.
#[derive(Drop)]
pub(crate) struct Timetable {
    pub(crate) early: Vec<Rows<u64>>,
    pub(crate) table: LoopTable,
}

impl Timetable {
    /// A firing, with its start.
    pub(crate) fn start(&self, actor: u32, number: u64) -> Start
        requires full { IsFull self.now }
        requires actor { actor < length self.now.table.starts }
        requires few { number ≤ FIRING_BOUND }
        ensures actor { result.actor ≡ actor }
        ensures number { result.number ≡ number }
        ensures moment { result.moment ≡ moment_of self.now actor number }
        ensures soon { result.moment ≤ WIDE_MOMENT_BOUND }
    {
        Start {
            actor,
            number,
            moment: self.moment(actor, number),
        }
    }

    /// When a firing starts: after the entry whole periods after its like in the first pass.
    fn moment(&self, actor: u32, number: u64) -> u128
        requires full { IsFull self.now }
        requires actor { actor < length self.now.table.starts }
        requires few { number ≤ FIRING_BOUND }
        ensures moment { result ≡ moment_of self.now actor number }
        ensures soon { result ≤ WIDE_MOMENT_BOUND }
    {
        let early = self.early[actor as usize].as_slice();
        let before = early.len() as u64;
        if number < before {
            return u128::from(early[number as usize]);
        }
        let pass = self.table.starts.as_slice()[actor as usize].as_slice();
        let later = number - before;
        let periods = later / pass.len() as u64;
        let place = later % pass.len() as u64;
        u128::from(pass[place as usize]) + u128::from(periods) * u128::from(self.table.period)
    }

    /// How many firings of an actor have started by the entry.
    fn before(&self, actor: u32) -> u64
        requires { actor < length self.now.early.items }
        ensures { result ≡ before_of self.now actor }
    {
        self.early[actor as usize].len() as u64
    }

    /// How many firings of an actor a pass has.
    fn pass(&self, actor: u32) -> u64
        requires { actor < length self.now.table.starts }
        ensures { result ≡ pass_of self.now actor }
    {
        self.table.starts.as_slice()[actor as usize].len() as u64
    }

    /// How often the way from one firing to another fits between the entry and the earlier one, if both are of one
    /// actor, whole passes apart.
    pub(crate) fn segments(&self, earlier: Start, later: Start) -> Option<u64>
        requires full { IsFull self.now }
        requires actor { earlier.actor < length self.now.table.starts }
        requires order { later.actor ≡ earlier.actor → earlier.number < later.number }
        ensures { IfSome result (FitsTimes self.now earlier later) }
    {
        if earlier.actor != later.actor {
            return None;
        }
        let before = self.before(earlier.actor);
        let pass = self.pass(earlier.actor);
        let apart = later.number - earlier.number;
        if earlier.number < before || apart % pass != 0 {
            return None;
        }
        Some((earlier.number - before) / apart)
    }
}

/// When a firing ends.
pub(crate) fn end<F: Firing>(net: &F, start: Start) -> u128
    requires actor { start.actor < length (F.net net.now).times }
    requires soon { start.moment ≤ FULL_MOMENT_BOUND }
    ensures { result ≡ end_at (F.net net.now) start }
{
    start.moment + u128::from(time_at(net, start.actor, start.number))
}

/// The time of a firing.
pub(crate) fn time_at<F: Firing>(net: &F, actor: u32, number: u64) -> u64
    requires { actor < length (F.net net.now).times }
    ensures time { result ≡ time_of (F.net net.now) actor number }
    ensures short { result ≤ TIME }
{
    know_laws(net);
    net.time(actor, (number % u64::from(net.phases(actor))) as u32)
}
