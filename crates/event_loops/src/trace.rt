//! What an execution leaves behind: the moments of its events, and its starts.
ghost use Rattle.std.specs.Prelude.{◌≡◌, ◌↔◌, ◌≤◌, ◌<◌, [], IfOk, IsTrue, OnOk, length, replicate};
ghost use Rattle.sd_base.specs.declared.limits.TheConstants.{STARTS as MOST_STARTS};
ghost use Rattle.sd_base.specs.Schedules.{HasInputs};
ghost use Rattle.sd_base.specs.SelfTimed.{starts_by};
ghost use Rattle.selftimed.specs.declared.engine.Stage.TheVariants.{Running};
ghost use Rattle.event_loops.specs.inside.Tracing.{IsLastOf, IsTrace, IsTraceBefore};

use crate::collect::add_starts;
use firing::Firing;
use loops::{empty_rows, room_for, starts_of_round};
use sd_base::limits::STARTS;
use sd_base::{NoMemory, Rows};
use selftimed::Engine;
use std::alloc::Global;

/// The events of an execution up to one of them, ascending, and by actor the starts up to and with it.
pub(crate) struct Trace {
    pub(crate) moments: Vec<u64>,
    pub(crate) starts: Vec<Rows<u64>>,
}

// By hand, so that what drops one calls this, and does not drop each of its parts.
impl Drop for Trace {
    fn drop(self) {
        let Trace {
            moments: _moments,
            starts: _starts,
        } = self;
    }
}

impl Trace {
    /// A trace without events, with room for those of two rounds if these are few.
    pub(crate) fn new<F: Firing>(alloc: Global, net: &F) -> Result<Trace, NoMemory>
        ensures moments { IfOk result (λ trace. trace.moments.items ≡ []) }
        ensures starts { IfOk result (λ trace. trace.starts.items ≡ replicate (length (F.net net.now).times) []) }
    {
        let moments = Vec::with_capacity(alloc, room_for(starts_of_round(net)))?;
        let starts = empty_rows(alloc, net)?;
        Ok(Trace { moments, starts })
    }

    /// Adds the event at which an engine stands, the next one after those that are there, unless more than `STARTS` firings
    /// have started by then.
    #[inline(always)]
    pub(crate) fn add<F: Firing>(&mut self, engine: &Engine<F>) -> Result<(), NoMemory>
        requires inputs { HasInputs (F.net engine.now.net.now) }
        requires running { engine.now.stage ≡ Running }
        requires before { IsTraceBefore (F.net engine.now.net.now) engine.now.moment self.old.moments.items self.old.starts.items }
        ensures few { OnOk result (starts_by (F.net engine.now.net.now) engine.now.moment ≤ MOST_STARTS →
            IsTrace (F.net engine.now.net.now) engine.now.moment self.new.moments.items self.new.starts.items) }
        ensures many { OnOk result (MOST_STARTS < starts_by (F.net engine.now.net.now) engine.now.moment →
            (self.new.moments.items ≡ self.old.moments.items) × (self.new.starts.items ≡ self.old.starts.items)) }
    {
        if engine.starts() <= STARTS {
            self.moments.push(engine.moment())?;
            add_starts(engine, self.starts.as_mut_slice())?;
        }
        Ok(())
    }

    /// Whether the event of a moment is the last one.
    pub(crate) fn ends_at(&self, moment: u64) -> bool
        ensures { IsTrue result ↔ IsLastOf self.now.moments.items moment }
    {
        let events = self.moments.len();
        events != 0 && self.moments[events - 1] == moment
    }
}
