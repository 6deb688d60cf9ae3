//! What an execution looks at next.
//!
//! The engine keeps a calendar with the first end of each actor that runs, with each actor the channel on which it lacked
//! tokens when it was last looked at, and a list of the actors whose such channel has enough since. So an event costs
//! little for an actor that nothing lets go on, and a logarithm of the running actors for each that ends or starts. Where
//! several channels feed no more firings, one from another actor is noted and not the actor's own, which has a token again
//! as soon as a firing ends: so an actor that waits for others isn't looked at when its own firing ends. Of up to 16 actors
//! the calendar is a plain list that is looked through, which costs less than to keep a heap in order. In which order the
//! listed actors start doesn't matter, since only an actor's own starts take tokens from the channels into it.
ghost use Rattle.std.specs.Prelude.{◌≡◌, [], ◌∷◌, ◌++◌, true, nat_lt, if◌then◌else◌, OnOk};
ghost use Rattle.std.specs.List.{range_with_len};
ghost use Rattle.selftimed.specs.inside.EventQueues.{Announces, IsSoonest, TakesDue};

use crate::actors::ActorState;
use crate::calendar::Calendar;
use sd_base::NoMemory;
use std::alloc::{AllocError, Global};

/// What an execution looks at next: the ends to come, and the touched actors.
pub(crate) struct EventQueue {
    /// Of each actor that runs its first end.
    pub(crate) ends: Calendar,
    /// The touched actors.
    pub(crate) touched: Vec<u32>,
    /// The actors of which firings started at the last event.
    pub(crate) starters: Vec<u32>,
}

// By hand, so that what drops one calls this, and does not drop each of its parts.
impl Drop for EventQueue {
    fn drop(self) {
        let EventQueue {
            ends: _ends,
            touched: _touched,
            starters: _starters,
        } = self;
    }
}

impl EventQueue {
    /// That of no actors.
    pub(crate) fn new(alloc: Global) -> EventQueue
        ensures ends { result.ends ≡ [] }
        ensures touched { result.touched.items ≡ [] }
    {
        EventQueue {
            ends: Calendar::new(alloc),
            touched: Vec::new(alloc),
            starters: Vec::new(alloc),
        }
    }

    /// Makes it that of so many actors, of which none runs, and all are touched. It allocates nothing where there were as many.
    pub(crate) fn refill(&mut self, actors: u32) -> Result<(), NoMemory>
        ensures ends { OnOk result (self.new.ends ≡ []) }
        ensures touched { OnOk result (self.new.touched.items ≡ range_with_len 0 actors) }
    {
        self.ends.clear(actors);
        self.touched.clear();
        self.starters.clear();
        for actor in 0..actors {
            self.touched.push(actor)?;
        }
        Ok(())
    }

    /// The soonest end.
    #[inline(always)]
    pub(crate) fn soonest(&self) -> Option<u64>
        ensures { IsSoonest self.now.ends result }
    {
        self.ends.soonest()
    }

    /// Takes off an end that has come by a moment, and tells its actor.
    /// Cost: logarithmic in the actors that run.
    #[inline(always)]
    pub(crate) fn pop_due(&mut self, moment: u64) -> Option<u32>
        ensures taken { TakesDue moment self.old.ends self.new.ends result }
        ensures touched { self.new.touched ≡ self.old.touched }
    {
        self.ends.pop_due(moment)
    }

    /// Notes the first end of an actor, if it runs. Cost: logarithmic in the actors that run.
    #[inline(always)]
    pub(crate) fn announce(&mut self, actor: u32, state: &ActorState) -> Result<(), AllocError>
        ensures ends { OnOk result (Announces actor state.now.running self.old.ends self.new.ends) }
        ensures touched { self.new.touched ≡ self.old.touched }
        ensures starters { self.new.starters ≡ self.old.starters }
    {
        if let Some(end) = state.running.first() {
            self.ends.push(end, actor)?;
        }
        Ok(())
    }

    /// Touches an actor.
    #[inline(always)]
    pub(crate) fn touch(&mut self, actor: u32, state: &mut ActorState) -> Result<(), AllocError>
        ensures state { OnOk result (state.new ≡ record state.old { touched = true }) }
        ensures touched { OnOk result (self.new.touched.items ≡ (if state.old.touched then self.old.touched.items else self.old.touched.items ++ actor ∷ [])) }
        ensures ends { self.new.ends ≡ self.old.ends }
    {
        if !state.touched {
            state.touched = true;
            self.touched.push(actor)?;
        }
        Ok(())
    }

    /// Notes an actor of which so many firings start, if any do.
    #[inline(always)]
    pub(crate) fn note_starts(&mut self, actor: u32, firings: u64) -> Result<(), AllocError>
        ensures starters { OnOk result (self.new.starters.items ≡ (if nat_lt 0 firings then self.old.starters.items ++ actor ∷ [] else self.old.starters.items)) }
        ensures touched { self.new.touched ≡ self.old.touched }
        ensures ends { self.new.ends ≡ self.old.ends }
    {
        if firings > 0 {
            self.starters.push(actor)?;
        }
        Ok(())
    }
}
