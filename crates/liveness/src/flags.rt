ghost use Rattle.std.specs.Prelude.{◌≡◌, ℕ, ◌+◌, ◌<◌, ◌≤◌, true, false, ◌∷◌, ◌++◌, [], All, IfOk, OnOk, MatchOption, if◌then◌else◌, length, replicate, set, slice_index, slice_index_or};
ghost use Rattle.std.specs.List.{range_with_len};
ghost use Rattle.liveness.specs.inside.Looks.{AreFlags, FlagsTargets};

use firing::{Firing, know_laws};
use sd_base::NoMemory;
use std::alloc::{AllocError, Global};

/// The actors that are to be looked at again, each listed once.
#[derive(Debug, Drop)]
pub(crate) struct Flags {
    /// By actor whether it is flagged.
    pub(crate) flagged: Vec<bool>,
    /// The flagged actors; the last one comes next.
    pub(crate) stack: Vec<u32>,
}

impl Flags {
    /// All actors are flagged.
    pub(crate) fn new(alloc: Global, actors: u32) -> Result<Flags, NoMemory>
        ensures flagged { IfOk result (λ f. f.flagged.items ≡ replicate actors true) }
        ensures stack { IfOk result (λ f. f.stack.items ≡ range_with_len 0 actors) }
    {
        let mut flagged = Vec::with_capacity(alloc, actors as usize)?;
        let mut stack = Vec::with_capacity(alloc, actors as usize)?;
        for actor in 0..actors {
            flagged.push(true)?;
            stack.push(actor)?;
        }
        Ok(Flags { flagged, stack })
    }

    /// Takes the flag off the actor that comes next.
    pub(crate) fn pop(&mut self) -> Option<u32>
        requires { All (λ a. a < length self.old.flagged.items) self.old.stack.items }
        ensures { MatchOption result (self.old.stack.items ≡ [])
            (λ a. (self.old.stack.items ≡ self.new.stack.items ++ a ∷ []) × (self.new.flagged.items ≡ set self.old.flagged.items a false)) }
    {
        match self.stack.pop() {
            Some(actor) => {
                self.flagged[actor as usize] = false;
                Some(actor)
            }
            None => None,
        }
    }

    /// Flags an actor.
    fn flag(&mut self, actor: u32) -> Result<(), AllocError>
        requires { actor < length self.old.flagged.items }
        ensures flagged { OnOk result (self.new.flagged.items ≡ set self.old.flagged.items actor true) }
        ensures stack { OnOk result (self.new.stack.items ≡ (if slice_index_or self.old.flagged.items actor false then self.old.stack.items else self.old.stack.items ++ actor ∷ [])) }
    {
        let before = self.flagged[actor as usize];
        self.flagged[actor as usize] = true;
        if !before {
            self.stack.push(actor)?;
        }
        Ok(())
    }

    /// Flags the actors other than this one into which these channels lead.
    pub(crate) fn flag_targets<F: Firing>(
        &mut self,
        net: &F,
        actor: u32,
        channels: &[u32],
    ) -> Result<(), NoMemory>
        requires there { (j : ℕ) → j < length channels.now → slice_index channels.now j < length (F.net net.now).channels }
        requires flags { AreFlags (F.net net.now) self.old.flagged.items self.old.stack.items }
        ensures flags { OnOk result (AreFlags (F.net net.now) self.new.flagged.items self.new.stack.items) }
        ensures targets { OnOk result (FlagsTargets (F.net net.now) actor channels.now self.old.flagged.items self.new.flagged.items) }
        ensures few { OnOk result (length self.new.stack.items ≤ length self.old.stack.items + length channels.now) }
    {
        know_laws(net);
        for channel in channels {
            let target = net.target(*channel);
            if target != actor {
                self.flag(target)?;
            }
        }
        Ok(())
    }
}
