//! An event of an execution: the firings that end at its moment, and those that start then.
//!
//! An event tells who started. The engine lists the actors of which firings started, so what keeps the starts looks at
//! these and not at all actors.
ghost use Rattle.std.specs.Prelude.{◌≡◌, ℕ, false, ◌<◌, ◌≤◌, length, IfOk, OnOk, MatchBool};
ghost use Rattle.std.proofs.Props.{props};
ghost use Rattle.std.specs.Bool.{OnTrue};
ghost use Rattle.selftimed.specs.inside.Actors.{started_in, ended_in, touched_in, lacking_in, LacksAt, EndsAll, Stand, Counted, StartedAll, CanOverrun, HaveStarted, IsFirstEnd};
ghost use Rattle.selftimed.specs.inside.Plans.{Plans};
ghost use Rattle.selftimed.specs.inside.PortRates.{AreRates};
ghost use Rattle.selftimed.specs.inside.Ports.{ArePorts};
ghost use Rattle.selftimed.specs.inside.Stands.{IsFresh, Stands, Begins};
ghost use Rattle.selftimed.specs.Moves.{AreStarters, Overruns};
ghost use Rattle.sd_base.specs.Ranges.{MOMENT_BOUND, RUN_START_BOUND};

use crate::actors::ActorState;
use crate::ends::DueActor;
use crate::event_queue::EventQueue;
use crate::ports::Ports;
use crate::rates::Rates;
use crate::starts::Turn;
use crate::tokens::Tokens;
use firing::{Firing, know_laws};
use sd_base::NoMemory;

/// An event of a net's execution, which may make `most` starts in all.
#[derive(Drop)]
pub(crate) struct Event<'a, F: Firing> {
    pub(crate) net: &'a F,
    pub(crate) ports: &'a Ports,
    pub(crate) rates: &'a [Rates],
    pub(crate) moment: u64,
    pub(crate) most: u64,
    ghost few: { most ≤ RUN_START_BOUND },
    ghost rated: { AreRates (F.net net.now) rates.now },
    ghost ported: { ArePorts (F.net net.now) ports.now } by { Prim.hlevel props },
}

impl<F: Firing> Event<'_, F> {
    /// Makes the starts of moment 0. False: all starts are then more than `most`.
    pub(crate) fn begin(
        &self,
        all: &mut u64,
        actors: &mut [ActorState],
        tokens: &mut Tokens,
        event_queue: &mut EventQueue,
    ) -> Result<bool, NoMemory>
        requires first { self.now.moment ≡ 0 }
        requires fresh { IsFresh (F.net self.now.net.now) self.now.most actors.old tokens.old all.old }
        requires event_queue { Plans (F.net self.now.net.now) actors.old event_queue.old }
        ensures fits { IfOk result (λ fits. MatchBool fits (Begins (F.net self.now.net.now) self.now.most actors.new tokens.new all.new)
            (Overruns (F.net self.now.net.now) 0 self.now.most)) }
        ensures event_queue { IfOk result (λ fits. OnTrue fits (Plans (F.net self.now.net.now) actors.new event_queue.new)) }
        ensures starters { IfOk result (λ fits. OnTrue fits (AreStarters (F.net self.now.net.now) self.now.moment event_queue.new.starters.items)) }
    {
        know_laws(self.net);
        let fits = self.start_all(all, actors, tokens, event_queue)?;
        Ok(fits)
    }

    /// Goes to the event from the one before it, and makes its starts. False: all starts are then more than `most`.
    pub(crate) fn follow(
        &self,
        all: &mut u64,
        actors: &mut [ActorState],
        tokens: &mut Tokens,
        event_queue: &mut EventQueue,
    ) -> Result<bool, NoMemory>
        requires stands { (now : ℕ) × Stands (F.net self.now.net.now) now self.now.most actors.old tokens.old all.old }
        requires event_queue { Plans (F.net self.now.net.now) actors.old event_queue.old }
        requires next { IsFirstEnd actors.old self.now.moment }
        ensures fits { IfOk result (λ fits. MatchBool fits (Stands (F.net self.now.net.now) self.now.moment self.now.most actors.new tokens.new all.new)
            (Overruns (F.net self.now.net.now) self.now.moment self.now.most)) }
        ensures event_queue { IfOk result (λ fits. OnTrue fits (Plans (F.net self.now.net.now) actors.new event_queue.new)) }
        ensures starters { IfOk result (λ fits. OnTrue fits (AreStarters (F.net self.now.net.now) self.now.moment event_queue.new.starters.items)) }
    {
        know_laws(self.net);
        self.end_all(actors, tokens, event_queue)?;
        let fits = self.start_all(all, actors, tokens, event_queue)?;
        Ok(fits)
    }

    /// Ends the firings whose end has come, and touches the actors that lacked the tokens made and have enough now.
    #[inline(always)]
    fn end_all(
        &self,
        actors: &mut [ActorState],
        tokens: &mut Tokens,
        event_queue: &mut EventQueue,
    ) -> Result<(), NoMemory>
        requires stand { Stand (F.net self.now.net.now) actors.old tokens.old }
        requires event_queue { Plans (F.net self.now.net.now) actors.old event_queue.old }
        ensures ended { OnOk result (EndsAll (F.net self.now.net.now) self.now.moment actors.old actors.new) }
        ensures stand { OnOk result (Stand (F.net self.now.net.now) actors.new tokens.new) }
        ensures event_queue { OnOk result (Plans (F.net self.now.net.now) actors.new event_queue.new) }
    {
        while let Some(actor) = event_queue.pop_due(self.moment) {
            let due = DueActor {
                net: self.net,
                rates: self.rates,
                own: self.ports.own[actor as usize],
                outputs: self.ports.outputs.of(actor),
                actor,
                moment: self.moment,
            };
            due.end_firings(&mut actors[actor as usize], tokens);
            event_queue.announce(actor, &actors[actor as usize])?;
            due.touch_itself(actors, event_queue)?;
            due.touch_targets(tokens.as_slice(), actors, event_queue)?;
        }
        Ok(())
    }

    /// Starts the firings of the touched actors. False: more than `most` firings could have started in all; the actors and
    /// the tokens are then anything.
    #[inline(always)]
    fn start_all(
        &self,
        all: &mut u64,
        actors: &mut [ActorState],
        tokens: &mut Tokens,
        event_queue: &mut EventQueue,
    ) -> Result<bool, NoMemory>
        requires stand { Stand (F.net self.now.net.now) actors.old tokens.old }
        requires event_queue { Plans (F.net self.now.net.now) actors.old event_queue.old }
        requires counted { Counted actors.old all.old self.now.most }
        requires lacks { (b : ℕ) → b < length (F.net self.now.net.now).times → touched_in actors.old b ≡ false →
            LacksAt (F.net self.now.net.now) (ended_in actors.old) b (started_in actors.old b) (lacking_in actors.old b) }
        requires soon { self.now.moment ≤ MOMENT_BOUND }
        ensures started { IfOk result (λ fits. MatchBool fits (StartedAll (F.net self.now.net.now) self.now.moment actors.old actors.new)
            (CanOverrun (F.net self.now.net.now) (ended_in actors.old) self.now.most)) }
        ensures stand { IfOk result (λ fits. OnTrue fits (Stand (F.net self.now.net.now) actors.new tokens.new)) }
        ensures counted { IfOk result (λ fits. OnTrue fits (Counted actors.new all.new self.now.most)) }
        ensures event_queue { IfOk result (λ fits. OnTrue fits (Plans (F.net self.now.net.now) actors.new event_queue.new)) }
        ensures starters { IfOk result (λ fits. OnTrue fits (HaveStarted (F.net self.now.net.now) actors.old actors.new event_queue.new.starters.items)) }
    {
        event_queue.starters.clear();
        while let Some(actor) = event_queue.touched.pop() {
            if !actors[actor as usize].touched {
                continue;
            }
            let turn = Turn {
                net: self.net,
                rates: self.rates,
                own: self.ports.own[actor as usize],
                inputs: self.ports.inputs.of(actor),
                actor,
                moment: self.moment,
            };
            let was_idle = actors[actor as usize].running.first().is_none();
            match turn.start_one(self.most - *all, &mut actors[actor as usize], tokens)? {
                Some(firings) => {
                    *all += firings;
                    event_queue.note_starts(actor, firings)?;
                }
                None => return Ok(false),
            }
            if was_idle {
                event_queue.announce(actor, &actors[actor as usize])?;
            }
        }
        Ok(true)
    }
}
