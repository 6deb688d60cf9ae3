ghost use Rattle.std.specs.Prelude.{◌≡◌, ◌↔◌, ℕ, ◌+◌, ◌-◌, ◌^◌, ◌<◌, ◌≤◌, IfSome, IsTrue, MatchOption, OnOk, length, set, slice_index, slice_index_or};
ghost use Rattle.std.proofs.Props.{props};
ghost use Rattle.sd_base.specs.Ranges.{RUN_START_BOUND, TOKEN_BOUND};
ghost use Rattle.sd_base.specs.Net.{channel_at, phase_entry};
ghost use Rattle.firing.specs.declared.sums.Port.TheVariants.{Made};
ghost use Rattle.firing.specs.Wiring.{PutsTokens};
ghost use Rattle.selftimed.specs.inside.Actors.{EndsOne, Touches, TouchesItself};
ghost use Rattle.selftimed.specs.inside.EventQueues.{Lists};
ghost use Rattle.selftimed.specs.inside.PortRates.{AreRates, no_rates};
ghost use Rattle.selftimed.specs.inside.Ports.{IsListedBut, MayOwn};

use crate::actors::ActorState;
use crate::event_queue::EventQueue;
use crate::rates::{Rates, moved_span, taken_at};
use crate::tokens::Tokens;
use firing::{Firing, Port};
use sd_base::NoMemory;

/// An actor whose next end is due at a moment.
#[derive(Drop)]
pub(crate) struct DueActor<'a, F: Firing> {
    pub(crate) net: &'a F,
    /// The rates of each channel.
    pub(crate) rates: &'a [Rates],
    /// The actor's own channel.
    pub(crate) own: Option<u32>,
    /// The other channels out of the actor.
    pub(crate) outputs: &'a [u32],
    pub(crate) actor: u32,
    pub(crate) moment: u64,
    ghost is_actor: { actor < length (F.net net.now).times },
    ghost rated: { AreRates (F.net net.now) rates.now },
    ghost owned: { MayOwn (F.net net.now) actor own } by { Prim.hlevel props },
    ghost listed: { IsListedBut (F.net net.now) Made actor own outputs.now } by { Prim.hlevel props },
}

impl<F: Firing> DueActor<'_, F> {
    /// Ends the firings whose end has come.
    #[inline(always)]
    pub(crate) fn end_firings(&self, state: &mut ActorState, tokens: &mut Tokens)
        requires tokens { length tokens.old ≡ length (F.net self.now.net.now).channels }
        requires few { state.old.ended + length state.old.running ≤ RUN_START_BOUND }
        requires small { (i : ℕ) → i < length (F.net self.now.net.now).channels → slice_index tokens.old i ≤ TOKEN_BOUND }
        ensures ended { EndsOne self.now.moment state.old state.new }
        ensures puts { PutsTokens (F.net self.now.net.now) self.now.actor state.old.ended (state.new.ended - state.old.ended) tokens.old tokens.new }
        ensures touched { state.new.touched ≡ state.old.touched }
        ensures lacking { state.new.lacking ≡ state.old.lacking }
        ensures long { length tokens.new ≡ length tokens.old }
    {
        let firings = state.running.pop_ended(self.moment);
        self.put_all(tokens, state.ended, firings);
        state.ended += firings;
    }

    /// Puts the tokens of firings, of which the first has number `from`, on the actor's own channel and the others out of it.
    fn put_all(&self, tokens: &mut Tokens, from: u64, firings: u64)
        requires tokens { length tokens.old ≡ length (F.net self.now.net.now).channels }
        requires few { from + firings ≤ RUN_START_BOUND }
        requires small { (i : ℕ) → i < length (F.net self.now.net.now).channels → slice_index tokens.old i ≤ TOKEN_BOUND }
        ensures puts { PutsTokens (F.net self.now.net.now) self.now.actor from firings tokens.old tokens.new }
        ensures long { length tokens.new ≡ length tokens.old }
    {
        for channel in self.outputs {
            let here = self.rates[*channel as usize];
            let all = moved_span(self.net, here.made, *channel, Port::Made, from, firings);
            tokens.put(*channel, all, here.weight);
        }
        self.put_own(tokens, firings);
    }

    /// Puts a token of each firing on the actor's own channel.
    #[inline(always)]
    fn put_own(&self, tokens: &mut Tokens, firings: u64)
        requires tokens { length tokens.old ≡ length (F.net self.now.net.now).channels }
        requires small { IfSome self.now.own (λ i. slice_index tokens.old i + firings < 2 ^ 64) }
        ensures { MatchOption self.now.own (tokens.new ≡ tokens.old) (λ i. tokens.new ≡ set tokens.old i (slice_index tokens.old i + firings)) }
    {
        if let Some(channel) = self.own {
            tokens.put(channel, firings, self.rates[channel as usize].weight);
        }
    }

    /// Touches the actor, of which firings ended, if it lacked tokens on its own channel: there are some now.
    #[inline(always)]
    pub(crate) fn touch_itself(
        &self,
        actors: &mut [ActorState],
        event_queue: &mut EventQueue,
    ) -> Result<(), NoMemory>
        requires long { length actors.old ≡ length (F.net self.now.net.now).times }
        requires lists { Lists (F.net self.now.net.now) actors.old event_queue.old.touched.items }
        ensures touched { OnOk result (TouchesItself self.now.own self.now.actor actors.old actors.new) }
        ensures lists { OnOk result (Lists (F.net self.now.net.now) actors.new event_queue.new.touched.items) }
        ensures ends { event_queue.new.ends ≡ event_queue.old.ends }
    {
        if let Some(channel) = self.own {
            if actors[self.actor as usize].lacking == channel {
                event_queue.touch(self.actor, &mut actors[self.actor as usize])?;
            }
        }
        Ok(())
    }

    /// Touches the actors into which the other channels lead and that lacked tokens there, if they have enough now.
    #[inline(always)]
    pub(crate) fn touch_targets(
        &self,
        tokens: &[u64],
        actors: &mut [ActorState],
        event_queue: &mut EventQueue,
    ) -> Result<(), NoMemory>
        requires long { length actors.old ≡ length (F.net self.now.net.now).times }
        requires tokens { length tokens.now ≡ length (F.net self.now.net.now).channels }
        requires lists { Lists (F.net self.now.net.now) actors.old event_queue.old.touched.items }
        ensures touched { OnOk result (Touches (F.net self.now.net.now) tokens.now self.now.outputs.now actors.old actors.new) }
        ensures lists { OnOk result (Lists (F.net self.now.net.now) actors.new event_queue.new.touched.items) }
        ensures ends { event_queue.new.ends ≡ event_queue.old.ends }
    {
        for channel in self.outputs {
            let target = target_of(self.rates, *channel);
            if has_enough(
                self.net,
                self.rates,
                tokens,
                *channel,
                &actors[target as usize],
            ) {
                event_queue.touch(target, &mut actors[target as usize])?;
            }
        }
        Ok(())
    }
}

/// The actor into which a channel leads.
fn target_of(rates: &[Rates], channel: u32) -> u32
    requires { channel < length rates.now }
    ensures { result ≡ (slice_index_or rates.now channel no_rates).target }
{
    rates[channel as usize].target
}

/// Whether an actor lacked tokens on a channel that has enough for its next firing now.
fn has_enough<F: Firing>(
    net: &F,
    rates: &[Rates],
    tokens: &[u64],
    channel: u32,
    state: &ActorState,
) -> bool
    requires channel { channel < length (F.net net.now).channels }
    requires rates { AreRates (F.net net.now) rates.now }
    requires tokens { length tokens.now ≡ length (F.net net.now).channels }
    ensures { IsTrue result ↔ ((state.now.lacking ≡ channel)
        × (phase_entry (channel_at (F.net net.now) channel).taken state.now.started ≤ slice_index tokens.now channel)) }
{
    if state.lacking != channel {
        return false;
    }
    let here = rates[channel as usize];
    let needed = taken_at(net, here.taken, channel, state.started);
    needed <= tokens[channel as usize]
}
