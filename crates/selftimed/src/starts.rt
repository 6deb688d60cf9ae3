ghost use Rattle.std.specs.Prelude.{◌≡◌, ℕ, ◌+◌, ◌-◌, ◌*◌, ◌%◌, ◌<◌, ◌≤◌, None, length, set, slice_index, IfOk, IfSome, OnOk, MatchOption};
ghost use Rattle.std.proofs.Props.{props};
ghost use Rattle.sd_base.specs.Ranges.{MOMENT_BOUND, RUN_START_BOUND};
ghost use Rattle.sd_base.specs.Net.{channel_at};
ghost use Rattle.sd_base.specs.Schedules.{phases_at, time_of};
ghost use Rattle.firing.specs.declared.sums.Port.TheVariants.{Taken};
ghost use Rattle.firing.specs.Wiring.{SufficesBefore, IsFirstLack, TakesTokens};
ghost use Rattle.selftimed.specs.inside.Actors.{StartsOne};
ghost use Rattle.selftimed.specs.inside.PortRates.{AreRates};
ghost use Rattle.selftimed.specs.inside.Ports.{IsListedBut, MayOwn};
ghost use Rattle.selftimed.specs.inside.Starts.{AddsEnds, Feeds, FeedsNoMore, StartsAll, Overfills};

use crate::actors::ActorState;
use crate::rates::{Rates, moved_span, taken_at};
use crate::running::Running;
use crate::tokens::Tokens;
use firing::{Firing, Port, know_laws};
use sd_base::NoMemory;

/// Firings of an actor that start together, and a channel that lacks tokens for the next one.
#[derive(Clone, Copy, Debug)]
pub(crate) struct Begun {
    pub(crate) firings: u64,
    pub(crate) lacking: u32,
}

/// The turn of an actor at a moment, to start what firings of it can start.
#[derive(Drop)]
pub(crate) struct Turn<'a, F: Firing> {
    pub(crate) net: &'a F,
    /// The rates of each channel.
    pub(crate) rates: &'a [Rates],
    /// The actor's own channel.
    pub(crate) own: Option<u32>,
    /// The other channels into the actor.
    pub(crate) inputs: &'a [u32],
    pub(crate) actor: u32,
    pub(crate) moment: u64,
    ghost is_actor: { actor < length (F.net net.now).times },
    ghost rated: { AreRates (F.net net.now) rates.now },
    ghost owned: { MayOwn (F.net net.now) actor own } by { Prim.hlevel props },
    ghost listed: { IsListedBut (F.net net.now) Taken actor own inputs.now } by { Prim.hlevel props },
    ghost soon: { moment ≤ MOMENT_BOUND },
}

impl<F: Firing> Turn<'_, F> {
    /// Starts the firings that can start, and tells how many there are. None: more than `room` can start; the state and the
    /// tokens are then anything.
    #[inline(always)]
    pub(crate) fn start_one(
        &self,
        room: u64,
        state: &mut ActorState,
        tokens: &mut Tokens,
    ) -> Result<Option<u64>, NoMemory>
        requires tokens { length tokens.old ≡ length (F.net self.now.net.now).channels }
        requires few { state.old.started + room ≤ RUN_START_BOUND }
        requires runs { length state.old.running ≤ state.old.started }
        ensures long { length tokens.new ≡ length tokens.old }
        ensures starts { IfOk result (λ o. MatchOption o (Overfills (F.net self.now.net.now) tokens.old self.now.actor state.old.started room)
            (λ n. (n ≤ room) × StartsOne (F.net self.now.net.now) self.now.actor self.now.moment n tokens.old tokens.new state.old state.new)) }
    {
        state.touched = false;
        let from = state.started;
        match self.start_from(from, room, tokens, &mut state.running)? {
            Some(begun) => {
                state.started = from + begun.firings;
                state.lacking = begun.lacking;
                Ok(Some(begun.firings))
            }
            None => Ok(None),
        }
    }

    /// Starts firings from number `from` on, until a channel into the actor lacks tokens. None: more than `room` firings can
    /// start; the tokens and the running firings are then anything. Cost: that of the channels into the actor, for
    /// each firing where it has more than one phase.
    #[inline(always)]
    fn start_from(
        &self,
        from: u64,
        room: u64,
        tokens: &mut Tokens,
        running: &mut Running,
    ) -> Result<Option<Begun>, NoMemory>
        requires tokens { length tokens.old ≡ length (F.net self.now.net.now).channels }
        requires few { from + room ≤ RUN_START_BOUND }
        requires runs { length running.old ≤ from }
        ensures long { length tokens.new ≡ length tokens.old }
        ensures starts { IfOk result (λ o. MatchOption o (Overfills (F.net self.now.net.now) tokens.old self.now.actor from room)
            (λ b. (b.firings ≤ room) × StartsAll (F.net self.now.net.now) self.now.actor self.now.moment from b.firings b.lacking tokens.old tokens.new running.old running.new)) }
    {
        if self.net.phases(self.actor) == 1 {
            self.start_together(from, room, tokens, running)
        } else {
            self.start_in_turn(from, room, tokens, running)
        }
    }

    /// The same of an actor of one phase, by one look at its channels.
    #[inline(always)]
    fn start_together(
        &self,
        from: u64,
        room: u64,
        tokens: &mut Tokens,
        running: &mut Running,
    ) -> Result<Option<Begun>, NoMemory>
        requires single { phases_at (F.net self.now.net.now) self.now.actor ≡ 1 }
        requires tokens { length tokens.old ≡ length (F.net self.now.net.now).channels }
        requires few { from + room ≤ RUN_START_BOUND }
        requires runs { length running.old ≤ from }
        ensures long { length tokens.new ≡ length tokens.old }
        ensures starts { IfOk result (λ o. MatchOption o (Overfills (F.net self.now.net.now) tokens.old self.now.actor from room)
            (λ b. (b.firings ≤ room) × StartsAll (F.net self.now.net.now) self.now.actor self.now.moment from b.firings b.lacking tokens.old tokens.new running.old running.new)) }
    {
        let begun = self.fed_together(tokens.as_slice(), room + 1);
        if begun.firings > room {
            return Ok(None);
        }
        if begun.firings > 0 {
            self.take_all(tokens, from, begun.firings);
            self.push_ends(running, from, begun.firings)?;
        }
        Ok(Some(begun))
    }

    /// How many firings of an actor of one phase the tokens feed, at most `most`, and a channel that feeds no more: not its own
    /// one where others do so too, since that has a token again as soon as a firing ends.
    #[inline(always)]
    fn fed_together(&self, tokens: &[u64], most: u64) -> Begun
        requires single { phases_at (F.net self.now.net.now) self.now.actor ≡ 1 }
        requires tokens { length tokens.now ≡ length (F.net self.now.net.now).channels }
        requires few { most ≤ 2 * RUN_START_BOUND }
        ensures within { result.firings ≤ most }
        ensures feeds { (k : ℕ) → Feeds (F.net self.now.net.now) tokens.now self.now.actor k result.firings }
        ensures lacks { result.firings < most → FeedsNoMore (F.net self.now.net.now) tokens.now self.now.actor result.firings result.lacking }
    {
        know_laws(self.net);
        let first = self.fed_by_own(tokens, most);
        if first.firings == 0 {
            return first;
        }
        let mut firings = first.firings;
        let mut lacking = first.lacking;
        for channel in self.inputs {
            let count = tokens[*channel as usize];
            let rate = self.taken(*channel);
            if count < rate {
                return Begun {
                    firings: 0,
                    lacking: *channel,
                };
            }
            if count < (firings + 1) * rate {
                firings = times_in(count, rate, firings + 1);
                lacking = *channel;
            }
        }
        Begun { firings, lacking }
    }

    /// The same by the actor's own channel alone.
    #[inline(always)]
    fn fed_by_own(&self, tokens: &[u64], most: u64) -> Begun
        requires tokens { length tokens.now ≡ length (F.net self.now.net.now).channels }
        ensures within { result.firings ≤ most }
        ensures feeds { IfSome self.now.own (λ own. result.firings ≤ slice_index tokens.now own) }
        ensures lacks { result.firings < most → FeedsNoMore (F.net self.now.net.now) tokens.now self.now.actor result.firings result.lacking }
    {
        if let Some(own) = self.own {
            let count = tokens[own as usize];
            if count < most {
                return Begun {
                    firings: count,
                    lacking: own,
                };
            }
        }
        Begun {
            firings: most,
            lacking: 0,
        }
    }

    /// The tokens that a firing of the actor takes from a channel in its first phase.
    fn taken(&self, channel: u32) -> u64
        requires { channel < length (F.net self.now.net.now).channels }
        ensures { result ≡ slice_index (channel_at (F.net self.now.net.now) channel).taken 0 }
    {
        self.rates[channel as usize].taken
    }

    /// The same of an actor without an own channel, firing by firing.
    fn start_in_turn(
        &self,
        from: u64,
        room: u64,
        tokens: &mut Tokens,
        running: &mut Running,
    ) -> Result<Option<Begun>, NoMemory>
        requires others { self.now.own ≡ None }
        requires tokens { length tokens.old ≡ length (F.net self.now.net.now).channels }
        requires few { from + room ≤ RUN_START_BOUND }
        requires runs { length running.old ≤ from }
        ensures long { length tokens.new ≡ length tokens.old }
        ensures starts { IfOk result (λ o. MatchOption o (Overfills (F.net self.now.net.now) tokens.old self.now.actor from room)
            (λ b. (b.firings ≤ room) × StartsAll (F.net self.now.net.now) self.now.actor self.now.moment from b.firings b.lacking tokens.old tokens.new running.old running.new)) }
    {
        let mut count = 0u64;
        'firings: loop {
            if let Some(lacking) = self.lacking_input(tokens.as_slice(), from + count) {
                return Ok(Some(Begun {
                    firings: count,
                    lacking,
                }));
            }
            if count >= room {
                return Ok(None);
            }
            self.take_all(tokens, from + count, 1);
            self.push_ends(running, from + count, 1)?;
            count += 1;
        }
    }

    /// The first channel into an actor without an own one that has fewer tokens than a firing of it takes.
    fn lacking_input(&self, tokens: &[u64], firing: u64) -> Option<u32>
        requires others { self.now.own ≡ None }
        requires tokens { length tokens.now ≡ length (F.net self.now.net.now).channels }
        ensures { MatchOption result (SufficesBefore (F.net self.now.net.now) tokens.now self.now.actor firing (length (F.net self.now.net.now).channels))
            (IsFirstLack (F.net self.now.net.now) tokens.now self.now.actor firing) }
    {
        for channel in self.inputs {
            let rate = self.taken(*channel);
            if tokens[*channel as usize] < taken_at(self.net, rate, *channel, firing) {
                return Some(*channel);
            }
        }
        None
    }

    /// Takes the tokens of firings, of which the first has number `from`, off the actor's own channel and the others into it.
    fn take_all(&self, tokens: &mut Tokens, from: u64, firings: u64)
        requires tokens { length tokens.old ≡ length (F.net self.now.net.now).channels }
        requires few { from + firings ≤ RUN_START_BOUND }
        requires enough { Feeds (F.net self.now.net.now) tokens.old self.now.actor from firings }
        ensures takes { TakesTokens (F.net self.now.net.now) self.now.actor from firings tokens.old tokens.new }
        ensures long { length tokens.new ≡ length tokens.old }
    {
        for channel in self.inputs {
            let here = self.rates[*channel as usize];
            let all = moved_span(self.net, here.taken, *channel, Port::Taken, from, firings);
            tokens.take(*channel, all, here.weight);
        }
        self.take_own(tokens, firings);
    }

    /// Takes a token of each firing off the actor's own channel.
    #[inline(always)]
    fn take_own(&self, tokens: &mut Tokens, firings: u64)
        requires tokens { length tokens.old ≡ length (F.net self.now.net.now).channels }
        requires enough { IfSome self.now.own (λ i. firings ≤ slice_index tokens.old i) }
        ensures { MatchOption self.now.own (tokens.new ≡ tokens.old) (λ i. tokens.new ≡ set tokens.old i (slice_index tokens.old i - firings)) }
    {
        if let Some(channel) = self.own {
            tokens.take(channel, firings, self.rates[channel as usize].weight);
        }
    }

    /// Adds the ends of firings that start, from number `from` on, all of which take as long.
    #[inline(always)]
    fn push_ends(&self, running: &mut Running, from: u64, firings: u64) -> Result<(), NoMemory>
        requires some { 0 < firings }
        requires few { from + firings ≤ RUN_START_BOUND }
        requires runs { length running.old ≤ from }
        requires alike { (k : ℕ) → k < firings → time_of (F.net self.now.net.now) self.now.actor (from + k) ≡ time_of (F.net self.now.net.now) self.now.actor from }
        ensures { OnOk result (AddsEnds (F.net self.now.net.now) self.now.actor self.now.moment from firings running.old running.new) }
    {
        know_laws(self.net);
        let phase = phase_at(self.net.phases(self.actor), from);
        running.push(self.moment + self.net.time(self.actor, phase), firings)?;
        Ok(())
    }
}

/// The phase of a firing of an actor with so many phases.
fn phase_at(phases: u32, firing: u64) -> u32
    requires { 0 < phases }
    ensures { result ≡ firing % phases }
{
    // mostly there is one, which is known sooner than by a division
    if phases == 1 {
        return 0;
    }
    (firing % u64::from(phases)) as u32
}

/// How many times a rate fits into a count that has it, if fewer than `most` times.
fn times_in(count: u64, rate: u64, most: u64) -> u64
    requires some { 0 < rate }
    requires enough { rate ≤ count }
    requires few { count < most * rate }
    ensures fits { result * rate ≤ count }
    ensures next { count < (result + 1) * rate }
{
    // mostly once, which is known sooner than by a division
    if count - rate < rate {
        return 1;
    }
    count / rate
}
