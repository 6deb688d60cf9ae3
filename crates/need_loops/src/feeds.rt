//! What the next firing of each actor needs, kept as rows of starts grow.
ghost use Rattle.std.specs.Prelude.{◌≡◌, ℕ, ◌+◌, ◌≤◌, ◌<◌, [], IfOk, IfSome, length, replicate};
ghost use Rattle.sd_base.specs.Ranges.{COUNT_BOUND, FIRING_BOUND};
ghost use Rattle.sd_base.specs.declared.limits.TheConstants.{NET_TOKENS, RATE};
ghost use Rattle.sd_base.specs.Net.{channel_at};
ghost use Rattle.sd_base.specs.Schedules.{phases_at};
ghost use Rattle.need_loops.specs.inside.Needing.{Advances, AreNext, Feeds, IsNextOf, Paces};

use firing::{Firing, Wired, know_laws};
use sd_base::NoMemory;
use std::alloc::Global;

/// What the next firing of a channel's target needs, where both ends have one phase.
#[derive(Clone, Copy)]
pub(crate) struct Feed {
    pub(crate) source: u32,
    /// The time of a firing of the source, in time units.
    pub(crate) time: u64,
    made: u64,
    taken: u64,
    /// How many first firings of the source it needs.
    pub(crate) firings: u64,
    /// The tokens that these and the initial ones leave when it has taken its own.
    left: u64,
}

/// What the next firing of an actor of one phase needs.
#[derive(Drop)]
pub(crate) struct NextFiring {
    /// To start so many time units after the one before it, where a channel keeps firings from overlapping; else 0.
    pub(crate) pause: u64,
    /// What it needs on each other channel into the actor.
    pub(crate) feeds: Vec<Feed>,
}

impl Feed {
    /// What the first firing needs. Cost: linear in the firings that it needs.
    fn new<F: Firing>(net: &F, channel: u32) -> Feed
        requires channel { channel < length (F.net net.now).channels }
        requires single { (a : ℕ) → a < length (F.net net.now).times → phases_at (F.net net.now) a ≡ 1 }
        ensures { Feeds (F.net net.now) channel 1 result }
    {
        know_laws(net);
        let source = net.source(channel);
        let mut feed = Feed {
            source,
            time: net.time(source, 0),
            made: net.made(channel, 0),
            taken: net.taken(channel, 0),
            firings: 0,
            left: net.tokens(channel),
        };
        feed.advance();
        feed
    }

    /// Goes on to the firing after it. Cost: linear in the firings more that it needs.
    #[inline(always)]
    pub(crate) fn advance(&mut self)
        requires some { 1 ≤ self.old.made }
        requires made { self.old.made ≤ RATE }
        requires taken { self.old.taken ≤ RATE }
        requires left { self.old.left ≤ NET_TOKENS }
        requires few { self.old.firings ≤ COUNT_BOUND }
        ensures { Advances self.old self.new }
    {
        let mut left = self.left;
        let mut firings = self.firings;
        'made: while left < self.taken {
            left += self.made;
            firings += 1;
        }
        self.left = left - self.taken;
        self.firings = firings;
    }
}

impl NextFiring {
    /// What the first firing of an actor needs.
    fn new<F: Firing>(alloc: Global, wired: &Wired<F>, actor: u32) -> Result<NextFiring, NoMemory>
        requires actor { actor < length (F.net wired.now.net.now).times }
        requires single { (a : ℕ) → a < length (F.net wired.now.net.now).times → phases_at (F.net wired.now.net.now) a ≡ 1 }
        ensures { IfOk result (IsNextOf (F.net wired.now.net.now) actor 0) }
    {
        let net = wired.net;
        know_laws(net);
        let inputs = wired.inputs_of(actor);
        let mut pause = 0;
        let mut feeds = Vec::with_capacity(alloc, inputs.len())?;
        for channel in inputs {
            match pause_of(net, *channel) {
                Some(time) => pause = time,
                None => feeds.push(Feed::new(net, *channel))?,
            }
        }
        Ok(NextFiring { pause, feeds })
    }

    /// Goes on to the firing after it. Cost: linear in the channels into the actor and in the firings more that it needs.
    #[inline(always)]
    pub(crate) fn advance<F: Firing>(&mut self, net: &F, actor: u32, firing: u64)
        requires next { IsNextOf (F.net net.now) actor firing self.old }
        requires few { firing ≤ FIRING_BOUND }
        ensures { IsNextOf (F.net net.now) actor (firing + 1) self.new }
    {
        know_laws(net);
        for place in 0..self.feeds.len() {
            self.feeds[place].advance();
        }
    }
}

/// The time of the actor at both ends of a channel, where the channel keeps its firings from overlapping.
fn pause_of<F: Firing>(net: &F, channel: u32) -> Option<u64>
    requires channel { channel < length (F.net net.now).channels }
    requires single { (a : ℕ) → a < length (F.net net.now).times → phases_at (F.net net.now) a ≡ 1 }
    ensures { IfSome result (Paces (F.net net.now) (channel_at (F.net net.now) channel).target channel) }
{
    know_laws(net);
    let actor = net.target(channel);
    if net.source(channel) == actor
        && net.tokens(channel) == 1
        && net.made(channel, 0) == 1
        && net.taken(channel, 0) == 1
    {
        Some(net.time(actor, 0))
    } else {
        None
    }
}

/// By actor what its first firing needs. Cost: linear in the channels, and in the firings that all of them need.
pub(crate) fn first_firings<F: Firing>(
    alloc: Global,
    wired: &Wired<F>,
) -> Result<Vec<NextFiring>, NoMemory>
    requires single { (a : ℕ) → a < length (F.net wired.now.net.now).times → phases_at (F.net wired.now.net.now) a ≡ 1 }
    ensures { IfOk result (λ v. AreNext (F.net wired.now.net.now) (replicate (length (F.net wired.now.net.now).times) []) v.items) }
{
    let net = wired.net;
    let mut firings = Vec::with_capacity(alloc, net.actors() as usize)?;
    for actor in 0..net.actors() {
        firings.push(NextFiring::new(alloc, wired, actor)?)?;
    }
    Ok(firings)
}
