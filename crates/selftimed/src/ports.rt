//! The channels of each actor: its own channel, and the others into it and out of it.
//!
//! An own channel is moved as a count. Where firings may not overlap each actor has a channel to itself, with rates 1. The
//! engine knows it of each actor, and moves its tokens by the number of firings, with no look at its rates: it is the first
//! that is asked when an actor is to start, and when firings of an actor end that lacked its tokens, the actor is touched
//! without a look at them. The other channels of each actor lie side by side, so that they alone are gone through. The
//! tokens of an own channel stand among those of all channels, so what is said of tokens, shapes and fingerprints knows no
//! difference. An actor of several phases, a second channel from an actor to itself and one with other rates are gone
//! through as any other.
ghost use Rattle.std.specs.Prelude.{◌≡◌, ◌↔◌, ℕ, ◌+◌, ◌<◌, ◌++◌, List, IfOk, IfSome, IsTrue, OnOk, length, slice_index, slice_range, true};
ghost use Rattle.sd_base.specs.Net.{channel_at};
ghost use Rattle.sd_base.specs.Schedules.{phases_at};
ghost use Rattle.firing.specs.declared.sums.Port.TheVariants.{Taken};
ghost use Rattle.firing.specs.inside.Cuts.{AreCuts};
ghost use Rattle.firing.specs.Wiring.{IsListed};
ghost use Rattle.selftimed.specs.inside.Ports.{AreOthers, AreNone, ArePorts, IsOther, IsOwn, IsRising, Adds};

use firing::{Firing, Wired, know_laws};
use sd_base::NoMemory;
use std::alloc::Global;

/// By actor its own channel, and the others into it and out of it. An actor of one phase may have an own channel: one
/// from the actor to itself, from which a firing takes one token and on which it puts one.
pub(crate) struct Ports {
    /// By actor its own channel.
    pub(crate) own: Vec<Option<u32>>,
    /// By actor the other channels into it.
    pub(crate) inputs: ChannelRows,
    /// By actor the other channels out of it.
    pub(crate) outputs: ChannelRows,
}

// By hand, so that what drops one calls this, and does not drop each of its parts.
impl Drop for Ports {
    fn drop(self) {
        let Ports {
            own: _own,
            inputs: _inputs,
            outputs: _outputs,
        } = self;
    }
}

impl Ports {
    /// Those of no actors, with room for those of so many actors and channels.
    pub(crate) fn with_room(alloc: Global, actors: u32, channels: u32) -> Result<Ports, NoMemory> {
        Ok(Ports {
            own: Vec::with_capacity(alloc, actors as usize)?,
            inputs: ChannelRows::with_room(alloc, actors, channels)?,
            outputs: ChannelRows::with_room(alloc, actors, channels)?,
        })
    }

    /// Makes them those of a net. It allocates nothing where there is room for as many actors and channels. Cost: linear in these.
    pub(crate) fn refill<F: Firing>(&mut self, wired: &Wired<F>) -> Result<(), NoMemory>
        ensures { OnOk result (ArePorts (F.net wired.now.net.now) self.new) }
    {
        self.own.clear();
        self.inputs.clear()?;
        self.outputs.clear()?;
        for actor in 0..wired.net.actors() {
            let inputs = wired.inputs_of(actor);
            let own = own_channel(wired.net, inputs, actor);
            self.own.push(own)?;
            self.inputs.push(inputs, own)?;
            self.outputs.push(wired.outputs_of(actor), own)?;
        }
        Ok(())
    }
}

/// The first own channel among the channels into an actor.
fn own_channel<F: Firing>(net: &F, inputs: &[u32], actor: u32) -> Option<u32>
    requires actor { actor < length (F.net net.now).times }
    requires listed { IsListed (F.net net.now) Taken actor inputs.now }
    ensures { IfSome result (IsOwn (F.net net.now) actor) }
{
    if net.phases(actor) != 1 {
        return None;
    }
    for channel in inputs {
        if is_own(net, *channel, actor) {
            return Some(*channel);
        }
    }
    None
}

/// Whether a channel into an actor of one phase is an own channel.
fn is_own<F: Firing>(net: &F, channel: u32, actor: u32) -> bool
    requires channel { channel < length (F.net net.now).channels }
    requires into { (channel_at (F.net net.now) channel).target ≡ actor }
    requires single { phases_at (F.net net.now) actor ≡ 1 }
    ensures { result ≡ true → IsOwn (F.net net.now) actor channel }
{
    know_laws(net);
    net.source(channel) == actor && net.taken(channel, 0) == 1 && net.made(channel, 0) == 1
}

/// By actor a list of channels. All lie in one array, so that those of an actor are a slice of it.
pub(crate) struct ChannelRows {
    /// By actor where its channels begin in `channels`; behind the last actor, where they end.
    starts: Vec<usize>,
    channels: Vec<u32>,
}

// By hand, so that what drops one calls this, and does not drop each of its parts.
impl Drop for ChannelRows {
    fn drop(self) {
        let ChannelRows {
            starts: _starts,
            channels: _channels,
        } = self;
    }
}

impl ChannelRows {
    /// No rows, with room for those of so many actors and channels.
    fn with_room(alloc: Global, actors: u32, channels: u32) -> Result<ChannelRows, NoMemory> {
        Ok(ChannelRows {
            starts: Vec::with_capacity(alloc, actors as usize + 1)?,
            channels: Vec::with_capacity(alloc, channels as usize)?,
        })
    }

    /// Makes them none.
    fn clear(&mut self) -> Result<(), NoMemory>
        ensures { OnOk result (AreNone self.new) }
    {
        self.channels.clear();
        self.starts.clear();
        self.starts.push(0)?;
        Ok(())
    }

    /// Adds the channels of the next actor, but for its own one.
    fn push(&mut self, row: &[u32], own: Option<u32>) -> Result<(), NoMemory>
        requires { IsRising row.now }
        ensures { OnOk result ((others : List ℕ) × AreOthers own row.now (length row.now) others × Adds others self.old self.new) }
    {
        push_others(row, own, &mut self.channels)?;
        self.starts.push(self.channels.len())?;
        Ok(())
    }

    /// The channels of an actor.
    #[inline(always)]
    pub(crate) fn of(&self, actor: u32) -> &[u32]
        requires cuts { AreCuts self.now.starts.items (length self.now.channels.items) }
        requires actor { actor + 1 < length self.now.starts.items }
        ensures { result.now ≡ slice_range self.now.channels.items (slice_index self.now.starts.items actor) (slice_index self.now.starts.items (actor + 1)) }
    {
        let start = self.starts[actor as usize];
        let end = self.starts[actor as usize + 1];
        &self.channels.as_slice()[start..end]
    }
}

/// Adds the channels of a row but for the own one.
fn push_others(row: &[u32], own: Option<u32>, channels: &mut Vec<u32>) -> Result<(), NoMemory>
    requires { IsRising row.now }
    ensures { OnOk result ((others : List ℕ) × AreOthers own row.now (length row.now) others × (channels.new.items ≡ channels.old.items ++ others)) }
{
    for channel in row {
        if is_other(own, *channel) {
            channels.push(*channel)?;
        }
    }
    Ok(())
}

/// Whether a channel isn't the own one.
fn is_other(own: Option<u32>, channel: u32) -> bool
    ensures { IsTrue result ↔ IsOther own channel }
{
    match own {
        Some(own) => channel != own,
        None => true,
    }
}
