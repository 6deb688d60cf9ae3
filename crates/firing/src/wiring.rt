ghost use Rattle.std.specs.Prelude.{◌≡◌, ◌<◌, IfOk, length, map};
ghost use Rattle.sd_base.specs.Net.{channel_at};
ghost use Rattle.sd_base.specs.Connection.{ends_of};
ghost use Rattle.firing.specs.declared.sums.Port.TheVariants.{Made, Taken};
ghost use Rattle.firing.specs.Groups.{AreGroups};
ghost use Rattle.firing.specs.Wiring.{actor_at, AreListed, IsListed, IsWiringOf};

use crate::groups::Groups;
use crate::net::{Firing, know_laws};
use crate::sums::Port;
use sd_base::NoMemory;
use std::alloc::Global;

/// The channels of a net by actor, ascending. It depends on the number of actors and the ends of the
/// channels alone, so one wiring serves each net with these: nets that differ in tokens, rates or times.
#[derive(Debug, Drop)]
pub struct Wiring {
    /// By actor the channels into it.
    pub inputs: Groups,
    /// By actor the channels out of it.
    pub outputs: Groups,
}

impl Wiring {
    /// The channels of a net by actor. Cost: linear in the sum of actors and channels.
    pub fn new<F: Firing>(alloc: Global, net: &F) -> Result<Wiring, NoMemory>
        ensures wired { IfOk result (IsWiringOf (F.net net.now)) }
        ensures inputs { IfOk result (λ w. AreListed (F.net net.now) Taken w.inputs) }
        ensures outputs { IfOk result (λ w. AreListed (F.net net.now) Made w.outputs) }
    {
        Ok(Wiring {
            inputs: channels_by_actor(alloc, net, Port::Taken)?,
            outputs: channels_by_actor(alloc, net, Port::Made)?,
        })
    }
}

/// A net with its channels by actor, which analyses that go from actor to actor are passed as one.
#[derive(Drop)]
pub struct Wired<'a, F: Firing> {
    pub net: &'a F,
    pub wiring: &'a Wiring,
    ghost wired: { IsWiringOf (F.net net.now) wiring.now },
}

impl<'a, F: Firing> Wired<'a, F> {
    /// The channels into an actor, ascending.
    pub fn inputs_of(&self, actor: u32) -> &[u32]
        requires { actor < length (F.net self.now.net.now).times }
        ensures { IsListed (F.net self.now.net.now) Taken actor result.now }
    {
        know_wiring(self.net, self.wiring);
        self.wiring.inputs.of(actor)
    }

    /// The channels out of an actor, ascending.
    pub fn outputs_of(&self, actor: u32) -> &[u32]
        requires { actor < length (F.net self.now.net.now).times }
        ensures { IsListed (F.net self.now.net.now) Made actor result.now }
    {
        know_wiring(self.net, self.wiring);
        self.wiring.outputs.of(actor)
    }
}

/// What a wiring lists of each net whose wiring it is. It does nothing.
fn know_wiring<F: Firing>(net: &F, wiring: &Wiring)
    requires { IsWiringOf (F.net net.now) wiring.now }
    ensures inputs { AreListed (F.net net.now) Taken wiring.now.inputs }
    ensures outputs { AreListed (F.net net.now) Made wiring.now.outputs }
{}

/// By channel its source and its target. Cost: linear in the channels.
pub fn ends<F: Firing>(alloc: Global, net: &F) -> Result<Vec<(u32, u32)>, NoMemory>
    ensures { IfOk result (λ v. v.items ≡ ends_of (F.net net.now)) }
{
    let mut ends = Vec::new(alloc);
    for channel in 0..net.channels() {
        ends.push((net.source(channel), net.target(channel)))?;
    }
    Ok(ends)
}

/// By actor the channels with an end at it.
fn channels_by_actor<F: Firing>(alloc: Global, net: &F, port: Port) -> Result<Groups, NoMemory>
    ensures { IfOk result (AreGroups (map (actor_at port) (F.net net.now).channels) (length (F.net net.now).times)) }
{
    know_laws(net);
    let ends = ends_at(alloc, net, port)?;
    Groups::new(alloc, net.actors(), ends.as_slice())
}

/// By channel the actor at an end of it.
fn ends_at<F: Firing>(alloc: Global, net: &F, port: Port) -> Result<Vec<u32>, NoMemory>
    ensures { IfOk result (λ ends. ends.items ≡ map (actor_at port) (F.net net.now).channels) }
{
    let mut ends = Vec::with_capacity(alloc, net.channels() as usize)?;
    for channel in 0..net.channels() {
        ends.push(end_of(net, channel, port))?;
    }
    Ok(ends)
}

/// The actor at an end of a channel.
fn end_of<F: Firing>(net: &F, channel: u32, port: Port) -> u32
    requires { channel < length (F.net net.now).channels }
    ensures { result ≡ actor_at port (channel_at (F.net net.now) channel) }
{
    match port {
        Port::Made => net.source(channel),
        Port::Taken => net.target(channel),
    }
}
