#![tactic(auto, unfolding(crate::specs::inside::SpaceLists::with_spaces))]

ghost use Rattle.std.specs.Prelude.{◌≡◌, ◌+◌, ◌-◌, ◌<◌, ◌≤◌, ◌++◌, ℕ, IfOk, OnOk, length, map, take, slice_index_or};
ghost use Rattle.sd_base.specs.declared.limits.TheConstants.{NET_CHANNELS};
ghost use Rattle.sd_base.specs.Net.{channel_at};
ghost use Rattle.sd_base.specs.Lawful.{Lawful};
ghost use Rattle.storage.specs.Distributions.{CanHold};
ghost use Rattle.storage.specs.BoundedNets.{HasNoSpaces, bound, spaces_from};
ghost use Rattle.storage.specs.inside.SpaceLists.{AreSpacesOf, space_in, with_spaces};

use crate::distribution::Distribution;
use firing::{Firing, know_laws};
use sd_base::{NoMemory, Role};
use std::alloc::Global;

/// The free space of a channel, and the tokens with which it starts.
#[derive(Clone, Copy, Debug)]
pub(crate) struct Space {
    channel: u32,
    tokens: u64,
}

/// A net with a space channel for each capacity.
#[derive(Drop)]
pub struct Bounded<'a, F: Firing> {
    net: &'a F,
    spaces: Vec<Space>,
    ghost over: { AreSpacesOf (F.net net.now) spaces.items },
    ghost laws: { Lawful (with_spaces (F.net net.now) spaces.items) },
}

impl<'a, F: Firing> Firing for Bounded<'a, F> {
    ghost net = { λ b. with_spaces (F.net b.net.now) b.spaces.items };

    ghost lawful = { λ b. b.laws };

    fn actors(&self) -> u32 {
        self.net.actors()
    }

    fn channels(&self) -> u32 {
        self.net.channels() + self.spaces.len() as u32
    }

    fn source(&self, channel: u32) -> u32 {
        let own = self.net.channels();
        if channel < own {
            self.net.source(channel)
        } else {
            self.net
                .target(self.spaces[(channel - own) as usize].channel)
        }
    }

    fn target(&self, channel: u32) -> u32 {
        let own = self.net.channels();
        if channel < own {
            self.net.target(channel)
        } else {
            self.net
                .source(self.spaces[(channel - own) as usize].channel)
        }
    }

    fn tokens(&self, channel: u32) -> u64 {
        let own = self.net.channels();
        if channel < own {
            self.net.tokens(channel)
        } else {
            self.spaces[(channel - own) as usize].tokens
        }
    }

    fn size(&self, channel: u32) -> u64 {
        let own = self.net.channels();
        if channel < own {
            self.net.size(channel)
        } else {
            self.net.size(self.spaces[(channel - own) as usize].channel)
        }
    }

    fn phases(&self, actor: u32) -> u32 {
        self.net.phases(actor)
    }

    fn time(&self, actor: u32, phase: u32) -> u64 {
        self.net.time(actor, phase)
    }

    fn made(&self, channel: u32, phase: u32) -> u64 {
        let own = self.net.channels();
        if channel < own {
            self.net.made(channel, phase)
        } else {
            self.net
                .taken(self.spaces[(channel - own) as usize].channel, phase)
        }
    }

    fn taken(&self, channel: u32, phase: u32) -> u64 {
        let own = self.net.channels();
        if channel < own {
            self.net.taken(channel, phase)
        } else {
            self.net
                .made(self.spaces[(channel - own) as usize].channel, phase)
        }
    }

    fn made_before(&self, channel: u32, phases: u32) -> u64 {
        let own = self.net.channels();
        if channel < own {
            self.net.made_before(channel, phases)
        } else {
            self.net
                .taken_before(self.spaces[(channel - own) as usize].channel, phases)
        }
    }

    fn taken_before(&self, channel: u32, phases: u32) -> u64 {
        let own = self.net.channels();
        if channel < own {
            self.net.taken_before(channel, phases)
        } else {
            self.net
                .made_before(self.spaces[(channel - own) as usize].channel, phases)
        }
    }

    fn round(&self, actor: u32) -> u64 {
        self.net.round(actor)
    }

    fn role(&self, channel: u32) -> Role {
        let own = self.net.channels();
        if channel < own {
            self.net.role(channel)
        } else {
            Role::Space(self.spaces[(channel - own) as usize].channel)
        }
    }
}

impl<'a, F: Firing> Bounded<'a, F> {
    /// The net bounded by capacities. Cost: linear in the channels.
    pub fn new(
        alloc: Global,
        net: &'a F,
        capacities: &Distribution,
    ) -> Result<Bounded<'a, F>, NoMemory>
        requires none { HasNoSpaces (F.net net.now) }
        requires can { CanHold (F.net net.now).channels capacities.now.capacities }
        requires few { length (bound (F.net net.now) capacities.now.capacities).channels ≤ NET_CHANNELS }
        ensures { IfOk result (λ b. ⟦<Bounded<'a, F> as Firing>⟧.net b ≡ bound (F.net net.now) capacities.now.capacities) }
    {
        know_laws(net);
        let spaces = spaces_of(alloc, net, capacities)?;
        Ok(Bounded { net, spaces })
    }
}

/// The free spaces of the channels that have a capacity.
fn spaces_of<F: Firing>(
    alloc: Global,
    net: &F,
    capacities: &Distribution,
) -> Result<Vec<Space>, NoMemory>
    requires can { CanHold (F.net net.now).channels capacities.now.capacities }
    ensures over { IfOk result (λ v. AreSpacesOf (F.net net.now) v.items) }
    ensures spaces { IfOk result (λ v. map (space_in (F.net net.now)) v.items ≡ spaces_from 0 (F.net net.now).channels capacities.now.capacities) }
{
    know_laws(net);
    let mut spaces = Vec::with_capacity(alloc, capacities.capacities.len())?;
    for channel in 0..capacities.capacities.len() {
        match capacities.capacities.as_slice()[channel] {
            Some(room) => spaces.push(Space {
                channel: channel as u32,
                tokens: room - net.tokens(channel as u32),
            })?,
            None => {}
        }
    }
    Ok(spaces)
}
