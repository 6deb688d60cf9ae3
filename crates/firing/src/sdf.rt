//! The net of a synchronous graph.

ghost use Rattle.std.specs.Prelude.{◌≡◌, ◌≤◌, [], ◌∷◌, All, IfOk, length, map, replicate, sum};
ghost use Rattle.sd_base.specs.declared.limits.TheConstants.{ROUND};
ghost use Rattle.sd_base.specs.declared.tables.Kind.TheVariants.{Sdf};
ghost use Rattle.sd_base.specs.declared.tables.ActorRow.{ActorRow};
ghost use Rattle.sd_base.specs.Tables.{KeepsWideRules, IsTimed};
ghost use Rattle.sd_base.specs.Net.{file_channel, IsRepetitionOf};
ghost use Rattle.sd_base.specs.Lawful.{Lawful};
ghost use Rattle.sd_base.specs.FileNet.{own_channel, net_of};
ghost use Rattle.firing.specs.Sdf.{plain_channel, plain_net};

use crate::graph_channels::{NetChannel, net_channels};
use crate::net::Firing;
use sd_base::{ChannelRow, GraphFile, NoMemory, Role};
use std::alloc::Global;

/// A channel with one rate at each end.
#[derive(Clone, Copy, Debug)]
pub(crate) struct SdfChannel {
    pub(crate) source: u32,
    pub(crate) target: u32,
    pub(crate) made: u64,
    pub(crate) taken: u64,
    pub(crate) tokens: u64,
    pub(crate) size: u64,
    pub(crate) role: Role,
}

impl NetChannel for SdfChannel {
    ghost plain = { plain_channel };

    ghost Keeps = { λ rates. length rates ≡ 1 };

    fn of_file(_alloc: Global, number: u32, row: &ChannelRow) -> Result<SdfChannel, NoMemory> {
        Ok(SdfChannel {
            source: row.source,
            target: row.target,
            made: row.made.as_slice()[0],
            taken: row.taken.as_slice()[0],
            tokens: row.tokens,
            size: row.size,
            role: Role::Token(number),
        })
    }

    fn own(_alloc: Global, actor: u32, _phases: u32) -> Result<SdfChannel, NoMemory> {
        Ok(SdfChannel {
            source: actor,
            target: actor,
            made: 1,
            taken: 1,
            tokens: 1,
            size: 1,
            role: Role::Own(actor),
        })
    }
}

/// The net of a synchronous graph, in which each actor has one phase.
#[derive(Debug, Drop)]
pub struct SdfNet {
    times: Vec<u64>,
    channels: Vec<SdfChannel>,
    rounds: Vec<u64>,
    ghost laws: { Lawful (plain_net times.items channels.items rounds.items) },
}

impl Firing for SdfNet {
    ghost net = { λ s. plain_net s.times.items s.channels.items s.rounds.items };

    ghost lawful = { λ s. s.laws };

    fn actors(&self) -> u32 {
        self.times.len() as u32
    }

    fn channels(&self) -> u32 {
        self.channels.len() as u32
    }

    fn source(&self, channel: u32) -> u32 {
        self.channels[channel as usize].source
    }

    fn target(&self, channel: u32) -> u32 {
        self.channels[channel as usize].target
    }

    fn tokens(&self, channel: u32) -> u64 {
        self.channels[channel as usize].tokens
    }

    fn size(&self, channel: u32) -> u64 {
        self.channels[channel as usize].size
    }

    fn phases(&self, _actor: u32) -> u32 {
        1
    }

    fn time(&self, actor: u32, _phase: u32) -> u64 {
        self.times[actor as usize]
    }

    fn made(&self, channel: u32, _phase: u32) -> u64 {
        self.channels[channel as usize].made
    }

    fn taken(&self, channel: u32, _phase: u32) -> u64 {
        self.channels[channel as usize].taken
    }

    fn made_before(&self, channel: u32, phases: u32) -> u64 {
        if phases == 0 {
            0
        } else {
            self.channels[channel as usize].made
        }
    }

    fn taken_before(&self, channel: u32, phases: u32) -> u64 {
        if phases == 0 {
            0
        } else {
            self.channels[channel as usize].taken
        }
    }

    fn round(&self, actor: u32) -> u64 {
        self.rounds[actor as usize]
    }

    fn role(&self, channel: u32) -> Role {
        self.channels[channel as usize].role
    }
}

impl SdfNet {
    /// The net of a synchronous graph file with its repetition vector: the channels of the file, then own
    /// channels by actor. With `no_overlap` each actor without a self-loop in the file has one. Cost:
    /// linear in the product of actors and channels.
    pub fn new(
        alloc: Global,
        graph: &GraphFile,
        gamma: &[u64],
        no_overlap: bool,
    ) -> Result<SdfNet, NoMemory>
        requires rules { KeepsWideRules graph.now }
        requires kind { graph.now.kind ≡ Sdf }
        requires timed { IsTimed graph.now }
        requires gamma { IsRepetitionOf graph.now gamma.now }
        requires small { sum gamma.now ≤ ROUND }
        ensures { IfOk result (λ n. ⟦<SdfNet as Firing>⟧.net n ≡ net_of graph.now gamma.now no_overlap) }
    {
        let times = single_times(alloc, graph)?;
        let channels = net_channels(alloc, graph, no_overlap)?;
        let rounds = Vec::from_slice(alloc, gamma)?;
        Ok(SdfNet {
            times,
            channels,
            rounds,
        })
    }
}

/// The net of tables that keep the laws.
pub(crate) fn net_of_tables(times: Vec<u64>, channels: Vec<SdfChannel>, rounds: Vec<u64>) -> SdfNet
    requires { Lawful (plain_net times.items channels.items rounds.items) }
    ensures { ⟦<SdfNet as Firing>⟧.net result ≡ plain_net times.items channels.items rounds.items }
{
    SdfNet {
        times,
        channels,
        rounds,
    }
}

/// The time of each actor.
fn single_times(alloc: Global, graph: &GraphFile) -> Result<Vec<u64>, NoMemory>
    requires { All (λ (a : ActorRow). length a.times ≡ 1) graph.now.actors }
    ensures { IfOk result (λ v. map (λ t. t ∷ []) v.items ≡ map (λ (a : ActorRow). a.times) graph.now.actors) }
{
    let mut times = Vec::new(alloc);
    for actor in graph.actors.as_slice() {
        times.push(actor.times.as_slice()[0])?;
    }
    Ok(times)
}
