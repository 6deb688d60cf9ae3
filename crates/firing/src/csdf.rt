//! The net of a cyclo-static graph.

ghost use Rattle.std.specs.Prelude.{◌≡◌, ◌≤◌, [], All, IfOk, length, map, replicate, sum};
ghost use Rattle.sd_base.specs.declared.limits.TheConstants.{PHASES, ROUND};
ghost use Rattle.sd_base.specs.declared.tables.ActorRow.{ActorRow};
ghost use Rattle.sd_base.specs.Tables.{KeepsRules, IsTimed};
ghost use Rattle.sd_base.specs.Net.{file_channel, IsRepetitionOf};
ghost use Rattle.sd_base.specs.Lawful.{Lawful};
ghost use Rattle.sd_base.specs.FileNet.{own_channel, net_of};
ghost use Rattle.firing.specs.Csdf.{AreRates, phased_channel, phased_net};

use crate::graph_channels::{NetChannel, net_channels};
use crate::net::Firing;
use crate::phases::{PhaseRates, ones};
use sd_base::{ChannelRow, GraphFile, NoMemory, Role, Rows};
use std::alloc::Global;

/// A channel with its rates by phase.
#[derive(Debug, Drop)]
pub(crate) struct CsdfChannel {
    source: u32,
    target: u32,
    made: PhaseRates,
    taken: PhaseRates,
    tokens: u64,
    size: u64,
    role: Role,
}

impl NetChannel for CsdfChannel {
    ghost plain = { phased_channel };

    ghost Keeps = { AreRates };

    fn of_file(alloc: Global, number: u32, row: &ChannelRow) -> Result<CsdfChannel, NoMemory> {
        Ok(CsdfChannel {
            source: row.source,
            target: row.target,
            made: PhaseRates::of(alloc, row.made.as_slice())?,
            taken: PhaseRates::of(alloc, row.taken.as_slice())?,
            tokens: row.tokens,
            size: row.size,
            role: Role::Token(number),
        })
    }

    fn own(alloc: Global, actor: u32, phases: u32) -> Result<CsdfChannel, NoMemory> {
        let rates = ones(alloc, phases)?;
        Ok(CsdfChannel {
            source: actor,
            target: actor,
            made: PhaseRates::of(alloc, rates.as_slice())?,
            taken: PhaseRates::of(alloc, rates.as_slice())?,
            tokens: 1,
            size: 1,
            role: Role::Own(actor),
        })
    }
}

/// The net of a cyclo-static graph: an actor's phases come in turn, firing by firing, and begin again after the last.
#[derive(Debug, Drop)]
pub struct CsdfNet {
    times: Vec<Rows<u64>>,
    channels: Vec<CsdfChannel>,
    rounds: Vec<u64>,
    ghost laws: { Lawful (phased_net times.items channels.items rounds.items) },
    ghost few: { All (λ t. length t ≤ PHASES) times.items },
}

impl Firing for CsdfNet {
    ghost net = { λ s. phased_net s.times.items s.channels.items s.rounds.items };

    ghost lawful = { λ s. s.laws };

    fn actors(&self) -> u32 {
        self.times.len() as u32
    }

    fn channels(&self) -> u32 {
        self.channels.len() as u32
    }

    fn source(&self, channel: u32) -> u32 {
        self.channels[channel as usize].source
    }

    fn target(&self, channel: u32) -> u32 {
        self.channels[channel as usize].target
    }

    fn tokens(&self, channel: u32) -> u64 {
        self.channels[channel as usize].tokens
    }

    fn size(&self, channel: u32) -> u64 {
        self.channels[channel as usize].size
    }

    fn phases(&self, actor: u32) -> u32 {
        self.times[actor as usize].len() as u32
    }

    fn time(&self, actor: u32, phase: u32) -> u64 {
        self.times[actor as usize].as_slice()[phase as usize]
    }

    fn made(&self, channel: u32, phase: u32) -> u64 {
        self.channels[channel as usize].made.at(phase)
    }

    fn taken(&self, channel: u32, phase: u32) -> u64 {
        self.channels[channel as usize].taken.at(phase)
    }

    fn made_before(&self, channel: u32, phases: u32) -> u64 {
        self.channels[channel as usize].made.before(phases)
    }

    fn taken_before(&self, channel: u32, phases: u32) -> u64 {
        self.channels[channel as usize].taken.before(phases)
    }

    fn round(&self, actor: u32) -> u64 {
        self.rounds[actor as usize]
    }

    fn role(&self, channel: u32) -> Role {
        self.channels[channel as usize].role
    }
}

impl CsdfNet {
    /// The net of a graph file with its repetition vector: the channels of the file, then own channels by
    /// actor. Each actor of several phases has one, and with `no_overlap` each other actor without a
    /// self-loop in the file. Cost: linear in the product of actors and channels, and in the rates.
    pub fn new(
        alloc: Global,
        graph: &GraphFile,
        gamma: &[u64],
        no_overlap: bool,
    ) -> Result<CsdfNet, NoMemory>
        requires rules { KeepsRules graph.now }
        requires timed { IsTimed graph.now }
        requires gamma { IsRepetitionOf graph.now gamma.now }
        requires small { sum gamma.now ≤ ROUND }
        ensures { IfOk result (λ n. ⟦<CsdfNet as Firing>⟧.net n ≡ net_of graph.now gamma.now no_overlap) }
    {
        let times = times_of(alloc, graph)?;
        let channels = net_channels(alloc, graph, no_overlap)?;
        let rounds = Vec::from_slice(alloc, gamma)?;
        Ok(CsdfNet {
            times,
            channels,
            rounds,
        })
    }
}

/// The times of each actor.
fn times_of(alloc: Global, graph: &GraphFile) -> Result<Vec<Rows<u64>>, NoMemory>
    ensures { IfOk result (λ v. v.items ≡ map (λ (a : ActorRow). a.times) graph.now.actors) }
{
    let mut times = Vec::new(alloc);
    for actor in graph.actors.as_slice() {
        let row = Rows::from_vec(Vec::from_slice(alloc, actor.times.as_slice())?);
        times.push(row)?;
    }
    Ok(times)
}
