ghost use Rattle.std.specs.Prelude.{◌≡◌};
ghost use Rattle.sd_base.specs.FileNet.{gets_own, has_self_loop};

use crate::{Rows, Text};

/// Whether rates and times are single numbers or lists by phase.
#[derive(Clone, Copy, Debug, PartialEq, Eq)]
pub enum Kind {
    /// Synchronous dataflow: each actor has one phase.
    Sdf,
    /// Cyclo-static dataflow: the phases of an actor come in turn, firing by firing.
    Csdf,
}

/// A dataflow graph as a graph file spells it. Actors and channels are numbered from 0 in file order.
#[derive(Debug, Drop)]
pub struct GraphFile {
    pub kind: Kind,
    pub actors: Rows<ActorRow>,
    pub channels: Rows<ChannelRow>,
}

impl GraphFile {
    /// Whether an actor of so many phases gets an own channel, which keeps its firings apart: one of several phases does and,
    /// with `no_overlap`, each other actor without a self-loop in the file. Cost: linear in the channels.
    pub fn gets_own_channel(&self, actor: u32, phases: u32, no_overlap: bool) -> bool
        ensures { result ≡ gets_own no_overlap self.now.channels actor phases }
    {
        1 < phases || (no_overlap && !self.leads_to_itself(actor))
    }

    /// Whether a channel of the file leads from an actor to itself.
    fn leads_to_itself(&self, actor: u32) -> bool
        ensures { result ≡ has_self_loop self.now.channels actor }
    {
        self.channels
            .as_slice()
            .iter()
            .any(|row| row.source == actor && row.target == actor)
    }
}

/// An actor: its number of phases and, by phase, its execution times in time units. A file that
/// gives none, where none were asked for, leaves the times out.
#[derive(Debug, Drop)]
pub struct ActorRow {
    pub name: Text,
    pub phases: u32,
    pub times: Rows<u64>,
}

/// A channel from the actor `source` to the actor `target`. A firing of the source puts `made` tokens
/// of its phase on it at its end, and a firing of the target takes `taken` tokens of its phase from it
/// at its start. It starts with `tokens` tokens; `size` is the memory that one token needs.
#[derive(Debug, Drop)]
pub struct ChannelRow {
    pub name: Text,
    pub source: u32,
    pub target: u32,
    pub made: Rows<u64>,
    pub taken: Rows<u64>,
    pub tokens: u64,
    pub size: u64,
}

/// Scenarios that share tokens, and the automaton whose paths run them. Scenarios, shared channels and states are
/// numbered from 0 in file order.
#[derive(Debug, Drop)]
pub struct ScenarioFile {
    pub scenarios: Rows<ScenarioRow>,
    pub shared: Rows<SharedRow>,
    pub states: Rows<StateRow>,
    /// The number of the state in which each path begins.
    pub initial: u32,
}

/// A scenario: one round of its graph runs in each state that names it.
#[derive(Debug, Drop)]
pub struct ScenarioRow {
    pub name: Text,
    pub graph: GraphFile,
}

/// A channel that has tokens between rounds, the same number of them in each scenario.
#[derive(Debug, Drop)]
pub struct SharedRow {
    pub name: Text,
    pub tokens: u64,
}

/// A state of the automaton: the number of its scenario, and those of the states that may come next.
#[derive(Debug, Drop)]
pub struct StateRow {
    pub name: Text,
    pub scenario: u32,
    pub next: Rows<u32>,
}
