//! The timed graph of a file of scenarios.
ghost use Rattle.std.specs.Prelude.{◌↔◌, IsTrue};
ghost use Rattle.automaton.specs.SoundGraphs.{IsSound};
ghost use Rattle.automaton.specs.CriticalCycles.{IsStart};

use sd_base::Rows;

/// An edge between two nodes: the stamp of the node that it enters is at least `weight` time units after that of the
/// node that it leaves.
#[derive(Clone, Copy, Debug, PartialEq, Eq)]
pub struct Edge {
    /// The number of the node that it leaves.
    pub from: u32,
    /// The number of the node that it enters.
    pub to: u32,
    pub weight: u64,
}

/// A timed graph: node `q * tokens + i` is shared token i just before a run of state q. Edges are numbered
/// from 0 in the order of the states, their successors, rows and columns.
#[derive(Debug, Drop)]
pub struct TimedGraph {
    /// How many tokens the scenarios share.
    pub tokens: u32,
    /// The number of the state in which each path begins.
    pub initial: u32,
    /// How many states there are.
    pub states: u32,
    pub edges: Rows<Edge>,
}

impl TimedGraph {
    /// Whether a node is one of the initial state, where each walk begins.
    pub fn is_start(&self, node: u32) -> bool
        requires { IsSound self.now }
        ensures { IsTrue result ↔ IsStart self.now node }
    {
        let first = self.initial * self.tokens;
        first <= node && node < first + self.tokens
    }
}
