//! The weights of edges by the nodes that they join.
ghost use Rattle.std.specs.Prelude.{◌≡◌, IfOk};
ghost use Rattle.cert_checker.specs.ListedNodes.{weight_between};
ghost use Rattle.cert_checker.specs.inside.Weights.{AreWeights, weight_in};

use automaton::Edge;
use sd_base::NoMemory;
use std::alloc::Global;
use std::collections::BTreeMap;

/// The weight of the first edge between two nodes, by these. One is found in the logarithm of the edges.
#[derive(Drop)]
pub(crate) struct Weights {
    between: BTreeMap<(u64, u64), u64>,
}

impl Weights {
    /// Those of edges. Cost: the edges, each times the logarithm of their number.
    pub(crate) fn of(alloc: Global, edges: &[Edge]) -> Result<Weights, NoMemory>
        ensures { IfOk result (AreWeights edges.now) }
    {
        let mut between = BTreeMap::new(alloc);
        let mut left = edges.len();
        // From the last one on, so that the first of several stays.
        while left > 0 {
            left -= 1;
            let edge = edges[left];
            let ends = (u64::from(edge.from), u64::from(edge.to));
            between.insert(ends, edge.weight)?;
        }
        Ok(Weights { between })
    }

    pub(crate) fn between(&self, from: u64, to: u64) -> Option<u64>
        ensures { result ≡ weight_in self.now from to }
    {
        self.between.get(&(from, to)).copied()
    }
}
