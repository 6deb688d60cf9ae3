//! The edges of a list by node.
ghost use Rattle.std.specs.Prelude.{◌≡◌, ◌<◌, [], IfOk, length, replicate};
ghost use Rattle.automaton.specs.SoundGraphs.{AreInside};
ghost use Rattle.scenario_rate.specs.inside.Choosing.{AreKnown};
ghost use Rattle.scenario_rate.specs.inside.ByNode.{node_at, list_at, AreByNode};

use automaton::Edge;
use sd_base::{NoMemory, Rows};
use std::alloc::Global;

/// An end of an edge.
#[derive(Clone, Copy, Debug, PartialEq, Eq)]
pub enum End {
    From,
    To,
}

/// By node the edges of a list that have an end there, by their numbers in the order of the list. Cost: linear in the
/// nodes and the list.
pub(crate) fn edges_by_node(
    alloc: Global,
    edges: &[Edge],
    list: &[u32],
    nodes: u32,
    end: End,
) -> Result<Vec<Rows<u32>>, NoMemory>
    requires inside { AreInside edges.now nodes }
    requires known { AreKnown edges.now list.now }
    ensures { IfOk result (λ lists. AreByNode end edges.now list.now nodes lists.items) }
{
    let mut lists = no_edges(alloc, nodes)?;
    for number in list {
        let node = node_at(edges[*number as usize], end);
        lists[node as usize].push(*number)?;
    }
    Ok(lists)
}

/// The edges that are listed at a node.
pub(crate) fn edges_at(lists: &[Rows<u32>], node: u32) -> &[u32]
    requires { node < length lists.now }
    ensures { result.now ≡ list_at lists.now node }
{
    lists[node as usize].as_slice()
}

/// By node no edges.
fn no_edges(alloc: Global, nodes: u32) -> Result<Vec<Rows<u32>>, NoMemory>
    ensures { IfOk result (λ lists. lists.items ≡ replicate nodes []) }
{
    let mut lists = Vec::with_capacity(alloc, nodes as usize)?;
    for _ in 0..nodes {
        lists.push(Rows::new(alloc))?;
    }
    Ok(lists)
}

/// The node at an end of an edge.
fn node_at(edge: Edge, end: End) -> u32
    ensures { result ≡ node_at end edge }
{
    match end {
        End::From => edge.from,
        End::To => edge.to,
    }
}
