ghost use Rattle.std.specs.Prelude.{◌≡◌, ◌*◌, ◌≤◌, ◌<◌, ℕ, All, true, length};
ghost use Rattle.automaton.specs.SoundGraphs.{Grows, IsSound, node_count};
ghost use Rattle.test_scenarios.specs.Leading.{IsInside, LeadsFrom};

use automaton::{Edge, TimedGraph};
use scenario_rate::{Worst, worst};
use sd_base::limits::{EDGES, NODES, ROUND, TIME};
use sd_base::{NoMemory, Rows};
use std::alloc::{AllocError, Global};
use std::process::Abort;

/// The timed graph of edges, each from one node to another with a weight.
pub(crate) fn timed(
    alloc: Global,
    tokens: u32,
    states: u32,
    initial: u32,
    edges: &[(u32, u32, u64)],
) -> Result<TimedGraph, AllocError> {
    let mut list = Rows::new(alloc);
    for edge in edges {
        list.push(Edge {
            from: edge.0,
            to: edge.1,
            weight: edge.2,
        })?;
    }
    Ok(TimedGraph {
        tokens,
        initial,
        states,
        edges: list,
    })
}

/// The worst rate of a graph in which an edge that takes time leads on from each node.
pub(crate) fn worst_of(
    rt: &impl Abort,
    alloc: Global,
    graph: &TimedGraph,
) -> Result<Worst, NoMemory> {
    assert!(rt; is_sound(graph));
    assert!(rt; leads_on(graph));
    worst(alloc, graph)
}

pub(crate) fn is_sound(graph: &TimedGraph) -> bool
    ensures { result ≡ true → IsSound graph.now }
{
    let nodes = u64::from(graph.states) * u64::from(graph.tokens);
    if graph.tokens < 1
        || graph.initial >= graph.states
        || nodes > NODES
        || graph.edges.len() > EDGES as usize
    {
        return false;
    }
    are_inside(graph.edges.as_slice(), nodes)
}

fn are_inside(edges: &[Edge], nodes: u64) -> bool
    ensures { result ≡ true → All (IsInside nodes) edges.now }
{
    edges.iter().all(|edge| is_inside(edge, nodes))
}

fn is_inside(edge: &Edge, nodes: u64) -> bool
    ensures { result ≡ true → IsInside nodes edge.now }
{
    u64::from(edge.from) < nodes && u64::from(edge.to) < nodes && edge.weight <= TIME * ROUND
}

/// Whether an edge that takes time begins at each node.
fn leads_on(graph: &TimedGraph) -> bool
    requires { IsSound graph.now }
    ensures { result ≡ true → Grows graph.now }
{
    let nodes = u64::from(graph.states) * u64::from(graph.tokens);
    for node in 0..nodes {
        if !leads_from(graph.edges.as_slice(), node) {
            return false;
        }
    }
    true
}

fn leads_from(edges: &[Edge], node: u64) -> bool
    ensures { result ≡ true → LeadsFrom edges.now node }
{
    for place in 0..edges.len() {
        let edge = edges[place];
        if u64::from(edge.from) == node && edge.weight >= 1 {
            return true;
        }
    }
    false
}
