//! Closed walks of a timed graph along listed nodes.
ghost use Rattle.std.specs.Prelude.{◌≡◌, ◌↔◌, ℕ, ◌*◌, ◌<◌, ◌≤◌, ◌^◌, All, IfOk, Some, IsTrue, length};
ghost use Rattle.automaton.specs.SoundGraphs.{IsSound};
ghost use Rattle.cert_checker.specs.inside.Marks.{AreReached};
ghost use Rattle.cert_checker.specs.inside.Weights.{AreWeights};
ghost use Rattle.cert_checker.specs.ListedNodes.{IsClosedWalk, IsNode, end_of, node_of, time_on};

use crate::weights::Weights;
use automaton::TimedGraph;
use sd_base::NoMemory;
use std::alloc::Global;

/// Whether nodes, the first one first, are a closed walk of reachable nodes that takes a time, with as many edges for it
/// as a rate has rounds. Cost: the edges and the nodes, each times the logarithm of the edges.
pub(crate) fn is_closed_walk(
    alloc: Global,
    graph: &TimedGraph,
    marks: &[bool],
    rate: (u64, u64),
    time: u64,
    nodes: &[(u32, u32)],
) -> Result<bool, NoMemory>
    requires sound { IsSound graph.now }
    requires marks { AreReached graph.now marks.now }
    ensures { IfOk result (λ b. IsTrue b ↔ IsClosedWalk graph.now rate time nodes.now) }
{
    let weights = Weights::of(alloc, graph.edges.as_slice())?;
    Ok(is_walk(graph, &weights, marks, rate, time, nodes))
}

fn is_walk(
    graph: &TimedGraph,
    weights: &Weights,
    marks: &[bool],
    rate: (u64, u64),
    time: u64,
    nodes: &[(u32, u32)],
) -> bool
    requires sound { IsSound graph.now }
    requires weights { AreWeights graph.now.edges weights.now }
    requires marks { AreReached graph.now marks.now }
    ensures { IsTrue result ↔ IsClosedWalk graph.now rate time nodes.now }
{
    let [first, rest @ ..] = nodes else {
        return false;
    };
    if rest.is_empty() || !is_node(graph, *first) || !are_nodes(graph, rest) {
        return false;
    }
    if end_of(*first, rest) != *first || !marks[node_of(graph, *first) as usize] {
        return false;
    }
    takes(graph, weights, time, *first, rest)
        && rest.len() as u128 * rate.1 as u128 == rate.0 as u128 * time as u128
}

pub(crate) fn is_node(graph: &TimedGraph, node: (u32, u32)) -> bool
    ensures { IsTrue result ↔ IsNode graph.now node }
{
    node.0 < graph.states && node.1 < graph.tokens
}

fn are_nodes(graph: &TimedGraph, nodes: &[(u32, u32)]) -> bool
    ensures { IsTrue result ↔ All (IsNode graph.now) nodes.now }
{
    for node in nodes {
        if !is_node(graph, *node) {
            return false;
        }
    }
    true
}

pub(crate) fn node_of(graph: &TimedGraph, node: (u32, u32)) -> u64
    ensures { result ≡ node_of graph.now node }
{
    u64::from(node.0) * u64::from(graph.tokens) + u64::from(node.1)
}

/// The last node of a walk.
fn end_of(first: (u32, u32), nodes: &[(u32, u32)]) -> (u32, u32)
    ensures { result ≡ end_of first nodes.now }
{
    let mut end = first;
    let mut rest = nodes;
    while let [node, others @ ..] = rest {
        end = *node;
        rest = others;
    }
    end
}

/// Whether a walk takes a time.
fn takes(
    graph: &TimedGraph,
    weights: &Weights,
    time: u64,
    first: (u32, u32),
    nodes: &[(u32, u32)],
) -> bool
    requires { AreWeights graph.now.edges weights.now }
    ensures { IsTrue result ↔ (time_on graph.now 0 first nodes.now ≡ Some time) }
{
    let mut so_far: u128 = 0;
    let mut from = first;
    let mut rest = nodes;
    while let [node, others @ ..] = rest {
        match weights.between(node_of(graph, from), node_of(graph, *node)) {
            Some(weight) => so_far += u128::from(weight),
            None => return false,
        }
        if so_far > u128::from(time) {
            return false;
        }
        from = *node;
        rest = others;
    }
    so_far == u128::from(time)
}
