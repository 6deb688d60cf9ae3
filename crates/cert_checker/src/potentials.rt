//! Potentials of listed nodes.
ghost use Rattle.std.specs.Prelude.{◌≡◌, ◌↔◌, ℕ, ◌+◌, ◌*◌, ◌<◌, ◌≤◌, ◌^◌, pos, ◌+ℤ◌, ◌≤ℤ◌, ℤ, Some, IsTrue, MatchOption, length, slice_get, slice_index_or};
ghost use Rattle.sd_base.specs.declared.limits.TheConstants.{ROUND, TIME};
ghost use Rattle.automaton.specs.declared.graph.Edge.{Edge};
ghost use Rattle.automaton.specs.SoundGraphs.{IsSound};
ghost use Rattle.cert_checker.specs.inside.Marks.{AreReached};
ghost use Rattle.cert_checker.specs.inside.Listed.{IsKeptTo, IsNextPotential, UpTo};
ghost use Rattle.cert_checker.specs.ListedNodes.{FitsAt, IsFitting, IsNode, ListsNodes, node_at, node_of, potential_of};

use crate::reaching::is_start;
use crate::walks::{is_node, node_of};
use automaton::{Edge, TimedGraph};

/// Whether the potentials are of the reachable nodes, each once, in order.
pub(crate) fn lists_nodes(
    graph: &TimedGraph,
    marks: &[bool],
    potentials: &[(u32, u32, i128)],
) -> bool
    requires sound { IsSound graph.now }
    requires marks { AreReached graph.now marks.now }
    ensures { IsTrue result ↔ ListsNodes graph.now potentials.now }
{
    let mut next = 0;
    for node in 0..marks.len() {
        match next_after(graph, marks, potentials, node, next) {
            Some(after) => next = after,
            None => return false,
        }
    }
    next == potentials.len()
}

/// How many potentials are passed once a node is, where `next` were passed before it; None where the next one isn't that of
/// the node.
fn next_after(
    graph: &TimedGraph,
    marks: &[bool],
    potentials: &[(u32, u32, i128)],
    node: usize,
    next: usize,
) -> Option<usize>
    requires marks { AreReached graph.now marks.now }
    requires node { node < length marks.now }
    requires so_far { UpTo graph.now potentials.now node next }
    ensures { MatchOption result (¬ ListsNodes graph.now potentials.now) (UpTo graph.now potentials.now (node + 1)) }
{
    if !marks[node] {
        return Some(next);
    }
    if is_next(graph, potentials, node, next) {
        return Some(next + 1);
    }
    None
}

/// Whether the next potential is that of a node.
fn is_next(graph: &TimedGraph, potentials: &[(u32, u32, i128)], node: usize, next: usize) -> bool
    ensures { IsTrue result ↔ IsNextPotential graph.now potentials.now node next }
{
    next < potentials.len() && is_of(graph, node, potentials[next])
}

/// Whether a potential is of a node.
fn is_of(graph: &TimedGraph, node: usize, potential: (u32, u32, i128)) -> bool
    ensures { IsTrue result ↔ (IsNode graph.now (potential.0, potential.1) × (node_of graph.now (potential.0, potential.1) ≡ node)) }
{
    is_node(graph, (potential.0, potential.1))
        && node_of(graph, (potential.0, potential.1)) == node as u64
}

/// The first potential that doesn't fit. Cost: the potentials times the edges, and those into them times the potentials.
pub(crate) fn first_unfit(
    graph: &TimedGraph,
    rate: (u64, u64),
    potentials: &[(u32, u32, i128)],
) -> Option<usize>
    requires sound { IsSound graph.now }
    requires listed { ListsNodes graph.now potentials.now }
    ensures { MatchOption result ((i : ℕ) → i < length potentials.now → FitsAt graph.now rate potentials.now i)
        (λ i. (i < length potentials.now) × ¬ FitsAt graph.now rate potentials.now i × ((j : ℕ) → j < i → FitsAt graph.now rate potentials.now j)) }
{
    for place in 0..potentials.len() {
        let (state, token, potential) = potentials[place];
        if !is_fitting(
            graph,
            rate,
            potentials,
            node_of(graph, (state, token)),
            potential,
        ) {
            return Some(place);
        }
    }
    None
}

/// Whether a potential fits at a node.
fn is_fitting(
    graph: &TimedGraph,
    rate: (u64, u64),
    potentials: &[(u32, u32, i128)],
    node: u64,
    potential: i128,
) -> bool
    requires sound { IsSound graph.now }
    requires node { node < 2 ^ 32 }
    ensures { IsTrue result ↔ IsFitting graph.now rate potentials.now node potential }
{
    if potential < 0 && is_start(graph, node as u32) {
        return false;
    }
    for edge in graph.edges.as_slice() {
        if !is_kept_to(graph, rate, potentials, *edge, node, potential) {
            return false;
        }
    }
    true
}

/// Whether an edge leads elsewhere, or is kept.
fn is_kept_to(
    graph: &TimedGraph,
    rate: (u64, u64),
    potentials: &[(u32, u32, i128)],
    edge: Edge,
    node: u64,
    potential: i128,
) -> bool
    requires light { edge.weight ≤ TIME * ROUND }
    ensures { IsTrue result ↔ IsKeptTo graph.now rate potentials.now node potential edge }
{
    u64::from(edge.to) != node || is_kept(graph, rate, potentials, edge, potential)
}

/// Whether an edge is kept by the potential of its end, if one of its start is listed.
fn is_kept(
    graph: &TimedGraph,
    rate: (u64, u64),
    potentials: &[(u32, u32, i128)],
    edge: Edge,
    potential: i128,
) -> bool
    requires light { edge.weight ≤ TIME * ROUND }
    ensures { IsTrue result ↔ ((x : ℤ) → potential_of graph.now potentials.now edge.from ≡ Some x → (x +ℤ pos (edge.weight * rate.0)) ≤ℤ (potential +ℤ pos rate.1)) }
{
    match potential_of(graph, potentials, u64::from(edge.from)) {
        Some(before) => is_no_higher(
            before,
            u128::from(edge.weight) * u128::from(rate.0),
            potential,
            rate.1,
        ),
        None => true,
    }
}

/// Whether x and a gain is at most y and some slack.
fn is_no_higher(x: i128, gain: u128, y: i128, slack: u64) -> bool
    requires { gain ≤ TIME * ROUND * 2 ^ 64 }
    ensures { IsTrue result ↔ ((x +ℤ pos gain) ≤ℤ (y +ℤ pos slack)) }
{
    let gain = gain as i128;
    let slack = slack as i128;
    if gain >= slack {
        let more = gain - slack;
        if x > i128::MAX - more {
            return false;
        }
        is_at_most(x + more, y)
    } else {
        let less = slack - gain;
        if y > i128::MAX - less {
            return true;
        }
        is_at_most(x, y + less)
    }
}

fn is_at_most(x: i128, y: i128) -> bool
    ensures { IsTrue result ↔ (x ≤ℤ y) }
{
    x <= y
}

/// The potential that is listed of a node.
fn potential_of(graph: &TimedGraph, potentials: &[(u32, u32, i128)], node: u64) -> Option<i128>
    ensures { result ≡ potential_of graph.now potentials.now node }
{
    potentials
        .iter()
        .find(|potential| node_of(graph, (potential.0, potential.1)) == node)
        .map(|potential| potential.2)
}
