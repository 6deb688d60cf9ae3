//! The critical cycle that is chosen: of tight edges, through the least node that such a cycle has, of the fewest
//! edges, and then with the least list of nodes.
ghost use Rattle.std.specs.Prelude.{◌≡◌, ◌≤◌, ◌<◌, ◌↔◌, ℕ, List, IsTrue, IfOk, MatchOption, Some, length};
ghost use Rattle.sd_base.specs.declared.limits.TheConstants.{NODES};
ghost use Rattle.automaton.specs.SoundGraphs.{AreInside};
ghost use Rattle.scenario_rate.specs.declared.by_node.End.TheVariants.{From};
ghost use Rattle.scenario_rate.specs.inside.ByNode.{AreByNode};
ghost use Rattle.scenario_rate.specs.inside.Choosing.{AreKnown, AreFew, HasCycle, IsChosenOf, NoneBack, IsFewest, fewer_of, NoneNext, IsNextEdge, IsNearer, steps_at, IsOnWay, IsLeastWay};

use crate::by_node::{End, edges_at, edges_by_node};
use crate::distances::distances;
use automaton::Edge;
use sd_base::{NoMemory, Rows};
use std::alloc::Global;

/// The chosen cycle of the edges of a list, node by node from 0 on: distances to the node, until one is on a cycle.
/// Cost: for each node up to that one, linear in the nodes, and in the edges of the list into those from which they
/// lead to it.
pub(crate) fn chosen_cycle(
    alloc: Global,
    edges: &[Edge],
    tight: &[u32],
    nodes: u32,
) -> Result<Vec<u32>, NoMemory>
    requires inside { AreInside edges.now nodes }
    requires nodes { nodes ≤ NODES }
    requires known { AreKnown edges.now tight.now }
    requires some { HasCycle edges.now tight.now nodes }
    ensures { IfOk result (λ cycle. IsChosenOf edges.now tight.now cycle.items) }
{
    let into = edges_by_node(alloc, edges, tight, nodes, End::To)?;
    let into = into.as_slice();
    let out_of = edges_by_node(alloc, edges, tight, nodes, End::From)?;
    let out_of = out_of.as_slice();
    for root in 0..nodes {
        let steps = distances(alloc, edges, into, root)?;
        let steps = steps.as_slice();
        if let Some(fewest) = fewest_back(edges, edges_at(out_of, root), steps) {
            let cycle = least_way(alloc, edges, out_of, steps, root, fewest)?;
            return Ok(cycle);
        }
    }
    unreachable!()
}

/// The fewest edges from a node back to itself, over the edges out of it, by the steps that each node is away from it.
fn fewest_back(edges: &[Edge], out: &[u32], steps: &[Option<u32>]) -> Option<u32>
    requires inside { AreInside edges.now (length steps.now) }
    requires nodes { length steps.now ≤ NODES }
    requires known { AreKnown edges.now out.now }
    requires few { AreFew NODES steps.now }
    ensures { MatchOption result (NoneBack edges.now out.now steps.now (length out.now))
        (IsFewest edges.now out.now steps.now (length out.now)) }
{
    let mut fewest = None;
    for number in out {
        let edge = edges[*number as usize];
        fewest = fewer(fewest, steps[edge.to as usize]);
    }
    fewest
}

/// The fewer of some steps and one more than others.
fn fewer(fewest: Option<u32>, others: Option<u32>) -> Option<u32>
    requires { MatchOption others (Unit {0}) (λ d. d ≤ NODES) }
    ensures { result ≡ fewer_of fewest others }
{
    match others {
        None => fewest,
        Some(steps) => match fewest {
            None => Some(steps + 1),
            Some(few) => Some(few.min(steps + 1)),
        },
    }
}

/// The way of so many edges from a node to the one that steps lead to, always to the least node.
fn least_way(
    alloc: Global,
    edges: &[Edge],
    out_of: &[Rows<u32>],
    steps: &[Option<u32>],
    node: u32,
    left: u32,
) -> Result<Vec<u32>, NoMemory>
    requires inside { AreInside edges.now (length steps.now) }
    requires long { length out_of.now ≡ length steps.now }
    requires node { node < length steps.now }
    requires way { (list : List ℕ) × (root : ℕ) × AreByNode From edges.now list (length steps.now) out_of.now
        × IsOnWay edges.now list steps.now (length steps.now) root node left }
    ensures { IfOk result (λ way. (list : List ℕ) → (root : ℕ) → AreByNode From edges.now list (length steps.now) out_of.now
        → IsOnWay edges.now list steps.now (length steps.now) root node left → IsLeastWay edges.now list root node left way.items) }
{
    if left == 0 {
        return Ok(Vec::new(alloc));
    }
    match next_edge(edges, edges_at(out_of, node), steps, left - 1) {
        None => unreachable!(),
        Some(number) => {
            let to = edges[number as usize].to;
            let mut way = least_way(alloc, edges, out_of, steps, to, left - 1)?;
            way.insert(0, number)?;
            Ok(way)
        },
    }
}

/// Of the edges of a list to a node that is so many steps away the first one with the least end.
fn next_edge(edges: &[Edge], out: &[u32], steps: &[Option<u32>], left: u32) -> Option<u32>
    requires inside { AreInside edges.now (length steps.now) }
    requires known { AreKnown edges.now out.now }
    ensures { MatchOption result (NoneNext edges.now out.now steps.now left (length out.now))
        (IsNextEdge edges.now out.now steps.now left (length out.now)) }
{
    let mut best = None;
    for number in out {
        let edge = edges[*number as usize];
        if leads_on(edge, steps, left) {
            best = nearer(edges, best, *number);
        }
    }
    best
}

/// Whether an edge leads to a node that is so many steps away.
fn leads_on(edge: Edge, steps: &[Option<u32>], left: u32) -> bool
    requires { edge.to < length steps.now }
    ensures { IsTrue result ↔ (steps_at steps.now edge.to ≡ Some left) }
{
    steps[edge.to as usize] == Some(left)
}

/// The edge that ends at the lesser node, the first one where both end at one.
fn nearer(edges: &[Edge], best: Option<u32>, number: u32) -> Option<u32>
    requires number { number < length edges.now }
    requires best { MatchOption best (Unit {0}) (λ k. k < length edges.now) }
    ensures { IsNearer edges.now best number result }
{
    match best {
        None => Some(number),
        Some(old) => {
            if edges[number as usize].to < edges[old as usize].to {
                return Some(number);
            }
            Some(old)
        },
    }
}
