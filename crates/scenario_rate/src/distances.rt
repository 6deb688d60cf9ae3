//! How many edges of a list lead at the least from each node to one.
ghost use Rattle.std.specs.Prelude.{◌≡◌, ◌<◌, ◌≤◌, ℕ, List, IfOk, OnOk, MatchBool, None, length, replicate};
ghost use Rattle.sd_base.specs.declared.limits.TheConstants.{NODES};
ghost use Rattle.automaton.specs.SoundGraphs.{AreInside};
ghost use Rattle.scenario_rate.specs.declared.by_node.End.TheVariants.{To};
ghost use Rattle.scenario_rate.specs.inside.ByNode.{AreByNode};
ghost use Rattle.scenario_rate.specs.inside.Choosing.{AreKnown, IsDistance, IsBrought, IsFarther, IsWithinOf};
ghost use Rattle.scenario_rate.specs.inside.Spreading.{AreBrought};

use crate::by_node::edges_at;
use automaton::Edge;
use sd_base::{NoMemory, Rows};
use std::alloc::Global;
use std::collections::VecDeque;

/// By node the fewest edges that lead from it to a root, where the edges into each node are listed; none where none do.
/// A search in breadth: nodes wait in a queue in the order in which they are reached (Moore 1959). Cost: linear in the
/// nodes, and in the edges into those from which edges lead to the root.
pub(crate) fn distances(
    alloc: Global,
    edges: &[Edge],
    into: &[Rows<u32>],
    root: u32,
) -> Result<Vec<Option<u32>>, NoMemory>
    requires inside { AreInside edges.now (length into.now) }
    requires nodes { length into.now ≤ NODES }
    requires listed { (list : List ℕ) × AreByNode To edges.now list (length into.now) into.now }
    requires root { root < length into.now }
    ensures { IfOk result (λ steps. (list : List ℕ) → AreByNode To edges.now list (length into.now) into.now
        → IsDistance edges.now list (length into.now) root steps.items) }
{
    let mut steps = no_steps(alloc, into.len())?;
    steps[root as usize] = Some(0);
    let mut queue = VecDeque::new(alloc);
    queue.push_back(root)?;
    'nodes: while let Some(node) = queue.pop_front() {
        let list = edges_at(into, node);
        bring_all(edges, list, steps.as_mut_slice(), &mut queue)?;
    }
    Ok(steps)
}

/// By node no steps.
fn no_steps(alloc: Global, nodes: usize) -> Result<Vec<Option<u32>>, NoMemory>
    ensures { IfOk result (λ steps. steps.items ≡ replicate nodes None) }
{
    let steps = vec![in alloc; None; nodes]?;
    Ok(steps)
}

/// Brings nodes nearer over the edges of a list, and puts those that were into the queue.
fn bring_all(
    edges: &[Edge],
    list: &[u32],
    steps: &mut [Option<u32>],
    queue: &mut VecDeque<u32>,
) -> Result<(), NoMemory>
    requires inside { AreInside edges.now (length steps.old) }
    requires few { length steps.old ≤ NODES }
    requires known { AreKnown edges.now list.now }
    ensures { OnOk result (AreBrought edges.now list.now (length list.now) steps.old steps.new queue.old.items queue.new.items) }
{
    for number in list {
        let edge = edges[*number as usize];
        if bring(edge, steps) {
            queue.push_back(edge.from)?;
        }
    }
    Ok(())
}

/// Brings the start of an edge nearer, if its end is near enough, and tells whether it did.
fn bring(edge: Edge, steps: &mut [Option<u32>]) -> bool
    requires from { edge.from < length steps.old }
    requires to { edge.to < length steps.old }
    requires few { length steps.old ≤ NODES }
    ensures { IsBrought edge steps.old steps.new result }
{
    if let Some(end) = steps[edge.to as usize] {
        if (end as usize) < steps.len() && is_farther(steps[edge.from as usize], end + 1) {
            steps[edge.from as usize] = Some(end + 1);
            return true;
        }
    }
    false
}

/// Whether a node is farther than so many steps.
fn is_farther(steps: Option<u32>, than: u32) -> bool
    ensures { MatchBool result (IsFarther steps than) (IsWithinOf steps than) }
{
    match steps {
        None => true,
        Some(steps) => steps > than,
    }
}
