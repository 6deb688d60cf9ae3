//! The nodes of a timed graph that walks from the initial state reach.
ghost use Rattle.std.specs.Prelude.{◌≡◌, ◌↔◌, ℕ, ◌*◌, ◌<◌, ◌≤◌, Bool, true, false, IfOk, IsTrue, length};
ghost use Rattle.automaton.specs.SoundGraphs.{IsSound};
ghost use Rattle.automaton.specs.CriticalCycles.{IsStart};
ghost use Rattle.cert_checker.specs.inside.Marks.{AreKept, AreReached, IsKept, AreSoundMarks, HasStarts, mark_at, unmarked};

use automaton::TimedGraph;
use sd_base::NoMemory;
use std::alloc::Global;

/// By node whether it is reachable. Cost: at most the nodes times the edges.
pub(crate) fn reached(alloc: Global, graph: &TimedGraph) -> Result<Vec<bool>, NoMemory>
    requires { IsSound graph.now }
    ensures { IfOk result (λ marks. AreReached graph.now marks.items) }
{
    let mut marks = starts(alloc, graph)?;
    let mut spreads = true;
    while spreads {
        spreads = spread(graph, &mut marks);
    }
    Ok(marks)
}

/// By node whether it is one of the initial state.
fn starts(alloc: Global, graph: &TimedGraph) -> Result<Vec<bool>, NoMemory>
    requires { IsSound graph.now }
    ensures size { IfOk result (λ marks. length marks.items ≡ graph.now.states * graph.now.tokens) }
    ensures starts { IfOk result (λ marks. (v : ℕ) → mark_at marks.items v ≡ true ↔ IsStart graph.now v) }
{
    let mut marks = Vec::new(alloc);
    for node in 0..graph.states * graph.tokens {
        marks.push(is_start(graph, node))?;
    }
    Ok(marks)
}

/// Whether a node is one of the initial state.
pub(crate) fn is_start(graph: &TimedGraph, node: u32) -> bool
    requires { IsSound graph.now }
    ensures { IsTrue result ↔ IsStart graph.now node }
{
    let first = graph.initial * graph.tokens;
    first <= node && node - first < graph.tokens
}

/// Marks the ends of edges from marked nodes; whether one wasn't marked before.
fn spread(graph: &TimedGraph, marks: &mut Vec<bool>) -> bool
    requires sound { IsSound graph.now }
    requires size { length marks.old.items ≡ graph.now.states * graph.now.tokens }
    ensures size { length marks.new.items ≡ graph.now.states * graph.now.tokens }
    ensures reached { AreSoundMarks graph.now marks.old.items → AreSoundMarks graph.now marks.new.items }
    ensures starts { HasStarts graph.now marks.old.items → HasStarts graph.now marks.new.items }
    ensures few { unmarked marks.new.items ≤ unmarked marks.old.items }
    ensures fewer { IsTrue result → unmarked marks.new.items < unmarked marks.old.items }
    ensures kept { result ≡ false → AreKept graph.now.edges (length graph.now.edges) marks.new.items }
{
    let mut spreads = false;
    for number in 0..graph.edges.len() {
        if mark_end(graph, marks, number) {
            spreads = true;
        }
    }
    spreads
}

/// Marks the end of an edge from a marked node; whether it wasn't marked before.
fn mark_end(graph: &TimedGraph, marks: &mut Vec<bool>, number: usize) -> bool
    requires sound { IsSound graph.now }
    requires size { length marks.old.items ≡ graph.now.states * graph.now.tokens }
    requires number { number < length graph.now.edges }
    ensures size { length marks.new.items ≡ graph.now.states * graph.now.tokens }
    ensures reached { AreSoundMarks graph.now marks.old.items → AreSoundMarks graph.now marks.new.items }
    ensures starts { HasStarts graph.now marks.old.items → HasStarts graph.now marks.new.items }
    ensures fewer { IsTrue result → unmarked marks.new.items < unmarked marks.old.items }
    ensures stays { result ≡ false → marks.new.items ≡ marks.old.items }
    ensures kept { result ≡ false → IsKept graph.now.edges number marks.new.items }
{
    let edge = graph.edges.as_slice()[number];
    if !marks[edge.from as usize] || marks[edge.to as usize] {
        return false;
    }
    marks[edge.to as usize] = true;
    true
}
