//! Where a walk comes back to a node for the first time.

ghost use Rattle.std.specs.Prelude.{◌≡◌, ◌≢◌, ◌+◌, ◌-◌, ◌≤◌, ◌<◌, ℕ, IfOk, MatchOption, length, take, drop};
ghost use Rattle.scenario_rate.specs.inside.Searches.{node_after, AreNumbers, DifferBelow};

use automaton::Edge;
use sd_base::NoMemory;
use std::alloc::Global;

/// A part of a walk: the edges from one place up to another.
#[derive(Clone, Copy)]
pub(crate) struct Part {
    /// The place of its first edge, from 0.
    pub start: usize,
    /// The place after that of its last edge.
    pub end: usize,
}

/// The first part that leads back to where it began: no two nodes before its end are the same. Cost: quadratic in
/// the edges of the walk.
pub(crate) fn first_return(edges: &[Edge], walk: &[u32], last: u32) -> Option<Part>
    requires { AreNumbers edges.now walk.now }
    ensures { MatchOption result (DifferBelow edges.now walk.now last (length walk.now + 1))
        (λ p. (p.start < p.end) × (p.end ≤ length walk.now) × (node_after edges.now walk.now last p.start ≡ node_after edges.now walk.now last p.end)
        × DifferBelow edges.now walk.now last p.end) }
{
    for end in 0..walk.len() + 1 {
        if let Some(start) = earlier(edges, walk, last, end) {
            return Some(Part { start, end });
        }
    }
    None
}

/// An earlier place of the walk with the node that it has at a place.
fn earlier(edges: &[Edge], walk: &[u32], last: u32, place: usize) -> Option<usize>
    requires { AreNumbers edges.now walk.now }
    ensures { MatchOption result ((k : ℕ) → k < place → node_after edges.now walk.now last k ≢ node_after edges.now walk.now last place)
        (λ k. (k < place) × (node_after edges.now walk.now last k ≡ node_after edges.now walk.now last place)) }
{
    let node = node_at(edges, walk, last, place);
    for start in 0..place {
        if node_at(edges, walk, last, start) == node {
            return Some(start);
        }
    }
    None
}

/// The node after so many edges of a walk that ends at `last`.
fn node_at(edges: &[Edge], walk: &[u32], last: u32, place: usize) -> u32
    requires { AreNumbers edges.now walk.now }
    ensures { result ≡ node_after edges.now walk.now last place }
{
    if place < walk.len() {
        edges[walk[place] as usize].from
    } else {
        last
    }
}

/// The edges of a part of a walk.
pub(crate) fn edges_of(alloc: Global, walk: &[u32], part: Part) -> Result<Vec<u32>, NoMemory>
    requires order { part.start ≤ part.end }
    requires within { part.end ≤ length walk.now }
    ensures { IfOk result (λ piece. piece.items ≡ take (part.end - part.start) (drop part.start walk.now)) }
{
    copied(alloc, &walk[part.start..part.end])
}

fn copied(alloc: Global, numbers: &[u32]) -> Result<Vec<u32>, NoMemory>
    ensures { IfOk result (λ copy. copy.items ≡ numbers.now) }
{
    let mut copy = Vec::new(alloc);
    for number in numbers {
        copy.push(*number)?;
    }
    Ok(copy)
}
