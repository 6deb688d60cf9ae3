//! A node as the bounds in force see it that cover its least vector.
ghost use Rattle.std.specs.Prelude.{◌≡◌, ◌≤◌, ◌<◌, ◌↔◌, All, IfOk, IsTrue, length};
ghost use Rattle.covers.specs.Lattices.{storage_of};
ghost use Rattle.covers.specs.inside.Surveys.{Holds, IsSurvey};

use crate::bound::Bound;
use crate::lattice::Lattice;
use crate::node::Node;
use crate::ways::{Way, Ways, ways_out};
use sd_base::{Fraction, NoMemory};
use std::alloc::Global;

/// What the bounds in force that cover a node's least vector leave of the node.
#[derive(Drop)]
pub(crate) enum Survey {
    /// Nothing: one of them covers all of it.
    Closed,
    /// What takes the only way out of one of them.
    Narrow(Way),
    /// What takes a way out of each of them; each has several.
    Tolls(Vec<Toll>),
}

/// A bound that covers a node's least vector, by its place: how many ways out it has, and what the cheapest adds to the
/// storage.
#[derive(Clone, Copy)]
pub(crate) struct Toll {
    pub(crate) cost: u64,
    pub(crate) ways: usize,
    pub(crate) place: usize,
}

/// Looks at each bound that acts. Cost: linear in these, and in the channels of those that cover the node's least vector.
pub(crate) fn survey_node(
    alloc: Global,
    lattice: &Lattice,
    bounds: &[Bound],
    acting: &[usize],
    best: &Fraction,
    node: &Node,
    storage: u64,
) -> Result<Survey, NoMemory>
    requires storage { storage ≡ storage_of lattice.now.axes node.now.lo.items }
    requires within { storage ≤ lattice.now.limit }
    requires below { All (λ place. place < length bounds.now) acting.now }
    ensures { IfOk result (IsSurvey lattice.now bounds.now best.now node.now acting.now) }
{
    let mut tolls = Vec::new(alloc);
    for place in acting {
        let bound = &bounds[*place];
        if holds(bound, best, node) {
            match ways_out(lattice, node, storage, bound) {
                Ways::Nowhere => return Ok(Survey::Closed),
                Ways::One(way) => return Ok(Survey::Narrow(way)),
                Ways::Several { number, cost } => tolls.push(Toll {
                    cost,
                    ways: number,
                    place: *place,
                })?,
            }
        }
    }
    Ok(Survey::Tolls(tolls))
}

/// Whether the bound is in force and covers what the node begins with.
fn holds(bound: &Bound, best: &Fraction, node: &Node) -> bool
    ensures { IsTrue result ↔ Holds best.now node.now bound.now }
{
    bound.covers(node.lo.as_slice()) && bound.is_in_force(best)
}
