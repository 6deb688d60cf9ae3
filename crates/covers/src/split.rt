ghost use Rattle.std.specs.Prelude.{◌≡◌, ◌≤◌, IfOk};
ghost use Rattle.covers.specs.Lattices.{IsOnLattice, storage_of};
ghost use Rattle.covers.specs.Bounds.{Covers};
ghost use Rattle.covers.specs.inside.Splits.{IsSplit};

use crate::bound::Bound;
use crate::lattice::Lattice;
use crate::node::Node;
use crate::ways::way_out;
use sd_base::NoMemory;
use std::alloc::Global;

/// The parts of a node that a bound doesn't cover: by way out those that take it and none before it. They share no vector, and
/// none has the node's least one. Cost: a copy of the node for each way.
pub(crate) fn split(
    alloc: Global,
    lattice: &Lattice,
    node: Node,
    storage: u64,
    bound: &Bound,
) -> Result<Vec<Node>, NoMemory>
    requires storage { storage ≡ storage_of lattice.now.axes node.lo.items }
    requires within { storage ≤ lattice.now.limit }
    requires covers { Covers bound.now node.lo.items }
    requires on { IsOnLattice lattice.now.axes node.lo.items }
    ensures { IfOk result (λ children. IsSplit lattice.now bound.now node children.items) }
{
    let mut rest = node;
    let mut children = Vec::new(alloc);
    for cap in bound.caps.as_slice() {
        if let Some(way) = way_out(lattice, &rest, storage, *cap) {
            let mut child = rest.copy(alloc)?;
            child.go(way);
            children.push(child)?;
        }
        rest.stay(*cap);
    }
    Ok(children)
}
