//! The ways out of a bound: what of a node it doesn't cover has more room on one of its channels.
ghost use Rattle.std.specs.Prelude.{◌≡◌, ◌≤◌, ◌<◌, MatchOption, length, slice_index_or};
ghost use Rattle.covers.specs.Lattices.{storage_of};
ghost use Rattle.covers.specs.Bounds.{Covers};
ghost use Rattle.covers.specs.inside.Ways.{AreWays, IsWayOut, IsWith, StaysWithin};

use crate::bound::{Bound, Cap};
use crate::lattice::{Axis, Lattice};
use crate::node::Node;
use crate::vectors::{capacity_at, product_within};

/// A channel, the least capacity on it that a bound doesn't cover, and the storage that this adds.
#[derive(Clone, Copy)]
pub(crate) struct Way {
    pub(crate) channel: u32,
    pub(crate) capacity: u64,
    pub(crate) cost: u64,
}

/// The ways out of a bound: none, the only one, or how many and the least cost of them.
#[derive(Clone, Copy)]
pub(crate) enum Ways {
    Nowhere,
    One(Way),
    Several { number: usize, cost: u64 },
}

impl Ways {
    /// With one way more.
    fn with(self, way: Way) -> Ways
        ensures { IsWith self way result }
    {
        match self {
            Ways::Nowhere => Ways::One(way),
            Ways::One(first) => Ways::Several {
                number: 2,
                cost: first.cost.min(way.cost),
            },
            Ways::Several { number, cost } => Ways::Several {
                number: number.saturating_add(1),
                cost: cost.min(way.cost),
            },
        }
    }
}

/// The ways out of a bound that covers what a node begins with, as far as they are in the node and within the limit. Cost:
/// linear in the channels that the bound names.
pub(crate) fn ways_out(lattice: &Lattice, node: &Node, storage: u64, bound: &Bound) -> Ways
    requires storage { storage ≡ storage_of lattice.now.axes node.now.lo.items }
    requires within { storage ≤ lattice.now.limit }
    requires covers { Covers bound.now node.now.lo.items }
    ensures { AreWays lattice.now node.now bound.now.caps result }
{
    let mut ways = Ways::Nowhere;
    for cap in bound.caps.as_slice() {
        if let Some(way) = way_out(lattice, node, storage, *cap) {
            ways = ways.with(way);
        }
    }
    ways
}

/// The way out of a bound on one of its channels, if it is in the node and within the limit.
pub(crate) fn way_out(lattice: &Lattice, node: &Node, storage: u64, cap: Cap) -> Option<Way>
    requires storage { storage ≡ storage_of lattice.now.axes node.now.lo.items }
    requires within { storage ≤ lattice.now.limit }
    ensures { MatchOption result (StaysWithin lattice.now node.now cap) (IsWayOut lattice.now node.now cap) }
{
    let Some(axis) = axis_of(lattice, cap.channel) else {
        return None;
    };
    let high = capacity_at(node.hi.as_slice(), cap.channel);
    let Some(capacity) = axis.next(cap.capacity, high) else {
        return None;
    };
    let low = capacity_at(node.lo.as_slice(), cap.channel);
    let more = capacity.saturating_sub(low);
    let Some(cost) = product_within(more, axis.size, lattice.limit - storage) else {
        return None;
    };
    Some(Way {
        channel: cap.channel,
        capacity,
        cost,
    })
}

/// The axis of a channel, if it has one.
fn axis_of(lattice: &Lattice, channel: u32) -> Option<Axis>
    ensures { MatchOption result (length lattice.now.axes ≤ channel) (λ a. (channel < length lattice.now.axes) × (a ≡ slice_index_or lattice.now.axes channel a)) }
{
    let axes = lattice.axes.as_slice();
    let place = channel as usize;
    if place < axes.len() {
        Some(axes[place])
    } else {
        None
    }
}
