//! The least storage of what no bound in force covers, from below.
ghost use Rattle.std.specs.Prelude.{◌≡◌, ◌≤◌, ◌<◌, All, IfOk, IsTrue, false, length, slice_index_or, slice_set, true};
ghost use Rattle.std.specs.Bool.{OnFalse, OnTrue};
ghost use Rattle.covers.specs.Lattices.{storage_of};
ghost use Rattle.covers.specs.inside.Surveys.{IsLeast, IsTollAt};
ghost use Rattle.covers.specs.inside.Ways.{StaysWithin};
ghost use Rattle.covers.specs.inside.Taken.{AreApart, AreTaken};

use crate::bound::{Bound, Cap};
use crate::lattice::Lattice;
use crate::node::Node;
use crate::survey::Toll;
use crate::ways::way_out;
use sd_base::{Fraction, NoMemory};
use std::alloc::Global;

/// What a node's least vector needs, and over bounds that share no way out the cheapest way out of each, in the order of the
/// tolls. Cost: linear in the tolls and in the channels of their bounds.
pub(crate) fn least(
    alloc: Global,
    lattice: &Lattice,
    bounds: &[Bound],
    best: &Fraction,
    node: &Node,
    storage: u64,
    tolls: &[Toll],
) -> Result<u64, NoMemory>
    requires storage { storage ≡ storage_of lattice.now.axes node.now.lo.items }
    requires within { storage ≤ lattice.now.limit }
    requires long { length node.now.lo.items ≡ length lattice.now.axes }
    requires tolls { All (IsTollAt lattice.now bounds.now best.now node.now) tolls.now }
    ensures { IfOk result (IsLeast lattice.now bounds.now best.now node.now) }
{
    let mut marks = vec![in alloc; false; node.lo.len()]?;
    let taken = marks.as_mut_slice();
    let mut least = storage;
    for toll in tolls {
        let bound = &bounds[toll.place];
        if is_apart(lattice, node, storage, bound, taken) {
            take(lattice, node, storage, bound, taken);
            least = least.saturating_add(toll.cost);
        }
    }
    Ok(least)
}

/// Whether no way out of the bound is on a channel that is taken.
fn is_apart(lattice: &Lattice, node: &Node, storage: u64, bound: &Bound, taken: &[bool]) -> bool
    requires storage { storage ≡ storage_of lattice.now.axes node.now.lo.items }
    requires within { storage ≤ lattice.now.limit }
    ensures { IsTrue result → AreApart lattice.now node.now taken.now bound.now.caps }
{
    for cap in bound.caps.as_slice() {
        if is_taken(taken, cap.channel) && has_way(lattice, node, storage, *cap) {
            return false;
        }
    }
    true
}

/// Takes the channels on which the bound has a way out.
fn take(lattice: &Lattice, node: &Node, storage: u64, bound: &Bound, taken: &mut [bool])
    requires storage { storage ≡ storage_of lattice.now.axes node.now.lo.items }
    requires within { storage ≤ lattice.now.limit }
    requires long { length taken.old ≡ length lattice.now.axes }
    ensures { AreTaken lattice.now node.now bound.now.caps taken.old taken.new }
{
    for cap in bound.caps.as_slice() {
        if has_way(lattice, node, storage, *cap) {
            mark(taken, cap.channel);
        }
    }
}

/// Whether a bound has a way out on one of its channels.
fn has_way(lattice: &Lattice, node: &Node, storage: u64, cap: Cap) -> bool
    requires storage { storage ≡ storage_of lattice.now.axes node.now.lo.items }
    requires within { storage ≤ lattice.now.limit }
    ensures none { OnFalse result (StaysWithin lattice.now node.now cap) }
    ensures some { OnTrue result (cap.channel < length lattice.now.axes) }
{
    match way_out(lattice, node, storage, cap) {
        Some(_) => true,
        None => false,
    }
}

/// Whether a channel is taken; one past the end isn't.
fn is_taken(taken: &[bool], channel: u32) -> bool
    ensures { result ≡ slice_index_or taken.now channel false }
{
    let place = channel as usize;
    place < taken.len() && taken[place]
}

/// Takes a channel, if there is one of that place.
fn mark(taken: &mut [bool], channel: u32)
    ensures { taken.new ≡ slice_set taken.old channel true }
{
    let place = channel as usize;
    if place < taken.len() {
        taken[place] = true;
    }
}
