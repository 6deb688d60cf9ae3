ghost use Rattle.std.specs.Prelude.{◌≡◌, IfOk, min, slice_index, slice_set};
ghost use Rattle.std.specs.Cmp.{partial_equiv_from_equiv, po, eq_by_cmp_equiv};
ghost use Rattle.std.specs.Ordering.{eq_by_cmp, as_partial_cmp};
ghost use Rattle.std.proofs.Common.{refl};
ghost use Rattle.covers.specs.inside.NodeOrder.{node_cmp, node_total, vectors_cmp};

use crate::bound::Cap;
use crate::vectors::{capacity_at, set_capacity};
use crate::ways::Way;
use sd_base::NoMemory;
use std::alloc::Global;
use std::cmp::Ordering;

/// All capacities between two vectors, of which those that no bound in force covers need at least some storage. Nodes are
/// ordered by that storage, and then by the vectors.
#[derive(Drop)]
pub struct Node {
    /// By bounded channel the least capacity, in tokens.
    pub lo: Vec<u64>,
    /// By bounded channel the greatest capacity, in tokens.
    pub hi: Vec<u64>,
    pub least: u64,
}

impl Node {
    /// The same again. Cost: linear in the channels.
    pub(crate) fn copy(&self, alloc: Global) -> Result<Node, NoMemory>
        ensures lo { IfOk result (λ n. n.lo.items ≡ self.now.lo.items) }
        ensures hi { IfOk result (λ n. n.hi.items ≡ self.now.hi.items) }
        ensures least { IfOk result (λ n. n.least ≡ self.now.least) }
    {
        Ok(Node {
            lo: self.lo.as_slice().to_vec(alloc)?,
            hi: self.hi.as_slice().to_vec(alloc)?,
            least: self.least,
        })
    }

    /// Leaves only what takes the way.
    pub(crate) fn go(&mut self, way: Way)
        ensures lo { self.new.lo.items ≡ slice_set self.old.lo.items way.channel way.capacity }
        ensures hi { self.new.hi ≡ self.old.hi }
        ensures least { self.new.least ≡ self.old.least }
    {
        set_capacity(self.lo.as_mut_slice(), way.channel, way.capacity);
    }

    /// Leaves only what has at most the cap's capacity on its channel.
    pub(crate) fn stay(&mut self, cap: Cap)
        ensures lo { self.new.lo ≡ self.old.lo }
        ensures hi { self.new.hi.items ≡ slice_set self.old.hi.items cap.channel (min (slice_index self.old.hi.items cap.channel) cap.capacity) }
        ensures least { self.new.least ≡ self.old.least }
    {
        let high = capacity_at(self.hi.as_slice(), cap.channel);
        set_capacity(self.hi.as_mut_slice(), cap.channel, high.min(cap.capacity));
    }
}

impl PartialEq for Node {
    ghost eq = { eq_by_cmp node_cmp };

    ghost laws = { partial_equiv_from_equiv (eq_by_cmp_equiv node_total) };

    fn eq(&self, other: &Node) -> bool {
        matches!(compare(self, other), Ordering::Equal)
    }
}

impl Eq for Node {
    ghost laws = { eq_by_cmp_equiv node_total };
}

impl PartialOrd for Node {
    ghost partial_cmp = { as_partial_cmp node_cmp };

    ghost laws = { po node_total (λ x y. refl) };

    fn partial_cmp(&self, other: &Node) -> Option<Ordering> {
        Some(compare(self, other))
    }
}

impl Ord for Node {
    ghost cmp = { node_cmp };

    ghost total = { node_total };

    ghost matches_partial_cmp = { λ x y. refl };

    ghost matches_eq = { λ x y. refl };

    fn cmp(&self, other: &Node) -> Ordering {
        compare(self, other)
    }
}

/// The order of two nodes.
fn compare(first: &Node, second: &Node) -> Ordering
    ensures { result ≡ node_cmp first.now second.now }
{
    match first.least.cmp(&second.least) {
        Ordering::Equal => compare_vectors(first, second),
        apart => apart,
    }
}

/// The lexicographic order of the vectors of two nodes.
fn compare_vectors(first: &Node, second: &Node) -> Ordering
    ensures { result ≡ vectors_cmp first.now second.now }
{
    match first.lo.as_slice().cmp(second.lo.as_slice()) {
        Ordering::Equal => first.hi.as_slice().cmp(second.hi.as_slice()),
        apart => apart,
    }
}
