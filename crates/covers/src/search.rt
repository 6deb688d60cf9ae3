ghost use Rattle.std.specs.Prelude.{◌≡◌, ◌⊎◌, ◌∷◌, ◌++◌, [], IfOk, OnErr, OnOk, map};
ghost use Rattle.covers.specs.Bounds.{IsAtMost};
ghost use Rattle.covers.specs.Searches.{IsAnswer, IsFirst, IsSame, IsSearched};
ghost use Rattle.covers.specs.inside.Keeping.{IsRoot};

use crate::acting::acting_with;
use crate::bound::Bound;
use crate::lattice::Lattice;
use crate::node::Node;
use sd_base::{Fraction, NoMemory, Rows};
use std::alloc::Global;
use std::cmp::Ordering;
use std::collections::BTreeSet;

/// In which order a search looks for what no bound in force covers.
#[derive(Clone, Copy)]
pub enum Order {
    /// By the storage needed.
    Storage,
    /// By the capacities, channel by channel.
    Lexicographic,
}

/// A search for the capacities of a lattice that no bound in force covers. A bound is in force where its rate is at most the
/// best one that was reached. One that another in force dominates, which covers all that it does, is left out: only the others
/// act. Open nodes share no vector, so there are never more of them than vectors of the lattice; each takes 16 bytes a channel.
/// After want of memory a search is of no use.
#[derive(Drop)]
pub struct Search {
    pub(crate) lattice: Lattice,
    pub(crate) order: Order,
    pub(crate) bounds: Vec<Bound>,
    pub(crate) acting: Vec<usize>,
    pub(crate) best: Fraction,
    pub(crate) open: BTreeSet<Node>,
}

/// Capacities of the least storage that no bound in force covers, each by bounded channel.
#[derive(Drop)]
pub struct Level {
    pub storage: u64,
    pub vectors: Rows<Rows<u64>>,
}

impl Search {
    /// A search that knows no bound; the best rate is 0.
    pub fn new(alloc: Global, lattice: Lattice, order: Order) -> Result<Search, NoMemory>
        ensures searched { IfOk result IsSearched }
        ensures lattice { IfOk result (λ s. s.lattice ≡ lattice) }
        ensures order { IfOk result (λ s. s.order ≡ order) }
        ensures bounds { IfOk result (λ s. s.bounds.items ≡ []) }
        ensures best { IfOk result (λ s. s.best.num ≡ 0) }
    {
        let root = root(alloc, &lattice)?;
        let mut open = BTreeSet::new(alloc);
        open.insert(root)?;
        Ok(Search {
            lattice,
            order,
            bounds: Vec::new(alloc),
            acting: Vec::new(alloc),
            best: Fraction::new(0, 1),
            open,
        })
    }

    /// Keeps a bound. One whose rate was reached before leaves out those that it dominates. Cost: a pass over the bounds that act,
    /// and at each one over the channels of both at most.
    pub fn add(&mut self, bound: Bound) -> Result<(), NoMemory>
        requires searched { IsSearched self.old }
        ensures searched { IsSearched self.new }
        ensures added { OnOk result (self.new.bounds.items ≡ self.old.bounds.items ++ bound ∷ []) }
        ensures failed { OnErr result (self.new.bounds.items ≡ self.old.bounds.items) }
        ensures lattice { self.new.lattice ≡ self.old.lattice }
        ensures order { self.new.order ≡ self.old.order }
        ensures best { self.new.best ≡ self.old.best }
    {
        let acting = acting_with(
            *self.bounds.allocator(),
            self.bounds.as_slice(),
            &self.best,
            self.acting.as_slice(),
            &bound,
        )?;
        self.bounds.push(bound)?;
        self.acting = acting;
        Ok(())
    }

    /// Takes a rate that was reached for the best one, if it is greater.
    pub fn reach(&mut self, rate: Fraction)
        requires searched { IsSearched self.old }
        ensures searched { IsSearched self.new }
        ensures reached { IsAtMost rate self.new.best }
        ensures kept { IsAtMost self.old.best self.new.best }
        ensures either { (self.new.best ≡ self.old.best) ⊎ (self.new.best ≡ rate) }
        ensures lattice { self.new.lattice ≡ self.old.lattice }
        ensures order { self.new.order ≡ self.old.order }
        ensures bounds { self.new.bounds ≡ self.old.bounds }
    {
        if matches!(self.best.compare(&rate), Ordering::Less) {
            self.best = rate;
        }
    }

    /// The capacities of the least storage that no bound in force covers: the lexicographically first ones, at most `most` but
    /// at least one; none where all of the lattice is covered. Cost: a node that is looked at costs a pass over the bounds that
    /// act, and at most as many are looked at as there are vectors between the corner and the limit, each with each storage; in
    /// the field a small part of them.
    pub fn level(&mut self, alloc: Global, most: usize) -> Result<Option<Level>, NoMemory>
        requires searched { IsSearched self.old }
        requires by_storage { self.old.order ≡ Order.Storage }
        ensures searched { OnOk result (IsSearched self.new) }
        ensures answer { IfOk result (IsAnswer self.new most) }
        ensures same { IsSame self.old self.new }
    {
        let Some(first) = self.next(alloc, self.lattice.limit)? else {
            return Ok(None);
        };
        let storage = first.least;
        let mut found = Vec::new(alloc);
        found.push(first)?;
        self.gather(alloc, storage, most, &mut found)?;
        let vectors = vectors_of(alloc, found.as_slice())?;
        self.open_all(found)?;
        Ok(Some(Level { storage, vectors }))
    }

    /// The lexicographically first capacities that no bound in force covers. Cost: that of `level`.
    pub fn first(&mut self, alloc: Global) -> Result<Option<Rows<u64>>, NoMemory>
        requires searched { IsSearched self.old }
        requires by_vectors { self.old.order ≡ Order.Lexicographic }
        ensures searched { OnOk result (IsSearched self.new) }
        ensures first { IfOk result (IsFirst self.new) }
        ensures same { IsSame self.old self.new }
    {
        let Some(node) = self.next(alloc, self.lattice.limit)? else {
            return Ok(None);
        };
        let vector = Rows::from_vec(node.lo.as_slice().to_vec(alloc)?);
        self.open_one(node)?;
        Ok(Some(vector))
    }
}

/// The node that stands for all of the lattice.
fn root(alloc: Global, lattice: &Lattice) -> Result<Node, NoMemory>
    ensures { IfOk result (IsRoot lattice.now) }
{
    let mut lo = Vec::new(alloc);
    let mut hi = Vec::new(alloc);
    for axis in lattice.axes.as_slice() {
        lo.push(axis.corner)?;
        hi.push(lattice.limit / axis.size)?;
    }
    Ok(Node { lo, hi, least: 0 })
}

/// What the nodes begin with.
fn vectors_of(alloc: Global, nodes: &[Node]) -> Result<Rows<Rows<u64>>, NoMemory>
    ensures { IfOk result (λ vectors. vectors ≡ map (λ n. n.lo.items) nodes.now) }
{
    let mut vectors = Rows::new(alloc);
    for node in nodes {
        vectors.push(Rows::from_vec(node.lo.as_slice().to_vec(alloc)?))?;
    }
    Ok(vectors)
}
