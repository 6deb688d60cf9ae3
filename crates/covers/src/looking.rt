//! A search looks at its open nodes, one by one: each is closed, narrowed, raised or split, or what it begins with is found to
//! be covered by no bound in force.
ghost use Rattle.std.specs.Prelude.{◌≡◌, ◌≢◌, ◌≤◌, ◌<◌, ◌∷◌, ◌++◌, [], ◌⊎◌, All, Contains, IfOk, IsPermutation, MatchOption, OnOk, Some, length, slice_index_or};
ghost use Rattle.std.specs.BTreeSet.{insert_key};
ghost use Rattle.covers.specs.Bounds.{AreEnough};
ghost use Rattle.covers.specs.Lattices.{storage_of};
ghost use Rattle.covers.specs.Nodes.{IsProper};
ghost use Rattle.covers.specs.Searches.{IsSame};
ghost use Rattle.covers.specs.inside.Keeping.{IsBranched, IsGathered, IsKept, IsLooked, IsNext, IsRank, IsTakenOff, put_all};
ghost use Rattle.covers.specs.inside.NodeOrder.{node_cmp};
ghost use Rattle.covers.specs.inside.Rooms.{weight_of};
ghost use Rattle.covers.specs.inside.Surveys.{AreTolls, HoldsAt, IsNarrowing};

use crate::least::least;
use crate::node::Node;
use crate::search::{Order, Search};
use crate::split::split;
use crate::survey::{Survey, Toll, survey_node};
use crate::vectors::storage_within;
use crate::ways::Way;
use sd_base::NoMemory;
use std::alloc::Global;
use std::cmp::Reverse;

impl Search {
    /// Adds to the nodes that were found those whose least is at most the total, until there are so many.
    pub(crate) fn gather(
        &mut self,
        alloc: Global,
        total: u64,
        most: usize,
        found: &mut Vec<Node>,
    ) -> Result<(), NoMemory>
        requires proper { All (IsProper self.old.lattice self.old.order) self.old.open.keys }
        requires enough { AreEnough self.old.bounds.items self.old.best self.old.acting.items }
        requires total { total ≤ self.old.lattice.limit }
        ensures gathered { OnOk result (IsGathered self.old total most found.old.items found.new.items self.new) }
        ensures same { IsSame self.old self.new }
    {
        'gather: while found.len() < most {
            let Some(node) = self.next(alloc, total)? else {
                return Ok(());
            };
            found.push(node)?;
        }
        Ok(())
    }

    /// Takes off the first open node of a least of at most `total` that begins with what no bound in force covers.
    pub(crate) fn next(&mut self, alloc: Global, total: u64) -> Result<Option<Node>, NoMemory>
        requires proper { All (IsProper self.old.lattice self.old.order) self.old.open.keys }
        requires enough { AreEnough self.old.bounds.items self.old.best self.old.acting.items }
        requires total { total ≤ self.old.lattice.limit }
        ensures next { IfOk result (IsNext self.old total self.new) }
        ensures same { IsSame self.old self.new }
    {
        while let Some(node) = self.take(total) {
            if let Some(found) = self.look(alloc, node)? {
                return Ok(Some(found));
            }
        }
        Ok(None)
    }

    /// Takes off the first open node, if its least is at most `total`.
    fn take(&mut self, total: u64) -> Option<Node>
        ensures taken { IsTakenOff self.old.open.keys total self.new.open.keys result }
        ensures same { IsSame self.old self.new }
    {
        let least = match self.open.first() {
            Some(first) => first.least,
            None => return None,
        };
        if least > total {
            return None;
        }
        self.open.pop_first()
    }

    /// Looks at a node that was taken off: gives it back where no bound in force covers what it begins with; else what is left
    /// of it is open.
    fn look(&mut self, alloc: Global, node: Node) -> Result<Option<Node>, NoMemory>
        requires proper { IsProper self.old.lattice self.old.order node }
        requires least { node.least ≤ self.old.lattice.limit }
        requires enough { AreEnough self.old.bounds.items self.old.best self.old.acting.items }
        ensures looked { IfOk result (IsLooked self.old node self.new) }
        ensures same { IsSame self.old self.new }
    {
        let Some(storage) = storage_within(&self.lattice, node.lo.as_slice()) else {
            return Ok(None);
        };
        let rank = self.rank(storage);
        if rank > node.least {
            self.raise(node, rank)?;
            return Ok(None);
        }
        match survey_node(
            alloc,
            &self.lattice,
            self.bounds.as_slice(),
            self.acting.as_slice(),
            &self.best,
            &node,
            storage,
        )? {
            Survey::Closed => Ok(None),
            Survey::Narrow(way) => {
                self.narrow(node, way)?;
                Ok(None)
            }
            Survey::Tolls(tolls) => self.branch(alloc, node, storage, tolls),
        }
    }

    /// What a node is known to need at least, as far as the order asks for it.
    fn rank(&self, storage: u64) -> u64
        ensures { IsRank self.now.order storage result }
    {
        match self.order {
            Order::Storage => storage,
            Order::Lexicographic => 0,
        }
    }

    /// Gives the node back where there is no toll; else splits it along the bound with the fewest ways out, or puts it back
    /// with what the tolls say that it needs.
    fn branch(
        &mut self,
        alloc: Global,
        node: Node,
        storage: u64,
        tolls: Vec<Toll>,
    ) -> Result<Option<Node>, NoMemory>
        requires proper { IsProper self.old.lattice self.old.order node }
        requires least { node.least ≤ self.old.lattice.limit }
        requires storage { storage ≡ storage_of self.old.lattice.axes node.lo.items }
        requires within { storage ≤ self.old.lattice.limit }
        requires raised { self.old.order ≡ Order.Storage → storage ≤ node.least }
        requires enough { AreEnough self.old.bounds.items self.old.best self.old.acting.items }
        requires tolls { AreTolls self.old.lattice self.old.bounds.items self.old.best node self.old.acting.items tolls.items }
        ensures looked { IfOk result (IsLooked self.old node self.new) }
        ensures same { IsSame self.old self.new }
    {
        let mut tolls = tolls;
        let Some(few) = fewest(tolls.as_slice()) else {
            return Ok(Some(node));
        };
        dearest_first(&mut tolls)?;
        let least = least(
            alloc,
            &self.lattice,
            self.bounds.as_slice(),
            &self.best,
            &node,
            storage,
            tolls.as_slice(),
        )?;
        if least > self.lattice.limit {
            return Ok(None);
        }
        let rank = self.rank(least);
        if rank > node.least {
            self.raise(node, rank)?;
        } else {
            self.part(alloc, node, storage, few.place)?;
        }
        Ok(None)
    }

    /// Puts a node back that needs so much storage.
    fn raise(&mut self, node: Node, least: u64) -> Result<(), NoMemory>
        ensures opened { OnOk result (self.new.open.keys ≡ insert_key node_cmp self.old.open.keys (record node { least = least })) }
        ensures same { IsSame self.old self.new }
    {
        let mut node = node;
        node.least = least;
        self.open.insert(node)?;
        Ok(())
    }

    /// Puts back what of a node takes the way.
    fn narrow(&mut self, node: Node, way: Way) -> Result<(), NoMemory>
        requires proper { IsProper self.old.lattice self.old.order node }
        requires least { node.least ≤ self.old.lattice.limit }
        requires way { IsNarrowing self.old.lattice self.old.bounds.items self.old.best node way }
        ensures looked { OnOk result (IsBranched self.old node self.new) }
        ensures same { IsSame self.old self.new }
    {
        let mut node = node;
        node.go(way);
        self.open.insert(node)?;
        Ok(())
    }

    /// Puts back the parts of a node that the bound at the place doesn't cover.
    fn part(
        &mut self,
        alloc: Global,
        node: Node,
        storage: u64,
        place: usize,
    ) -> Result<(), NoMemory>
        requires proper { IsProper self.old.lattice self.old.order node }
        requires least { node.least ≤ self.old.lattice.limit }
        requires storage { storage ≡ storage_of self.old.lattice.axes node.lo.items }
        requires within { storage ≤ self.old.lattice.limit }
        requires place { place < length self.old.bounds.items }
        requires holds { HoldsAt self.old.bounds.items self.old.best node place }
        ensures looked { OnOk result (IsBranched self.old node self.new) }
        ensures same { IsSame self.old self.new }
    {
        let children = split(alloc, &self.lattice, node, storage, &self.bounds[place])?;
        self.open_all(children)?;
        Ok(())
    }

    /// Puts nodes among those that are open.
    pub(crate) fn open_all(&mut self, nodes: Vec<Node>) -> Result<(), NoMemory>
        ensures opened { OnOk result (self.new.open.keys ≡ put_all nodes.items self.old.open.keys) }
        ensures same { IsSame self.old self.new }
    {
        for node in nodes {
            self.open.insert(node)?;
        }
        Ok(())
    }

    /// Puts a node among those that are open.
    pub(crate) fn open_one(&mut self, node: Node) -> Result<(), NoMemory>
        ensures opened { OnOk result (self.new.open.keys ≡ insert_key node_cmp self.old.open.keys node) }
        ensures same { IsSame self.old self.new }
    {
        self.open.insert(node)?;
        Ok(())
    }
}

/// Sorts tolls by their cost, the dearest first; equal ones keep their order.
fn dearest_first(tolls: &mut Vec<Toll>) -> Result<(), NoMemory>
    ensures { IsPermutation tolls.old.items tolls.new.items }
{
    tolls.sort_by_key(|toll| Reverse(toll.cost))?;
    Ok(())
}

/// The earliest toll with the fewest ways out, if there is any.
fn fewest(tolls: &[Toll]) -> Option<Toll>
    ensures { MatchOption result (length tolls.now ≡ 0) (Contains tolls.now) }
{
    let mut found = None;
    for toll in tolls {
        found = Some(fewer(found, *toll));
    }
    found
}

/// The earlier one, unless the other has fewer ways out.
fn fewer(found: Option<Toll>, other: Toll) -> Toll
    ensures { (result ≡ other) ⊎ (found ≡ Some result) }
{
    match found {
        Some(first) => {
            if other.ways < first.ways {
                other
            } else {
                first
            }
        }
        None => other,
    }
}
