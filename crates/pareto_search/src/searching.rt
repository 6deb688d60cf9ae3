//! Where a search for the Pareto points stands.
ghost use Rattle.std.specs.Prelude.{◌≡◌, ◌+◌, ◌≤◌, ◌<◌, ◌↔◌, IsTrue, OnOk, length};
ghost use Rattle.pareto_search.specs.inside.Grounds.{IsGround};
ghost use Rattle.pareto_search.specs.inside.Knowledge.{IsAbove};
ghost use Rattle.pareto_search.specs.inside.Turns.{IsAbsorbed, IsDueWith, IsOnward, IsStanding, greatest_of};

use crate::evaluating::Ground;
use crate::known::Known;
use crate::learning::bound_of;
use covers::Search;
use firing::Firing;
use pareto_front::Point;
use sd_base::{Fraction, NoMemory};
use std::cmp::Ordering;

/// The storage at which the greatest rate so far was reached, and that rate, where it is above that of the last point: then
/// it is the next point, if no distribution of this storage has a greater one.
#[derive(Clone, Copy)]
pub(crate) struct Due {
    pub(crate) total: u64,
    pub(crate) rate: Fraction,
}

/// The bounds of what was evaluated, what that told, the points so far, the rate of the last one, or 0, and what is due.
pub(crate) struct Searching {
    pub(crate) bounds: Search,
    pub(crate) known: Known,
    pub(crate) points: Vec<Point>,
    pub(crate) below: Fraction,
    pub(crate) due: Option<Due>,
}

// By hand, so that what drops one calls this, and does not drop each of its parts.
impl Drop for Searching {
    fn drop(self) {
        let Searching {
            bounds: _bounds,
            known: _known,
            points: _points,
            below: _below,
            due: _due,
        } = self;
    }
}

impl Searching {
    /// Keeps the bounds of the tellings from a place on; a greater rate than any before is due at this storage. Cost: linear in
    /// the channels that they show.
    pub(crate) fn absorb<F: Firing>(
        &mut self,
        base: &Ground<F>,
        from: usize,
        total: u64,
    ) -> Result<(), NoMemory>
        requires stands { IsGround (F.net base.now.exploring.now.net.now) base.now.exploring.now.limits base.now.corner.now.capacities base.now.lattice.now }
        requires from { from ≤ length self.old.known.tellings.items }
        requires absorbed { IsAbsorbed (F.net base.now.exploring.now.net.now) base.now.exploring.now.limits base.now.corner.now.capacities base.now.lattice.now total from self.old }
        ensures standing { OnOk result (IsStanding (F.net base.now.exploring.now.net.now) base.now.exploring.now.limits base.now.corner.now.capacities base.now.lattice.now total self.new) }
        ensures onward { OnOk result (IsOnward base.now.lattice.now total self.old self.new) }
        ensures known { self.new.known ≡ self.old.known }
    {
        for place in from..self.known.tellings.len() {
            self.absorb_one(base, place, total)?;
        }
        Ok(())
    }

    /// Keeps the bound of a telling.
    fn absorb_one<F: Firing>(
        &mut self,
        base: &Ground<F>,
        place: usize,
        total: u64,
    ) -> Result<(), NoMemory>
        requires stands { IsGround (F.net base.now.exploring.now.net.now) base.now.exploring.now.limits base.now.corner.now.capacities base.now.lattice.now }
        requires place { place < length self.old.known.tellings.items }
        requires absorbed { IsAbsorbed (F.net base.now.exploring.now.net.now) base.now.exploring.now.limits base.now.corner.now.capacities base.now.lattice.now total place self.old }
        ensures absorbed { OnOk result (IsAbsorbed (F.net base.now.exploring.now.net.now) base.now.exploring.now.limits base.now.corner.now.capacities base.now.lattice.now total (place + 1) self.new) }
        ensures onward { OnOk result (IsOnward base.now.lattice.now total self.old self.new) }
        ensures known { self.new.known ≡ self.old.known }
    {
        let telling = &self.known.tellings[place];
        let rate = telling.rate;
        let bound = bound_of(base.exploring.alloc, telling)?;
        self.bounds.add(bound)?;
        self.bounds.reach(rate);
        self.due = self.due_with(rate, total);
        Ok(())
    }

    /// What is due where a rate was reached at this storage.
    fn due_with(&self, rate: Fraction, total: u64) -> Option<Due>
        ensures { IsDueWith self.now.due self.now.below rate total result }
    {
        if is_above(rate, self.greatest()) {
            Some(Due { total, rate })
        } else {
            self.due
        }
    }

    /// The greatest rate so far.
    pub(crate) fn greatest(&self) -> Fraction
        ensures { result ≡ greatest_of self.now.due self.now.below }
    {
        match self.due {
            Some(due) => due.rate,
            None => self.below,
        }
    }

    /// The points.
    pub(crate) fn into_points(self) -> Vec<Point>
        ensures { result ≡ self.points }
    {
        let Searching {
            bounds: _bounds,
            known: _known,
            points,
            below: _below,
            due: _due,
        } = self;
        points
    }
}

/// Whether a rate is above another.
pub(crate) fn is_above(rate: Fraction, other: Fraction) -> bool
    ensures { IsTrue result ↔ IsAbove rate other }
{
    matches!(rate.compare(&other), Ordering::Greater)
}
