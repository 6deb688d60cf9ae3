ghost use Rattle.std.specs.Prelude.{◌≡◌, ◌+◌, ◌≤◌, ◌<◌, ◌++◌, ℕ, List, [], ◌∷◌, IfErr, OnErr, OnOk, MatchOption, map, take, drop, length, slice_index_or, vec_len};
ghost use Rattle.pareto_front.specs.Offers.{Offer};
ghost use Rattle.pareto_front.specs.Points.{IsFrontOf, IsOffered, offer_of};
ghost use Rattle.pareto_front.specs.declared.point.Point.{Point as APoint};

use crate::covers::{first_faster, is_covered, place_of};
use crate::point::Point;
use sd_base::NoMemory;
use std::alloc::Global;
use std::marker::Model;

/// The Pareto points of those that were offered: by rising storage, each with more rate than all before it. Of several of
/// one storage and rate it has the one of lexicographically least capacities.
#[derive(Debug, Drop)]
pub struct Front {
    points: Vec<Point>,
}

impl Model for Front {
    ghost use Rattle.std.specs.Prelude.{List};
    ghost use Rattle.pareto_front.specs.declared.point.Point.{Point};

    ghost Value = { List Point };

    ghost view = { λ f. f.points.items };
}

impl Front {
    /// A front to which nothing was offered.
    pub fn new(alloc: Global) -> Front
        ensures points { result ≡ [] }
        ensures front { IsFrontOf [] (map offer_of result) }
    {
        Front {
            points: Vec::new(alloc),
        }
    }

    /// Takes a point in if none covers it, and leaves out what it covers. Cost: linear in the points.
    pub fn offer(&mut self, point: Point) -> Result<(), NoMemory>
        requires { 1 ≤ point.rate.num }
        ensures offered { OnOk result (IsOffered point self.old self.new) }
        ensures front { OnOk result ((os : List Offer) → IsFrontOf os (map offer_of self.old) → IsFrontOf (os ++ offer_of point ∷ []) (map offer_of self.new)) }
        ensures err { OnErr result (self.new ≡ self.old) }
    {
        put_in(&mut self.points, point)
    }

    /// The points, by rising storage and rate.
    pub fn points(&self) -> &[Point]
        ensures { result.now ≡ self.now }
    {
        self.points.as_slice()
    }

    /// The point of most storage and rate within a storage, if there is one. Cost: linear in the points.
    pub fn best_within(&self, total: u64) -> Option<&Point>
        ensures { MatchOption result ((k : ℕ) (d : APoint) → k < length self.now → total < (slice_index_or self.now k d).total)
            (λ p. (k : ℕ) × (k < length self.now) × (p.now ≡ slice_index_or self.now k p.now) × (p.now.total ≤ total)
            × ((j : ℕ) (d : APoint) → k < j → j < length self.now → total < (slice_index_or self.now j d).total)) }
    {
        let end = end_within(self.points.as_slice(), total);
        if end == 0 {
            None
        } else {
            Some(&self.points[end - 1])
        }
    }

    /// Hands the points out, without memory.
    pub fn into_points(self) -> Vec<Point>
        ensures { result.items ≡ self }
    {
        let Front { points } = self;
        points
    }
}

/// Takes a point in if none covers it, and removes what it covers.
fn put_in(points: &mut Vec<Point>, point: Point) -> Result<(), NoMemory>
    ensures offered { OnOk result (IsOffered point points.old.items points.new.items) }
    ensures front { OnOk result ((os : List Offer) → IsFrontOf os (map offer_of points.old.items) → IsFrontOf (os ++ offer_of point ∷ []) (map offer_of points.new.items)) }
    ensures err { OnErr result (points.new.items ≡ points.old.items) }
{
    if is_covered(points.as_slice(), &point) {
        return Ok(());
    }
    let place = place_of(points.as_slice(), point.total);
    let end = first_faster(points.as_slice(), place, &point);
    points.insert(place, point)?;
    remove_between(points, place + 1, end + 1);
    Ok(())
}

/// Removes the points from one place up to another.
fn remove_between(points: &mut Vec<Point>, from: usize, to: usize)
    requires order { from ≤ to }
    requires within { to ≤ vec_len points.old }
    ensures { points.new.items ≡ take from points.old.items ++ drop to points.old.items }
{
    for _removed in from..to {
        points.remove(from);
    }
}

/// One more than the number of the last point within a storage, or 0.
fn end_within(points: &[Point], total: u64) -> usize
    ensures end { result ≤ length points.now }
    ensures last { (k : ℕ) (d : APoint) → k + 1 ≡ result → (slice_index_or points.now k d).total ≤ total }
    ensures past { (k : ℕ) (d : APoint) → result ≤ k → k < length points.now → total < (slice_index_or points.now k d).total }
{
    let mut end = 0;
    for place in 0..points.len() {
        if points[place].total <= total {
            end = place + 1;
        }
    }
    end
}
