ghost use Rattle.std.specs.Prelude.{◌≡◌, ◌↔◌, ◌+◌, ◌≤◌, ◌<◌, ℕ, IsTrue, map, drop, length, slice_index_or};
ghost use Rattle.pareto_front.specs.Offers.{Covers, IsCoveredBy, is_slower};
ghost use Rattle.pareto_front.specs.Points.{left_points, offer_of};
ghost use Rattle.pareto_front.specs.declared.point.Point.{Point as APoint};

use crate::point::Point;
use std::cmp::Ordering;

/// Whether a point has no more storage and no less rate than another and, where both are equal, no later capacities.
fn covers(point: &Point, other: &Point) -> bool
    ensures { IsTrue result ↔ Covers (offer_of point.now) (offer_of other.now) }
{
    if point.total > other.total {
        return false;
    }
    match point.rate.compare(&other.rate) {
        Ordering::Less => false,
        Ordering::Greater => true,
        Ordering::Equal => {
            point.total < other.total || point.capacities.is_no_later(&other.capacities)
        }
    }
}

/// Whether one of the points covers another one.
pub(crate) fn is_covered(points: &[Point], other: &Point) -> bool
    ensures { IsTrue result ↔ IsCoveredBy (map offer_of points.now) (offer_of other.now) }
{
    for point in points {
        if covers(point, other) {
            return true;
        }
    }
    false
}

/// The number of the first point with at least so much storage, or of points.
pub(crate) fn place_of(points: &[Point], total: u64) -> usize
    ensures within { result ≤ length points.now }
    ensures below { (k : ℕ) (d : APoint) → k < result → (slice_index_or points.now k d).total < total }
    ensures here { (d : APoint) → result < length points.now → total ≤ (slice_index_or points.now result d).total }
{
    for place in 0..points.len() {
        if points[place].total >= total {
            return place;
        }
    }
    points.len()
}

/// The number of the first point from a place on with a greater rate than another one, or of points.
pub(crate) fn first_faster(points: &[Point], from: usize, other: &Point) -> usize
    requires { from ≤ length points.now }
    ensures after { from ≤ result }
    ensures within { result ≤ length points.now }
    ensures left { left_points other.now (drop from points.now) ≡ drop result points.now }
{
    for place in from..points.len() {
        if !is_no_faster(&points[place], other) {
            return place;
        }
    }
    points.len()
}

/// Whether a point has no more rate than another one.
fn is_no_faster(point: &Point, other: &Point) -> bool
    ensures { result ≡ is_slower (offer_of point.now) (offer_of other.now) }
{
    match point.rate.compare(&other.rate) {
        Ordering::Less | Ordering::Equal => true,
        Ordering::Greater => false,
    }
}
