//! Points by rising storage and rate, from distributions that come by rising storage.
ghost use Rattle.std.specs.Prelude.{◌*◌, ◌≤◌, All, MatchBool, OnOk};
ghost use Rattle.scenario_storage.specs.inside.Points.{AreEarlier, AreRising, AreSlower, EndsAt, HasNoSlower, IsLeftOut, IsSlower, IsTaken};

use crate::point::ScenarioPoint;
use sd_base::{Fraction, NoMemory};
use std::cmp::Ordering;

/// Takes in a point of no less storage than those so far, if its rate is above theirs: it stands last, in the place of the
/// last one if that has the same storage.
pub(crate) fn take_point(
    point: ScenarioPoint,
    points: &mut Vec<ScenarioPoint>,
) -> Result<(), NoMemory>
    requires rising { AreRising points.old.items }
    requires late { All (λ p. p.total ≤ point.total) points.old.items }
    ensures { OnOk result (IsTaken point points.old.items points.new.items) }
{
    if !is_above(point.rate, points.as_slice()) {
        return Ok(());
    }
    leave_out(point.total, points);
    points.push(point)?;
    Ok(())
}

/// Whether a rate is above those of all points.
fn is_above(rate: Fraction, points: &[ScenarioPoint]) -> bool
    requires { AreRising points.now }
    ensures { MatchBool result (AreSlower rate points.now) (HasNoSlower rate points.now) }
{
    match points.last() {
        None => true,
        Some(last) => is_slower(last.rate, rate),
    }
}

/// Whether the first rate is less than the second.
pub(crate) fn is_slower(first: Fraction, second: Fraction) -> bool
    ensures { MatchBool result (IsSlower first second) (second.num * first.den ≤ first.num * second.den) }
{
    matches!(first.compare(&second), Ordering::Less)
}

/// Takes the last point off, if it has this storage.
fn leave_out(total: u64, points: &mut Vec<ScenarioPoint>)
    requires rising { AreRising points.old.items }
    requires late { All (λ p. p.total ≤ total) points.old.items }
    ensures { IsLeftOut total points.old.items points.new.items }
{
    if ends_at(total, points.as_slice()) {
        points.pop();
    }
}

/// Whether the last point has this storage, if there is one.
fn ends_at(total: u64, points: &[ScenarioPoint]) -> bool
    requires rising { AreRising points.now }
    requires late { All (λ p. p.total ≤ total) points.now }
    ensures { MatchBool result (EndsAt total points.now) (AreEarlier total points.now) }
{
    match points.last() {
        None => false,
        Some(last) => last.total == total,
    }
}
