//! The lines of points.
ghost use Rattle.std.specs.Prelude.{◌≡◌, ◌↔◌, IfOk, IsTrue, Some, drop, length, slice_get, Contains};
ghost use Rattle.std.specs.List.{AllZip};
ghost use Rattle.explore.specs.Explorations.{capacities_of};
ghost use Rattle.cert_maker.specs.StorageCertificates.{IsPointLine, schedules_of};
ghost use Rattle.cert_maker.specs.inside.Lines.{ArePlaced};

use cert_text::PointLine;
use explore::Member;
use pareto_front::Point;
use periodic::Periodic;
use sd_base::NoMemory;
use std::alloc::Global;
use std::cmp::Ordering;
use storage::Distribution;

/// The lines of points with their schedules. Cost: linear in the members and the points.
pub(crate) fn point_lines(
    alloc: Global,
    members: &[Member],
    points: &[Point],
    schedules: Vec<Periodic>,
) -> Result<Vec<PointLine>, NoMemory>
    requires many { length schedules.items ≡ length points.now }
    requires placed { ArePlaced (capacities_of members.now) points.now }
    ensures lines { IfOk result (λ lines. AllZip (IsPointLine members.now) points.now lines.items) }
    ensures schedules { IfOk result (λ lines. schedules_of lines.items ≡ schedules.items) }
{
    let mut lines = Vec::new(alloc);
    let mut place = 0;
    for schedule in schedules {
        let point = &points[lines.len()];
        place = place_of(members, place, &point.capacities);
        lines.push(PointLine {
            total: point.total,
            rate: (point.rate.num(), point.rate.den()),
            member: place as u64,
            schedule,
        })?;
    }
    Ok(lines)
}

/// The number of the first member from a place on that has these capacities, if one has.
fn place_of(members: &[Member], from: usize, capacities: &Distribution) -> usize
    ensures { Contains (drop from (capacities_of members.now)) capacities.now.capacities
        → slice_get (capacities_of members.now) result ≡ Some capacities.now.capacities }
{
    for place in from..members.len() {
        if has(&members[place], capacities) {
            return place;
        }
    }
    members.len()
}

/// Whether a member has these capacities.
fn has(member: &Member, capacities: &Distribution) -> bool
    ensures { IsTrue result ↔ (member.now.capacities.capacities ≡ capacities.now.capacities) }
{
    match member.capacities.order(capacities) {
        Ordering::Equal => true,
        Ordering::Less | Ordering::Greater => false,
    }
}
