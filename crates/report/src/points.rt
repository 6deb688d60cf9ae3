ghost use Rattle.std.specs.Prelude.{◌≡◌, ◌≤◌, ◌++◌, All, IfOk, OnOk, length, map};
ghost use Rattle.std.specs.String.{string_bytes};
ghost use Rattle.report.specs.StorageTexts.{buffers_line, buffers_list, capacities_list, point_line, point_text, points_header, points_lines};

use crate::answers::bytes_of;
use crate::buffers::{Named, put_buffers};
use crate::fractions::put_fraction;
use crate::schedules::put_schedule;
use firing::Firing;
use pareto_front::Point;
use periodic::Periodic;
use sd_base::{Fraction, GraphFile, NoMemory, Rows};
use std::alloc::{AllocError, Global};
use storage::Distribution;

/// The text of the Pareto points of a net: a line `points N` with their number, then for each point a line `point TOTAL
/// RATE` with its storage and its rate in lowest terms, a line `buffers LIST` with its distribution, and the lines of a
/// schedule. Of the net nothing is shown that the graph doesn't say. Who makes the lines of points side by side puts
/// `points_header` before those that `point_text` makes of each. Cost: linear in the channels of each point and the text.
pub fn points_text<F: Firing>(
    alloc: Global,
    _net: &F,
    graph: &GraphFile,
    points: &[Point],
    schedules: &[Periodic],
) -> Result<Rows<u8>, NoMemory>
    requires many { length schedules.now ≡ length points.now }
    requires channels { All (λ (p : Point). length p.capacities.capacities ≤ length graph.now.channels) points.now }
    requires actors { All (λ (s : Periodic). length s.starts ≡ length graph.now.actors) schedules.now }
    ensures { IfOk result (λ t. t ≡ points_lines graph.now points.now schedules.now) }
{
    let mut text = header(alloc, points.len())?;
    for (i, point) in points.iter().enumerate() {
        put_point(&mut text, graph, point, &schedules[i])?;
    }
    Ok(bytes_of(text))
}

/// The first line of `points_text`, with the number of points.
pub fn points_header(alloc: Global, points: usize) -> Result<Rows<u8>, NoMemory>
    ensures { IfOk result (λ t. t ≡ points_header points) }
{
    Ok(bytes_of(header(alloc, points)?))
}

#[tactic(auto, unfolding(crate::specs::StorageTexts::points_header))]
pub(crate) fn header(alloc: Global, points: usize) -> Result<String, NoMemory>
    ensures { IfOk result (λ t. string_bytes t ≡ points_header points) }
{
    Ok(format!(in alloc; "points {points}\n")?)
}

/// The lines of one Pareto point, as `points_text` has them. Cost: linear in its channels and the text.
pub fn point_text(
    alloc: Global,
    graph: &GraphFile,
    point: &Point,
    schedule: &Periodic,
) -> Result<Rows<u8>, NoMemory>
    requires channels { length point.now.capacities.capacities ≤ length graph.now.channels }
    requires actors { length schedule.now.starts ≡ length graph.now.actors }
    ensures { IfOk result (λ t. t ≡ point_text graph.now point.now schedule.now) }
{
    let mut text = String::new(alloc);
    put_point(&mut text, graph, point, schedule)?;
    Ok(bytes_of(text))
}

/// Puts a point, its distribution and a schedule at the end of a text.
#[tactic(auto, unfolding(crate::specs::StorageTexts::point_text, crate::specs::StorageTexts::buffers_list))]
pub(crate) fn put_point(
    text: &mut String,
    graph: &GraphFile,
    point: &Point,
    schedule: &Periodic,
) -> Result<(), AllocError>
    requires channels { length point.now.capacities.capacities ≤ length graph.now.channels }
    requires actors { length schedule.now.starts ≡ length graph.now.actors }
    ensures { OnOk result (string_bytes text.new ≡ string_bytes text.old ++ point_text graph.now point.now schedule.now) }
{
    put_header(text, point.total, point.rate)?;
    put_distribution(text, graph.channels.as_slice(), &point.capacities)?;
    put_schedule(text, graph, schedule)
}

/// Puts the line of a point at the end of a text.
#[tactic(auto, unfolding(crate::specs::StorageTexts::point_line))]
pub(crate) fn put_header(text: &mut String, total: u64, rate: Fraction) -> Result<(), AllocError>
    ensures { OnOk result (string_bytes text.new ≡ string_bytes text.old ++ point_line total rate) }
{
    write!(text, "point {total} ")?;
    put_fraction(text, rate)?;
    text.push_str("\n")
}

/// Puts the line of a distribution, of the channels of these rows, at the end of a text.
#[tactic(auto, unfolding(crate::specs::StorageTexts::buffers_line))]
pub(crate) fn put_distribution<R: Named>(
    text: &mut String,
    rows: &[R],
    capacities: &Distribution,
) -> Result<(), AllocError>
    requires { length capacities.now.capacities ≤ length rows.now }
    ensures { OnOk result (string_bytes text.new ≡ string_bytes text.old ++ buffers_line (capacities_list (map R.name_of rows.now) capacities.now.capacities)) }
{
    text.push_str("buffers ")?;
    put_buffers(text, rows, capacities.capacities.as_slice())?;
    text.push_str("\n")
}
