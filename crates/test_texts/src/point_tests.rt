ghost use Rattle.std.specs.Prelude.{◌≡◌, ◌≤◌, All, IfOk, length};
ghost use Rattle.pareto_front.specs.declared.point.Point.{Point as APoint};
ghost use Rattle.periodic.specs.declared.schedule.Periodic.{Periodic as ASchedule};

use firing::LoopTable;
use pareto_front::Point;
use periodic::Periodic;
use report::{point_text, points_header, points_text};
use sd_base::{ActorRow, ChannelRow, Fraction, GraphFile, Kind, NoMemory, Rows, Text};
use std::alloc::Global;
use std::test::Fail;
use storage::Distribution;
use test_nets::ring_of_two;

fn single(alloc: Global, number: u64) -> Result<Rows<u64>, NoMemory> {
    let mut rows = Rows::new(alloc);
    rows.push(number)?;
    Ok(rows)
}

fn timed_actor(alloc: Global, name: &str, time: u64) -> Result<ActorRow, NoMemory> {
    Ok(ActorRow {
        name: Text::of(alloc, name)?,
        phases: 1,
        times: single(alloc, time)?,
    })
}

fn channel(alloc: Global) -> Result<ChannelRow, NoMemory> {
    Ok(ChannelRow {
        name: Text::of(alloc, "my xy")?,
        source: 0,
        target: 1,
        made: single(alloc, 1)?,
        taken: single(alloc, 1)?,
        tokens: 0,
        size: 1,
    })
}

/// Actor x of time 2, and actor y of time 3, which takes what x makes.
fn pair(alloc: Global) -> Result<GraphFile, NoMemory>
    ensures actors { IfOk result (λ g. length g.actors ≡ 2) }
    ensures channels { IfOk result (λ g. length g.channels ≡ 1) }
{
    let mut actors = Rows::new(alloc);
    actors.push(timed_actor(alloc, "x", 2)?)?;
    actors.push(timed_actor(alloc, "y", 3)?)?;
    let mut channels = Rows::new(alloc);
    channels.push(channel(alloc)?)?;
    Ok(GraphFile {
        kind: Kind::Sdf,
        actors,
        channels,
    })
}

/// The point of a pair with room for so many tokens, and with a round in each so many time units. No text shows its loop,
/// which is left empty.
fn point(alloc: Global, room: u64, period: u64) -> Result<Point, NoMemory>
    requires { 1 ≤ period }
    ensures { IfOk result (λ p. length p.capacities.capacities ≡ 1) }
{
    let mut capacities = Rows::new(alloc);
    capacities.push(Some(room))?;
    Ok(Point {
        total: room,
        rate: Fraction::new(1, period),
        capacities: Distribution { capacities },
        table: LoopTable {
            entry: 0,
            period,
            rounds: 1,
            before: Rows::new(alloc),
            starts: Rows::new(alloc),
        },
    })
}

/// A schedule of the pair with these starts, for a round in each period.
fn schedule(alloc: Global, period: u64, x: &[u128], y: &[u128]) -> Result<Periodic, NoMemory>
    ensures { IfOk result (λ s. length s.starts ≡ 2) }
{
    let mut starts = Rows::new(alloc);
    starts.push(Rows::from_vec(Vec::from_slice(alloc, x)?))?;
    starts.push(Rows::from_vec(Vec::from_slice(alloc, y)?))?;
    Ok(Periodic {
        period,
        rounds: 1,
        starts,
    })
}

/// The lines of the point of the pair with room for so many tokens, and of a schedule in which y starts at 2.
fn lines_of(alloc: Global, room: u64, period: u64, x: &[u128]) -> Result<Rows<u8>, NoMemory>
    requires { 1 ≤ period }
{
    let graph = pair(alloc)?;
    let point = point(alloc, room, period)?;
    let schedule = schedule(alloc, period, x, &[2])?;
    point_text(alloc, &graph, &point, &schedule)
}

/// With room for one token the two actors of the pair take turns, and with room for two y fires without a break.
const TWO_POINTS: &str = "points 2
point 1 1/5
buffers my%20xy=1
schedule 5 1
x 0
y 2
point 2 1/3
buffers my%20xy=2
schedule 3 1
x 0
y 2
";

/// The points of these two.
fn two_points(alloc: Global) -> Result<Vec<Point>, NoMemory>
    ensures many { IfOk result (λ points. length points.items ≡ 2) }
    ensures channels { IfOk result (λ points. All (λ (p : APoint). length p.capacities.capacities ≤ 1) points.items) }
{
    let mut points = Vec::new(alloc);
    points.push(point(alloc, 1, 5)?)?;
    points.push(point(alloc, 2, 3)?)?;
    Ok(points)
}

fn two_schedules(alloc: Global) -> Result<Vec<Periodic>, NoMemory>
    ensures many { IfOk result (λ schedules. length schedules.items ≡ 2) }
    ensures actors { IfOk result (λ schedules. All (λ (s : ASchedule). length s.starts ≡ 2) schedules.items) }
{
    let mut schedules = Vec::new(alloc);
    schedules.push(schedule(alloc, 5, &[0], &[2])?)?;
    schedules.push(schedule(alloc, 3, &[0], &[2])?)?;
    Ok(schedules)
}

// The program puts the texts of points together itself, so no case calls `points_text`. Of the net nothing is shown, so that any
// will do.
#[test]
fn points_are_shown_one_after_the_other(rt: HostRuntime) -> Result<(), Fail> {
    let graph = pair(rt.alloc())?;
    let net = ring_of_two(rt.alloc())?;
    let points = two_points(rt.alloc())?;
    let schedules = two_schedules(rt.alloc())?;
    let text = points_text(
        rt.alloc(),
        &net,
        &graph,
        points.as_slice(),
        schedules.as_slice(),
    )?;
    assert_eq!(rt; text.as_slice(), TWO_POINTS.as_bytes());
    Ok(())
}

#[test]
fn points_are_shown_part_by_part(rt: HostRuntime) -> Result<(), Fail> {
    let alloc = rt.alloc();
    let mut parts = points_header(alloc, 2)?.into_vec();
    parts.extend_from_slice(lines_of(alloc, 1, 5, &[0])?.as_slice())?;
    parts.extend_from_slice(lines_of(alloc, 2, 3, &[0])?.as_slice())?;
    assert_eq!(rt; parts.as_slice(), TWO_POINTS.as_bytes());
    Ok(())
}

/// A point whose first actor has starts of 2^64 - 1, 2^64 and 2^128 - 1.
const GREAT: &str = "point 1 1/5
buffers my%20xy=1
schedule 5 1
x 18446744073709551615 18446744073709551616 340282366920938463463374607431768211455
y 2
";

// No case shows starts past 64 bits.
#[test]
fn starts_may_be_great(rt: HostRuntime) -> Result<(), Fail> {
    let starts = [u64::MAX as u128, 1 << 64, u128::MAX];
    let text = lines_of(rt.alloc(), 1, 5, &starts)?;
    assert_eq!(rt; text.as_slice(), GREAT.as_bytes());
    Ok(())
}
