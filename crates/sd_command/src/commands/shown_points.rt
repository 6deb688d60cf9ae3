//! What an answer shows of the points of an exploration, made side by side.
//!
//! Schedules and lines of points are made side by side, by jobs as the members of a level are evaluated. The gate of the
//! top call isn't entered for them: it is there for distributions. They fill memory that was never used, 5 MB of starts
//! and 2.4 MB of text for the decoder, and on one thread they would be most of what is done alone. Each job makes its
//! point's schedule and lines (`point_text`), and the lines are put behind each other after the first one
//! (`points_header`). `points_text` makes the same text on one thread, for callers who have the schedules.
ghost use Rattle.std.specs.Prelude.{◌≡◌, All, IfOk, None, Some};
ghost use Rattle.std.specs.List.{AllZip};
ghost use Rattle.report.specs.StorageTexts.{points_lines};
ghost use Rattle.sd_command.specs.commands.Points.{IsPointSchedule};
ghost use Rattle.sd_command.specs.inside.PointTasks.{HasShown, IsShowable, IsShown, IsTaskOf};

use fanout::{Job, OpenGate, all};
use firing::{Firing, know_laws};
use pareto_front::Point;
use periodic::{Periodic, from_loop};
use report::{point_text, points_header};
use sd_base::{GraphFile, NoMemory, Rows};
use std::alloc::Global;
use std::thread::Threads;
use storage::Bounded;

/// The schedules of points in their order, and their text.
#[derive(Drop)]
pub(crate) struct ShownPoints {
    pub(crate) schedules: Vec<Periodic>,
    pub(crate) text: Rows<u8>,
}

/// The schedule of the loop of a point, and the lines of the point.
#[derive(Drop)]
pub(crate) struct ShownPoint {
    pub(crate) schedule: Periodic,
    pub(crate) lines: Rows<u8>,
}

/// A point of a net, with a place for what is shown of it.
#[derive(Drop)]
pub(crate) struct PointTask<'a, F: Firing> {
    pub(crate) alloc: Global,
    pub(crate) net: &'a F,
    pub(crate) graph: &'a GraphFile,
    pub(crate) point: &'a Point,
    pub(crate) shown: Option<Result<ShownPoint, NoMemory>>,
}

impl<'a, F: Firing + Sync> Job for PointTask<'a, F> {
    ghost ready = { λ t. IsShowable t.graph.now (F.net t.net.now) t.point.now };

    ghost ran = { λ old new. HasShown old.graph.now (F.net old.net.now) old.point.now new.shown };

    fn run(&mut self) {
        self.shown = Some(shown_point(self.alloc, self.net, self.graph, self.point));
    }
}

/// The schedules and the text of points, which are made side by side. Cost: linear in the starts of the loops and the text.
pub(crate) fn shown_points<R: Threads + Sync, F: Firing + Sync>(
    rt: &R,
    alloc: Global,
    net: &F,
    graph: &GraphFile,
    points: &[Point],
) -> Result<ShownPoints, NoMemory>
    requires { All (IsShowable graph.now (F.net net.now)) points.now }
    ensures schedules { IfOk result (λ s. AllZip (IsPointSchedule (F.net net.now)) points.now s.schedules.items) }
    ensures text { IfOk result (λ s. s.text ≡ points_lines graph.now points.now s.schedules.items) }
{
    let mut tasks = tasks_of(alloc, net, graph, points)?;
    all(rt, 0, tasks.as_mut_slice(), &OpenGate);
    let mut schedules = Vec::with_capacity(alloc, points.len())?;
    let mut text = points_header(alloc, points.len())?.into_vec();
    for task in tasks {
        let ShownPoint { schedule, lines } = shown_by(task)?;
        schedules.push(schedule)?;
        text.extend_from_slice(lines.as_slice())?;
    }
    Ok(ShownPoints {
        schedules,
        text: Rows::from_vec(text),
    })
}

// What a task shows after its run.
fn shown_by<F: Firing>(task: PointTask<'_, F>) -> Result<ShownPoint, NoMemory>
    requires { ¬ (task.shown ≡ None) }
    ensures { task.entry.shown ≡ Some result }
{
    match task.shown {
        Some(shown) => shown,
        None => unreachable!(),
    }
}

// A task for each point, in their order.
fn tasks_of<'a, F: Firing>(
    alloc: Global,
    net: &'a F,
    graph: &'a GraphFile,
    points: &'a [Point],
) -> Result<Vec<PointTask<'a, F>>, NoMemory>
    ensures { IfOk result (λ tasks. AllZip (λ p t. IsTaskOf graph.now (F.net net.now) p t.graph.now (F.net t.net.now) t.point.now) points.now tasks.items) }
{
    let mut tasks = Vec::with_capacity(alloc, points.len())?;
    for point in points {
        tasks.push(PointTask {
            alloc,
            net,
            graph,
            point,
            shown: None,
        })?;
    }
    Ok(tasks)
}

// The schedule of the loop of a point, and the lines of the point.
fn shown_point<F: Firing>(
    alloc: Global,
    net: &F,
    graph: &GraphFile,
    point: &Point,
) -> Result<ShownPoint, NoMemory>
    requires { IsShowable graph.now (F.net net.now) point.now }
    ensures { IfOk result (IsShown graph.now (F.net net.now) point.now) }
{
    know_laws(net);
    let bounded = Bounded::new(alloc, net, &point.capacities)?;
    let schedule = from_loop(alloc, &bounded, &point.table)?;
    let lines = point_text(alloc, graph, point, &schedule)?;
    Ok(ShownPoint { schedule, lines })
}
